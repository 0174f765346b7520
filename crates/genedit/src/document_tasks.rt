//! Documents in files.

ghost use Rattle.std.specs.Prelude.{◌≤◌, IfSome};
ghost use Rattle.kept_log.specs.Found.{IsReadTo, listed};

use crate::document_file::{found_in, lost_saved};
use crate::document_reading::{
    Left, bytes_of, document_in, edits_in, file_named, most_of, name_of, printed, tell_document,
};
use crate::opening::{tell, tell_refused};
use document_files::{cause_of_file, write_refusal};
use documents::{Document, gather};
use genedit_documents::{
    Merged, RenumberFault, difference_text, export_fault, export_text, first_edits, log_text,
    merge_bytes, merge_renumbered, merged_line, new_line,
};
use genedit_io::{RunFault, file_fault_text};
use genedit_words::{DiffTask, ExportTask, LogTask, MergeTask, NewTask};
use kept_devices::Reopen;
use kept_file::FileKeep;
use kept_log::Found;
use keyed_hash::{HashKey, RandomBytes};
use std::alloc::Global;
use std::fs::File;
use std::io;
use std::io::ErrorKind;
use std::path::Path;
use std::random::RandomSource;
use std::rt::Files;
use whole_files::{WriteRefusal, write_whole};

/// All is well.
const WELL: u8 = 0;

/// Two documents differ.
const TOLD: u8 = 1;

/// What is asked for is refused.
const REFUSED: u8 = 2;

/// Makes a document without an edit.
pub fn new_document<R: Files<File = File> + Print + Eprint>(
    rt: &R,
    alloc: Global,
    task: &NewTask<'_>,
) -> Result<u8, RunFault> {
    let text = Document::new(alloc, task.rule).text(alloc)?;
    if let Err(refusal) = write_durably(rt, alloc, task.file, false, &text) {
        return tell_unmade(rt, alloc, task.file, refusal);
    }
    let line = new_line(alloc, task.file.as_bytes(), &task.rule)?;
    printed(rt, &line, WELL)
}

/// Says why a file is not made, or not written; the status of the process.
pub(crate) fn tell_unmade<R: Eprint>(
    rt: &R,
    alloc: Global,
    path: &str,
    refusal: WriteRefusal,
) -> Result<u8, RunFault> {
    let why = match refusal {
        WriteRefusal::Exists => "there is such a file",
        WriteRefusal::NoFile => "it is no file",
        WriteRefusal::System(cause) => cause.text(),
        WriteRefusal::Memory => return Err(RunFault::Memory),
    };
    let text = file_fault_text(alloc, RunFault::Write, path.as_bytes(), why)?;
    tell(rt, alloc, &text)?;
    Ok(RunFault::Write.exit_status())
}

/// Writes a file whole, and syncs its folder: that it is there is on the disk then.
pub(crate) fn write_durably<R: Files<File = File>>(
    rt: &R,
    alloc: Global,
    path: &str,
    replaces: bool,
    text: &[u8],
) -> Result<(), WriteRefusal> {
    write_whole(rt, alloc, path, replaces, text)?;
    match sync_folder(rt, alloc, path) {
        Ok(()) => Ok(()),
        Err(error) if error.kind() == ErrorKind::OutOfMemory => Err(WriteRefusal::Memory),
        Err(error) => Err(WriteRefusal::System(cause_of_file(error.kind()))),
    }
}

/// Syncs the folder of a file.
pub(crate) fn sync_folder<R: Files<File = File>>(
    rt: &R,
    alloc: Global,
    path: &str,
) -> io::Result<()> {
    let whole = rt.canonicalize(alloc, path)?.into_string();
    let Some(folder) = Path::new(whole.as_str()).parent() else {
        return Err(io::Error::from(ErrorKind::InvalidInput));
    };
    File::open(rt, folder)?.sync_all()
}

/// Merges documents into the first. Nothing is written where one of them is refused, or none has an edit that is
/// new.
pub fn merge<R: Files<File = File> + Input + Print + Eprint>(
    rt: &R,
    alloc: Global,
    task: &MergeTask<'_>,
) -> Result<u8, RunFault>
    requires { IfSome task.now.renumber (λ number. 1 ≤ number) }
{
    match merged(rt, alloc, task) {
        Ok(line) => printed(rt, &line, WELL),
        Err(left) => left.end(),
    }
}

fn merged<R: Files<File = File> + Input + Eprint>(
    rt: &R,
    alloc: Global,
    task: &MergeTask<'_>,
) -> Result<Vec<u8>, Left>
    requires { IfSome task.now.renumber (λ number. 1 ≤ number) }
{
    let path = task.file;
    let found = found_in(rt, alloc, path)?;
    let document = document_in(rt, alloc, path, &found.bytes)?;
    let before = document.edits().len();
    let document = with_others(rt, alloc, document, task)?;
    let edits = document.edits().len();
    write_document(rt, alloc, path, found, &document)?;
    let line = merged_line(alloc, path.as_bytes(), edits, edits.saturating_sub(before))?;
    Ok(line)
}

/// A document with the edits of others, in turn.
fn with_others<R: Files + Input + Eprint>(
    rt: &R,
    alloc: Global,
    document: Document,
    task: &MergeTask<'_>,
) -> Result<Document, Left>
    requires { IfSome task.now.renumber (λ number. 1 ≤ number) }
{
    let mut all = document;
    for name in &task.others {
        all = with_other(rt, alloc, &all, name, task.renumber)?;
    }
    Ok(all)
}

/// A document with the edits of another, of which those that clash are taken by a number, if that is asked for.
fn with_other<R: Files + Input + Eprint>(
    rt: &R,
    alloc: Global,
    document: &Document,
    name: &str,
    renumber: Option<u16>,
) -> Result<Document, Left>
    requires { IfSome renumber (λ number. 1 ≤ number) }
{
    let bytes = bytes_of(rt, alloc, file_named(name))?;
    match merged_with(alloc, document, &bytes, renumber) {
        Ok(merged) => {
            tell_passed(rt, name, merged.passed);
            Ok(merged.document)
        }
        Err(RenumberFault::Document(fault)) => {
            Err(Left::by(tell_document(rt, alloc, name, &fault)))
        }
        Err(RenumberFault::Taken) => Err(Left::by(tell_taken(rt, alloc, name))),
    }
}

/// A document with the edits of other bytes, likewise.
fn merged_with(
    alloc: Global,
    document: &Document,
    bytes: &[u8],
    renumber: Option<u16>,
) -> Result<Merged, RenumberFault>
    requires { IfSome renumber (λ number. 1 ≤ number) }
{
    match renumber {
        Some(number) => merge_renumbered(alloc, document, bytes, number),
        None => match merge_bytes(alloc, document, bytes) {
            Ok(merged) => Ok(merged),
            Err(fault) => Err(RenumberFault::Document(fault)),
        },
    }
}

/// Says that a number is somebody's already; the status of the process.
fn tell_taken<R: Eprint>(rt: &R, alloc: Global, name: &str) -> Result<u8, RunFault> {
    let why = format!(in alloc;
        "{name}: one of the two has edits of that number: --renumber wants one of which neither has"
    )?;
    tell(rt, alloc, why.as_bytes())?;
    Ok(REFUSED)
}

/// Says how many bytes of a file were passed over, if any were.
fn tell_passed<R: Eprint>(rt: &R, name: &str, passed: usize) {
    if passed > 0 {
        let _ = eprintln!(rt;
            "genedit: {name}: {passed} bytes of it are no whole record, and were passed over"
        );
    }
}

/// Puts a document in the place of what its file had, where that is something else: whole, or not at all. What
/// stood behind the last whole record is saved beside it before.
fn write_document<R: Files<File = File> + Eprint>(
    rt: &R,
    alloc: Global,
    path: &str,
    found: Found<FileKeep<'_, R>>,
    document: &Document,
) -> Result<(), Left>
    requires { IsReadTo found.bytes.items (listed found.parts.head found.parts.bodies.items) found.parts.whole }
{
    let text = document.text(alloc)?;
    if text.as_slice() == found.bytes.as_slice() && !found.is_doubtful {
        return Ok(());
    }
    lost_saved(rt, alloc, path, &found)?;
    let mut keep = found.keep;
    match keep.replace(&text) {
        Ok(()) => Ok(()),
        Err(_) => Err(Left::by(tell_refused(rt, alloc, path, write_refusal(&keep)))),
    }
}

/// Tells how two documents differ.
pub fn diff<R: Files + Input + Print + Eprint>(
    rt: &R,
    alloc: Global,
    task: &DiffTask<'_>,
) -> Result<u8, RunFault> {
    match difference(rt, alloc, task) {
        Ok(text) => {
            if text.is_empty() {
                return Ok(WELL);
            }
            printed(rt, &text, TOLD)
        }
        Err(left) => left.end(),
    }
}

fn difference<R: Files + Input + Eprint>(
    rt: &R,
    alloc: Global,
    task: &DiffTask<'_>,
) -> Result<Vec<u8>, Left> {
    let bytes = bytes_of(rt, alloc, Some(task.file))?;
    let first = document_in(rt, alloc, task.file, &bytes)?;
    let other = bytes_of(rt, alloc, task.other)?;
    let name = name_of(task.other);
    let gathered = match gather(alloc, first.rule(), &other) {
        Ok(gathered) => gathered,
        Err(fault) => return Err(Left::by(tell_document(rt, alloc, name, &fault))),
    };
    tell_passed(rt, name, gathered.passed);
    match difference_text(alloc, &first, &gathered.document) {
        Ok(text) => Ok(text),
        Err(fault) => Err(Left::by(tell_document(rt, alloc, name, &fault))),
    }
}

/// Lists the edits of a document.
pub fn log<R: Files + Input + Print + Eprint>(
    rt: &R,
    alloc: Global,
    task: &LogTask<'_>,
) -> Result<u8, RunFault> {
    match logged(rt, alloc, task) {
        Ok(text) => printed(rt, &text, WELL),
        Err(left) => left.end(),
    }
}

fn logged<R: Files + Input + Eprint>(
    rt: &R,
    alloc: Global,
    task: &LogTask<'_>,
) -> Result<Vec<u8>, Left> {
    let bytes = bytes_of(rt, alloc, task.file)?;
    let listed = edits_in(rt, alloc, task.file, &bytes)?;
    let edits = first_edits(&listed.edits, most_of(task.edits));
    let lost = bytes.len().saturating_sub(listed.whole);
    let text = log_text(alloc, &listed.rule, edits, lost)?;
    Ok(text)
}

/// Prints a generation of a document.
pub fn export<R: Files + Input + Print + Eprint + RandomSource>(
    rt: &R,
    alloc: Global,
    task: &ExportTask<'_>,
) -> Result<u8, RunFault> {
    let Ok(key) = HashKey::drawn(&mut RandomBytes::of(rt)) else {
        return Err(RunFault::Read);
    };
    match exported(rt, alloc, task, key) {
        Ok(text) => printed(rt, &text, WELL),
        Err(left) => left.end(),
    }
}

fn exported<R: Files + Input + Eprint>(
    rt: &R,
    alloc: Global,
    task: &ExportTask<'_>,
    key: HashKey,
) -> Result<Vec<u8>, Left> {
    let bytes = bytes_of(rt, alloc, task.file)?;
    let listed = edits_in(rt, alloc, task.file, &bytes)?;
    match export_text(alloc, key, &listed, most_of(task.edits), task.generation) {
        Ok(text) => Ok(text),
        Err(fault) => Err(Left::Run(export_fault(fault))),
    }
}
