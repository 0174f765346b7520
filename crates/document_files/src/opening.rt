//! The file of a document, opened and read.

ghost use Rattle.std.specs.Prelude.{◌≡◌, [], None, IfOk};
ghost use Rattle.kept_log.specs.Found.{IsReadTo, listed};

use crate::refusal::{FileRefusal, cause_of_file};
use genedit_io::{Cause, RunFault};
use kept_file::{FileKeep, OpenFault, open};
use kept_log::{FindFault, Found, find};
use std::alloc::Global;
use std::fs::{self, File};
use std::io::ErrorKind;
use std::rt::Files;

/// Opens a file for this process alone, which is made where there is none, and reads its records. Nothing in it
/// is changed. Refused are, in this order: what is no regular file (42 `NoDocument`), one that another process
/// has (43 `Busy`), what the system refuses (`read fault`), and bytes that no record begins (42).
pub fn open_found<'a, F: Files<File = File>>(
    rt: &'a F,
    alloc: Global,
    path: &str,
) -> Result<Found<FileKeep<'a, F>>, FileRefusal>
    ensures read { IfOk result (λ f. IsReadTo f.bytes.items (listed f.parts.head f.parts.bodies.items) f.parts.whole) }
    ensures head { IfOk result (λ f. f.parts.head ≡ None → (f.bytes.items ≡ []) × (f.parts.bodies.items ≡ [])) }
{
    let keep = match open(rt, alloc, path) {
        Ok(keep) => keep,
        Err(fault) => return Err(open_refusal(fault)),
    };
    match find(alloc, keep) {
        Ok(found) => Ok(found),
        Err((fault, keep)) => Err(find_refusal(fault, &keep)),
    }
}

/// Whether there is no such file.
pub fn is_missing<F: Files>(rt: &F, path: &str) -> bool {
    match fs::metadata(rt, path) {
        Ok(_) => false,
        Err(error) => error.kind() == ErrorKind::NotFound,
    }
}

/// Why a file could not be opened.
fn open_refusal(fault: OpenFault) -> FileRefusal {
    match fault {
        OpenFault::Busy => FileRefusal::of(RunFault::Refused(43, None), "another process has it"),
        OpenFault::NoFile => FileRefusal::of(RunFault::Refused(42, None), "it is no file"),
        OpenFault::Refused(kind) => {
            let cause = cause_of_file(kind).of_new_file();
            FileRefusal::of(RunFault::Read, cause.text())
        }
        OpenFault::Memory => FileRefusal::memory(),
    }
}

/// Why a file could not be read.
fn find_refusal<F: Files<File = File>>(fault: FindFault, keep: &FileKeep<'_, F>) -> FileRefusal {
    match fault {
        FindFault::Memory => FileRefusal::memory(),
        FindFault::NoRecord => {
            FileRefusal::of(RunFault::Refused(42, None), "it holds no record of a board")
        }
        FindFault::Failed => {
            let cause = keep.failure().map_or(Cause::Other, cause_of_file);
            FileRefusal::of(RunFault::Read, cause.text())
        }
    }
}
