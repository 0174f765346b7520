//! A report as it is printed.

ghost use Rattle.std.specs.Prelude.{◌≡◌, ◌++◌, IfOk, OnOk, codes, count_by, decimal, map, replicate};
ghost use Rattle.std.specs.List.{list_any};
ghost use Rattle.script_faults.specs.Faults.{is_fault};
ghost use Rattle.script_check.specs.Report.{AppendEntries, IsReportText, count_text, entry_of_note, entry_of_refusal, line_shown, place_text};
ghost use Rattle.script_check.specs.Shown.{IsLeftOf, carets, line_text, shown_byte, shown_line};

use crate::refusals::Refusal;
use crate::words::refusal_text;
use genedit_script::Lines;
use itoa::Buffer;
use pattern_files::FileKind;
use script_faults::{Dialect, Note, Notes, Place, Refused, reason_text, warning_text};
use std::alloc::{AllocError, Global};

/// The number of `Header` in the table of faults.
const HEADER: u8 = 4;

/// How many bytes of a line are shown.
const MOST_SHOWN: usize = 100;

/// A script, and what it is called.
#[derive(Clone, Copy)]
struct Named<'a> {
    name: &'a [u8],
    script: &'a [u8],
}

/// The text of notes and refusals, and the line of how many there are.
pub fn report_text(
    alloc: Global,
    name: &[u8],
    script: &[u8],
    notes: &Notes,
    refusals: &[Refusal],
) -> Result<Vec<u8>, AllocError>
    ensures { IfOk result (λ text. IsReportText name.now script.now notes.now.notes.items refusals.now text.items) }
{
    let mut out = Vec::new(alloc);
    push_notes(alloc, &mut out, name, script, notes)?;
    push_refusals(alloc, &mut out, Named { name, script }, notes, refusals)?;
    let faults = faults_among(&notes.notes);
    push_count(&mut out, faults, refusals.len())?;
    Ok(out)
}

fn push_notes(
    alloc: Global,
    out: &mut Vec<u8>,
    name: &[u8],
    script: &[u8],
    notes: &Notes,
) -> Result<(), AllocError>
    ensures { OnOk result (AppendEntries name.now script.now (map entry_of_note notes.now.notes.items) out.old.items out.new.items) }
{
    let mut lines = Lines::of(script);
    for note in &notes.notes {
        let place = note.place();
        let line = line_at(script, &mut lines, place.line);
        let told = told_of(alloc, notes, note, part_of(line, place))?;
        push_entry(out, name, place, told.as_bytes(), line)?;
    }
    Ok(())
}

fn push_refusals(
    alloc: Global,
    out: &mut Vec<u8>,
    text: Named<'_>,
    notes: &Notes,
    refusals: &[Refusal],
) -> Result<(), AllocError>
    ensures { OnOk result (AppendEntries text.entry.name.now text.entry.script.now (map entry_of_refusal refusals.now) out.old.items out.new.items) }
{
    let mut lines = Lines::of(text.script);
    for refusal in refusals {
        let block = block_kind(text.script, &mut lines, refusal);
        let line = line_at(text.script, &mut lines, refusal.place.line);
        let told = refusal_text(alloc, &refused_of(notes, refusal.number), block)?;
        push_entry(out, text.name, refusal.place, told.as_bytes(), line)?;
    }
    Ok(())
}

/// Which kind of file a block is that has no header, if its first bytes tell; the block stands behind its
/// command.
fn block_kind<'a>(script: &'a [u8], lines: &mut Lines<'a>, refusal: &Refusal) -> Option<FileKind>
    requires { IsLeftOf script.now lines.old.number lines.old.rest.now }
    ensures { IsLeftOf script.now lines.new.number lines.new.rest.now }
{
    if refusal.number != HEADER {
        return None;
    }
    let _command = line_at(script, lines, refusal.command);
    let mut behind = *lines;
    let _command = behind.next_line();
    FileKind::of(behind.rest)
}

/// A refusal in a script whose head was noted.
fn refused_of(notes: &Notes, number: u8) -> Refused
    ensures { result.number ≡ number }
{
    Refused {
        number,
        states: notes.rule.map(|rule| rule.states()),
        replicas: notes.replicas,
        cells: None,
    }
}

/// Whether some note is a fault.
pub fn has_fault(notes: &[Note]) -> bool
    ensures { result ≡ list_any is_fault notes.now }
{
    notes.iter().any(|note| note.is_fault())
}

fn faults_among(notes: &[Note]) -> usize
    ensures { result ≡ count_by is_fault notes.now }
{
    let mut faults = 0;
    for note in notes {
        if note.is_fault() {
            faults += 1;
        }
    }
    faults
}

/// What is said of a note.
fn told_of(alloc: Global, notes: &Notes, note: &Note, word: &[u8]) -> Result<String, AllocError> {
    match (note, notes.rule) {
        (Note::Fault(_, reason), _) => reason_text(alloc, Dialect::Script, *reason, word),
        (Note::Warning(_, warning), Some(rule)) => {
            let told = warning_text(alloc, Dialect::Script, *warning, word, &rule)?;
            format!(in alloc; "warning: {told}")
        }
        (Note::Warning(_, _), None) => Ok(String::new(alloc)),
    }
}

/// The text of a script's line of this number; empty where there is none. The lines that are left are gone on
/// with, or, where they are behind it, begun anew.
fn line_at<'a>(script: &'a [u8], lines: &mut Lines<'a>, number: u64) -> &'a [u8]
    requires { IsLeftOf script.now lines.old.number lines.old.rest.now }
    ensures line { result.now ≡ line_text script.now number }
    ensures left { IsLeftOf script.now lines.new.number lines.new.rest.now }
{
    if number < lines.number {
        *lines = Lines::of(script);
    }
    while lines.number < number {
        let Some(_) = lines.next_line() else {
            return &[];
        };
    }
    let mut here = *lines;
    match here.next_line() {
        Some(line) if line.number == number => line.text,
        _ => &[],
    }
}

/// The bytes at a place of a line.
fn part_of(line: &[u8], place: Place) -> &[u8] {
    let start = place.column.saturating_sub(1).min(line.len());
    let rest = &line[start..];
    &rest[..place.width.min(rest.len())]
}

/// `NAME:LINE:COLUMN: what is said`, the line, and carets.
fn push_entry(
    out: &mut Vec<u8>,
    name: &[u8],
    place: Place,
    told: &[u8],
    line: &[u8],
) -> Result<(), AllocError>
    ensures { OnOk result (out.new.items ≡ out.old.items ++ (place_text name.now place ++ told.now ++ line_shown line.now place)) }
{
    push_place(out, name, place)?;
    out.extend_from_slice(told)?;
    out.push(b'\n')?;
    push_shown(out, line)?;
    push_carets(out, place)?;
    Ok(())
}

/// `NAME:LINE:COLUMN: `
fn push_place(out: &mut Vec<u8>, name: &[u8], place: Place) -> Result<(), AllocError>
    ensures { OnOk result (out.new.items ≡ out.old.items ++ place_text name.now place) }
{
    out.extend_from_slice(name)?;
    out.push(b':')?;
    push_number(out, place.line)?;
    out.push(b':')?;
    push_number(out, place.column as u64)?;
    out.extend_from_slice(b": ")
}

/// A byte as it is shown.
fn shown(byte: u8) -> u8
    ensures { result ≡ shown_byte byte }
{
    if b' ' <= byte && byte <= b'~' {
        byte
    } else {
        b'?'
    }
}

/// The line's first 100 bytes, with `?` for what is not printing ASCII.
fn push_shown(out: &mut Vec<u8>, line: &[u8]) -> Result<(), AllocError>
    ensures { OnOk result (out.new.items ≡ out.old.items ++ (shown_line line.now ++ codes "\n")) }
{
    for byte in &line[..line.len().min(MOST_SHOWN)] {
        out.push(shown(*byte))?;
    }
    out.push(b'\n')?;
    Ok(())
}

/// Carets under the bytes of a place that are shown, or under the one behind them.
fn push_carets(out: &mut Vec<u8>, place: Place) -> Result<(), AllocError>
    ensures { OnOk result (out.new.items ≡ out.old.items ++ (carets place ++ codes "\n")) }
{
    let start = place.column.saturating_sub(1).min(MOST_SHOWN);
    let width = place.width.min(MOST_SHOWN - start).max(1);
    push_repeated(out, b' ', start)?;
    push_repeated(out, b'^', width)?;
    out.push(b'\n')?;
    Ok(())
}

fn push_repeated(out: &mut Vec<u8>, byte: u8, count: usize) -> Result<(), AllocError>
    ensures { OnOk result (out.new.items ≡ out.old.items ++ replicate count byte) }
{
    for _turn in 0..count {
        out.push(byte)?;
    }
    Ok(())
}

/// How many faults there are, or how many refusals where there is no fault.
fn push_count(out: &mut Vec<u8>, faults: usize, refusals: usize) -> Result<(), AllocError>
    ensures { OnOk result (out.new.items ≡ out.old.items ++ count_text faults refusals) }
{
    if faults == 0 && refusals > 0 {
        push_number(out, refusals as u64)?;
        out.extend_from_slice(b" refusals\n")
    } else {
        push_number(out, faults as u64)?;
        out.extend_from_slice(b" faults\n")
    }
}

fn push_number(out: &mut Vec<u8>, number: u64) -> Result<(), AllocError>
    ensures { OnOk result (out.new.items ≡ out.old.items ++ decimal number) }
{
    out.extend_from_slice(Buffer::new().format(number).as_bytes())
}
