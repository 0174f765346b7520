//! The numbers by which people draw who draw apart.

use crate::document_reading::{Left, bytes_of, printed};
use crate::document_tasks::{tell_unmade, write_durably};
use crate::opening::tell;
use document_files::is_missing;
use genedit_documents::{Numbered, NumbersFault, is_name, number_of, number_text, numbers_in};
use genedit_io::RunFault;
use genedit_words::NumberTask;
use std::alloc::Global;
use std::fs::File;
use std::rt::Files;

/// All is well.
const WELL: u8 = 0;

/// The name, or the file, is refused.
const REFUSED: u8 = 2;

/// Prints the number of a name; where a file of numbers tells none, the next is put into it.
pub fn number<R: Files<File = File> + Input + Print + Eprint>(
    rt: &R,
    alloc: Global,
    task: &NumberTask<'_>,
) -> Result<u8, RunFault> {
    if !is_name(task.name.as_bytes()) {
        return refused(rt, alloc, "a name is one word, without blanks");
    }
    match number_in_file(rt, alloc, task) {
        Ok(status) => Ok(status),
        Err(left) => left.end(),
    }
}

fn number_in_file<R: Files<File = File> + Input + Print + Eprint>(
    rt: &R,
    alloc: Global,
    task: &NumberTask<'_>,
) -> Result<u8, Left> {
    let text = if is_missing(rt, task.file) {
        Vec::new(alloc)
    } else {
        bytes_of(rt, alloc, Some(task.file))?
    };
    let told = match numbers_in(alloc, &text) {
        Ok(told) => told,
        Err(fault) => return Err(Left::by(tell_fault(rt, alloc, task.file, &fault))),
    };
    match number_of(&told, task.name.as_bytes()) {
        Numbered::Told(number) => print_number(rt, alloc, number),
        Numbered::Next(number) => add_number(rt, alloc, task, &text, number),
        Numbered::AtOdds => at_odds(rt, alloc, task),
        Numbered::Full => full(rt, alloc, task.file),
    }
}

/// Puts the next number into the file, and prints it.
fn add_number<R: Files<File = File> + Print + Eprint>(
    rt: &R,
    alloc: Global,
    task: &NumberTask<'_>,
    text: &[u8],
    number: u16,
) -> Result<u8, Left> {
    let longer = number_text(alloc, text, number, task.name.as_bytes())?;
    match write_durably(rt, alloc, task.file, true, &longer) {
        Ok(()) => print_number(rt, alloc, number),
        Err(refusal) => Err(Left::by(tell_unmade(rt, alloc, task.file, refusal))),
    }
}

fn print_number<R: Print>(rt: &R, alloc: Global, number: u16) -> Result<u8, Left> {
    let line = format!(in alloc; "{number}\n")?;
    let status = printed(rt, line.as_bytes(), WELL)?;
    Ok(status)
}

/// Says which line tells no number and name; the status of the process.
fn tell_fault<R: Eprint>(
    rt: &R,
    alloc: Global,
    path: &str,
    fault: &NumbersFault,
) -> Result<u8, RunFault> {
    let NumbersFault::Line(line) = fault else {
        return Err(RunFault::Memory);
    };
    let line = String::from_utf8_lossy(alloc, line)?;
    let line = line.as_str();
    let why = format!(in alloc;
        "{path}: each line is a number from 65 to 65535 and a name, and not `{line}`"
    )?;
    refused(rt, alloc, why.as_str())
}

fn at_odds<R: Eprint>(rt: &R, alloc: Global, task: &NumberTask<'_>) -> Result<u8, Left> {
    let (path, name) = (task.file, task.name);
    let why = format!(in alloc;
        "{path}: {name} has two numbers there, or another has the same: take one out"
    )?;
    let status = refused(rt, alloc, why.as_str())?;
    Ok(status)
}

fn full<R: Eprint>(rt: &R, alloc: Global, path: &str) -> Result<u8, Left> {
    let why = format!(in alloc; "{path}: the last number, 65535, is somebody's")?;
    let status = refused(rt, alloc, why.as_str())?;
    Ok(status)
}

/// Says why there is no number; the status of the process.
fn refused<R: Eprint>(rt: &R, alloc: Global, why: &str) -> Result<u8, RunFault> {
    tell(rt, alloc, why.as_bytes())?;
    Ok(REFUSED)
}
