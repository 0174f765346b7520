//! Records from standard input, put into a document.

use crate::document_file::{found_in, log_in};
use crate::document_reading::{Left, document_in, printed};
use crate::opening::{tell, tell_refused};
use base64::DecodeAllocError;
use base64::engine::general_purpose::STANDARD;
use devices::{ReadSource, Source};
use document_files::write_refusal;
use document_pen::{Fed, FeedFault, Feeder};
use genedit_draw::Lines;
use genedit_io::RunFault;
use genedit_script::without_return;
use genedit_words::FeedTask;
use kept_file::FileKeep;
use std::alloc::{AllocError, Global};
use std::fs::File;
use std::rt::Files;

/// All is well.
const WELL: u8 = 0;

/// A line was skipped.
const SKIPPED: u8 = 2;

/// Why no more lines are taken.
#[derive(Clone, Copy)]
enum End {
    Run(RunFault),
    /// The file of the document failed.
    File,
}

impl From<AllocError> for End {
    fn from(_error: AllocError) -> End {
        End::Run(RunFault::Memory)
    }
}

impl From<RunFault> for End {
    fn from(fault: RunFault) -> End {
        End::Run(fault)
    }
}

/// What came of the lines so far.
#[derive(Clone, Copy)]
struct Count {
    lines: u64,
    new: u64,
    is_skipped: bool,
}

/// Puts the records that lines on standard input tell into a document, each edit that is new on the disk before the next
/// line is taken; and prints how many these were.
pub fn feed<R: Files<File = File> + Input + Print + Eprint>(
    rt: &R,
    alloc: Global,
    task: &FeedTask<'_>,
) -> Result<u8, RunFault> {
    let mut feeder = match feeder_of(rt, alloc, task.file) {
        Ok(feeder) => feeder,
        Err(left) => return left.end(),
    };
    match fed(rt, alloc, &mut feeder) {
        Ok(count) => print_count(rt, alloc, count),
        Err(End::Run(fault)) => Err(fault),
        Err(End::File) => tell_refused(rt, alloc, task.file, write_refusal(feeder.keep())),
    }
}

fn print_count<R: Print>(rt: &R, alloc: Global, count: Count) -> Result<u8, RunFault> {
    let new = count.new;
    let line = format!(in alloc; "new {new}\n")?;
    printed(
        rt,
        line.as_bytes(),
        if count.is_skipped { SKIPPED } else { WELL },
    )
}

/// What puts records into the document of a file.
fn feeder_of<'a, R: Files<File = File> + Eprint>(
    rt: &'a R,
    alloc: Global,
    path: &str,
) -> Result<Feeder<FileKeep<'a, R>>, Left> {
    let found = found_in(rt, alloc, path)?;
    let document = document_in(rt, alloc, path, &found.bytes)?;
    let log = log_in(rt, alloc, path, found)?;
    Ok(Feeder::of(alloc, log, document))
}

/// Takes each line of standard input.
fn fed<R: Files<File = File> + Input + Eprint>(
    rt: &R,
    alloc: Global,
    feeder: &mut Feeder<FileKeep<'_, R>>,
) -> Result<Count, End> {
    let mut source = ReadSource::new(rt.reader());
    let mut lines = Lines::new(alloc);
    let mut count = Count {
        lines: 0,
        new: 0,
        is_skipped: false,
    };
    for _line in 0..u64::MAX {
        let Some(line) = next_line(&mut lines, &mut source)? else {
            return Ok(count);
        };
        count.lines = count.lines.saturating_add(1);
        let text = without_return(&line);
        if !text.is_empty() {
            count = take_line(rt, alloc, feeder, count, text)?;
        }
    }
    Ok(count)
}

fn next_line<S: Source>(lines: &mut Lines, source: &mut S) -> Result<Option<Vec<u8>>, End> {
    let line = lines.next(source)?;
    Ok(line)
}

/// Takes a line, which is the last of those that are counted.
fn take_line<R: Files<File = File> + Eprint>(
    rt: &R,
    alloc: Global,
    feeder: &mut Feeder<FileKeep<'_, R>>,
    count: Count,
    line: &[u8],
) -> Result<Count, End> {
    match take_record(alloc, feeder, line) {
        Ok(Fed::New) => Ok(Count {
            new: count.new.saturating_add(1),
            ..count
        }),
        Ok(Fed::Known) => Ok(count),
        Err(FeedFault::Memory) => Err(End::Run(RunFault::Memory)),
        Err(FeedFault::Write) => Err(End::File),
        Err(fault) => {
            tell_skipped(rt, alloc, count.lines, fault)?;
            Ok(Count {
                is_skipped: true,
                ..count
            })
        }
    }
}

/// Takes the record that a line of base64 tells.
fn take_record<R: Files<File = File>>(
    alloc: Global,
    feeder: &mut Feeder<FileKeep<'_, R>>,
    line: &[u8],
) -> Result<Fed, FeedFault> {
    match STANDARD.decode(alloc, line) {
        Ok(record) => feeder.take(&record),
        Err(DecodeAllocError::OutOfMemory) => Err(FeedFault::Memory),
        Err(DecodeAllocError::DecodeError(_)) => Err(FeedFault::NoRecord),
    }
}

/// Says why a line of this number is skipped.
fn tell_skipped<R: Eprint>(
    rt: &R,
    alloc: Global,
    line: u64,
    fault: FeedFault,
) -> Result<(), AllocError> {
    let why = fault.text(alloc)?;
    let why = String::from_utf8_lossy(alloc, &why)?;
    let why = why.as_str();
    let told = format!(in alloc; "line {line} is skipped: {why}")?;
    tell(rt, alloc, told.as_bytes())
}
