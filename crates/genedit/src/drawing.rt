//! Drawing in a document.

ghost use Rattle.std.specs.Prelude.{◌≤◌};

use crate::document_file::{found_in, log_in};
use crate::document_reading::{Left, edits_in};
use crate::opening::{tell, tell_refused};
use devices::{ReadSource, WriteSink};
use document_files::write_refusal;
use document_pen::Pen;
use genedit_documents::{export_fault, replica_of};
use genedit_draw::{DrawFault, Drawn, draw};
use genedit_io::RunFault;
use genedit_words::DrawTask;
use kept_file::FileKeep;
use keyed_hash::{HashKey, RandomBytes};
use std::alloc::Global;
use std::fs::File;
use std::io;
use std::io::{IsTerminal, StdinLock};
use std::random::RandomSource;
use std::rt::Files;
use std::sync::Wait;
use std::time::Clock;

/// All is well.
const WELL: u8 = 0;

/// The lines are no commands of a drawing.
const NO_COMMANDS: u8 = 2;

/// Draws in a document by the commands on standard input, and says on standard error how far a film is, where that is
/// asked for; the status of the process. What stood behind the last whole
/// record of its file is saved beside it first.
pub fn draw_in_document<
    R: Files<File = File>
        + Input<Reader = StdinLock<'static>>
        + Print
        + Eprint
        + RandomSource
        + Clock
        + Wait,
>(rt: &R, alloc: Global, task: &DrawTask<'_>, tells_progress: bool) -> Result<u8, RunFault>
    requires { 1 ≤ task.now.replica }
{
    let Ok(key) = HashKey::drawn(&mut RandomBytes::of(rt)) else {
        return Err(RunFault::Read);
    };
    match pen_of(rt, alloc, task, key) {
        Ok(pen) => drawn(rt, alloc, task.file, pen, tells_progress),
        Err(left) => left.end(),
    }
}

/// A pen for the document of a file, whose hashes have this key.
fn pen_of<'a, R: Files<File = File> + Eprint>(
    rt: &'a R,
    alloc: Global,
    task: &DrawTask<'_>,
    key: HashKey,
) -> Result<Pen<FileKeep<'a, R>>, Left>
    requires { 1 ≤ task.now.replica }
{
    let path = task.file;
    let found = found_in(rt, alloc, path)?;
    let listed = edits_in(rt, alloc, Some(path), &found.bytes)?;
    let replica = match replica_of(alloc, &listed, None, task.replica, key) {
        Ok(replica) => replica,
        Err(fault) => return Err(Left::Run(export_fault(fault))),
    };
    let log = log_in(rt, alloc, path, found)?;
    Ok(Pen::of(alloc, log, replica))
}

/// Carries out the commands on standard input; the status of the process. At a terminal that of a drawing that came to
/// its end is 0: what came of its lines stands there.
fn drawn<
    R: Files<File = File> + Input<Reader = StdinLock<'static>> + Print + Eprint + Clock + Wait,
>(
    rt: &R,
    alloc: Global,
    path: &str,
    pen: Pen<FileKeep<'_, R>>,
    tells_progress: bool,
) -> Result<u8, RunFault> {
    let reader = rt.reader();
    let is_terminal = reader.is_terminal();
    let mut source = ReadSource::new(reader);
    let mut sink = WriteSink::new(io::writer(rt));
    let Drawn { pen, ended } = draw(rt, pen, &mut source, &mut sink, tells_progress);
    match ended {
        Ok(_) if is_terminal => Ok(WELL),
        Ok(tally) => Ok(tally.well_status()),
        Err(DrawFault::Run(fault)) => Err(fault),
        Err(DrawFault::File) => tell_refused(rt, alloc, path, write_refusal(pen.keep())),
        Err(DrawFault::Script) => {
            tell(rt, alloc, b"this is a script: run it by `genedit run`")?;
            Ok(NO_COMMANDS)
        }
    }
}
