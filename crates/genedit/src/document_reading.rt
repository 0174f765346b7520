//! Documents that are read, and what is said of those that are refused.

ghost use Rattle.std.specs.Prelude.{IfOk};
ghost use Rattle.document_bodies.specs.Bodies.{AreEditsUnder};

use crate::opening::{opened, tell, tell_unread};
use devices::{ReadSource, Source, WriteSink};
use documents::{Document, DocumentFault, ListedEdits, read_document, read_edits};
use genedit_documents::{StateFault, as_state, export_fault, fault_text, run_fault};
use genedit_io::{RunFault, pull_all, push_output};
use keyed_hash::{HashKey, RandomBytes};
use std::alloc::{AllocError, Global};
use std::io;
use std::random::RandomSource;
use std::rt::Files;

/// How many pulls a file has, at most.
const TURNS: u64 = 1 << 32;

/// What standard input is called.
const STANDARD_INPUT: &str = "-";

/// How a command on documents is left before its work is done.
#[derive(Clone, Copy)]
pub(crate) enum Left {
    /// What is refused was told; the status of the process.
    Told(u8),
    /// By a fault of no file.
    Run(RunFault),
}

impl Left {
    /// By what telling a refusal came to.
    pub(crate) fn by(told: Result<u8, RunFault>) -> Left {
        match told {
            Ok(status) => Left::Told(status),
            Err(fault) => Left::Run(fault),
        }
    }

    /// The status of the process, or the fault.
    pub(crate) fn end(self) -> Result<u8, RunFault> {
        match self {
            Left::Told(status) => Ok(status),
            Left::Run(fault) => Err(fault),
        }
    }
}

impl From<AllocError> for Left {
    fn from(_error: AllocError) -> Left {
        Left::Run(RunFault::Memory)
    }
}

impl From<RunFault> for Left {
    fn from(fault: RunFault) -> Left {
        Left::Run(fault)
    }
}

/// Says why what a file has is refused; the status of the process.
pub(crate) fn tell_document<R: Eprint>(
    rt: &R,
    alloc: Global,
    path: &str,
    fault: &DocumentFault,
) -> Result<u8, RunFault> {
    let ending = run_fault(fault);
    if ending == RunFault::Memory {
        return Err(ending);
    }
    let text = fault_text(alloc, fault, path.as_bytes())?;
    tell(rt, alloc, &text)?;
    Ok(ending.exit_status())
}

/// What a file is called.
pub(crate) fn name_of(file: Option<&str>) -> &str {
    file.unwrap_or(STANDARD_INPUT)
}

/// The file of a name, or standard input.
pub(crate) fn file_named(name: &str) -> Option<&str> {
    if name == STANDARD_INPUT {
        None
    } else {
        Some(name)
    }
}

/// The document of a file's bytes.
pub(crate) fn document_in<R: Eprint>(
    rt: &R,
    alloc: Global,
    path: &str,
    bytes: &[u8],
) -> Result<Document, Left> {
    match read_document(alloc, bytes) {
        Ok(read) => Ok(read.document),
        Err(fault) => Err(Left::by(tell_document(rt, alloc, path, &fault))),
    }
}

/// The edits of a file's bytes, as they stand.
pub(crate) fn edits_in<R: Eprint>(
    rt: &R,
    alloc: Global,
    file: Option<&str>,
    bytes: &[u8],
) -> Result<ListedEdits, Left>
    ensures { IfOk result (λ l. AreEditsUnder l.rule l.edits.items) }
{
    match read_edits(alloc, bytes) {
        Ok(listed) => Ok(listed),
        Err(fault) => Err(Left::by(tell_document(rt, alloc, name_of(file), &fault))),
    }
}

/// All bytes of a file, or of standard input.
pub(crate) fn bytes_of<R: Files + Input + Eprint>(
    rt: &R,
    alloc: Global,
    file: Option<&str>,
) -> Result<Vec<u8>, Left> {
    match file {
        None => pulled(alloc, &mut ReadSource::new(rt.reader())),
        Some(path) => match opened(rt, path) {
            Err(cause) => Err(Left::by(tell_unread(rt, alloc, path, cause))),
            Ok(file) => pulled(alloc, &mut ReadSource::new(file)),
        },
    }
}

fn pulled<S: Source>(alloc: Global, source: &mut S) -> Result<Vec<u8>, Left> {
    let bytes = pull_all(alloc, source, TURNS)?;
    Ok(bytes)
}

/// Prints a text; the status of the process.
pub(crate) fn printed<R: Print>(rt: &R, text: &[u8], status: u8) -> Result<u8, RunFault> {
    push_output(&mut WriteSink::new(io::writer(rt)), text)?;
    Ok(status)
}

/// What a file has that is looked at: its bytes; or, where it is a document, the state of the map of its first edits, so
/// many of them at most, if that is asked for. Refused is then what is no document.
pub(crate) fn seen_text<R: Files + Input + Eprint + RandomSource>(
    rt: &R,
    alloc: Global,
    file: Option<&str>,
    edits: Option<u32>,
) -> Result<Vec<u8>, Left> {
    let bytes = bytes_of(rt, alloc, file)?;
    let Ok(key) = HashKey::drawn(&mut RandomBytes::of(rt)) else {
        return Err(Left::Run(RunFault::Read));
    };
    match as_state(alloc, &bytes, most_of(edits), key) {
        Ok(Some(state)) => Ok(state),
        Ok(None) if edits.is_none() => Ok(bytes),
        Ok(None) => Err(Left::by(tell_no_document(rt, alloc, name_of(file)))),
        Err(StateFault::Want(fault)) => Err(Left::Run(export_fault(fault))),
        Err(StateFault::Document(fault)) => {
            Err(Left::by(tell_document(rt, alloc, name_of(file), &fault)))
        }
    }
}

/// Says that the first edits are asked for of what is no document; the status of the process.
fn tell_no_document<R: Eprint>(rt: &R, alloc: Global, name: &str) -> Result<u8, RunFault> {
    let fault = DocumentFault::NoDocument;
    tell_document(rt, alloc, name, &fault)
}

/// How many edits are looked at, if that is asked for.
pub(crate) fn most_of(edits: Option<u32>) -> Option<u64> {
    match edits {
        Some(edits) => Some(u64::from(edits)),
        None => None,
    }
}
