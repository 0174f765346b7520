//! Files that are opened.

use crate::files::{FileFault, read_whole, refused_text};
use client_commands::FileName;
use genedit_documents::{StateFault, as_state, fault_text};
use genedit_io::RunFault;
use keyed_hash::HashKey;
use replica_core::Fault;
use std::alloc::{AllocError, Global};
use std::rt::Files;

/// The refusal of a file that cannot be read.
const READ: u8 = 36;

/// What a file comes to that is opened.
#[derive(Debug, Drop)]
pub enum OpenedFile {
    /// Its bytes; or the state of the map of all its edits, where it is a document.
    Text(Vec<u8>),
    /// It is refused: the line that is printed.
    Refused(Vec<u8>),
}

/// Reads a file that is opened. Refused are what cannot be read (`refused 36 Read FILE: cause`), and a document whose
/// records tell none (42), or one of which tells no edit under its rule, by its number and place. By the key the
/// squares of a document's map are found. The only faults are want of memory, and of room for 2^26 squares.
pub fn read_opened<R: Files>(
    rt: &R,
    alloc: Global,
    file: &FileName,
    key: HashKey,
) -> Result<OpenedFile, RunFault> {
    let bytes = match read_whole(rt, alloc, file) {
        Ok(bytes) => bytes,
        Err(FileFault::Refused(cause)) => {
            let line = refused_text(alloc, RunFault::Refused(READ, None), file, cause)?;
            return Ok(OpenedFile::Refused(line));
        }
        Err(FileFault::Memory) => return Err(RunFault::Memory),
    };
    match as_state(alloc, &bytes, None, key) {
        Ok(None) => Ok(OpenedFile::Text(bytes)),
        Ok(Some(state)) => Ok(OpenedFile::Text(state)),
        Err(fault) => refused(alloc, file, fault),
    }
}

/// Why a document is not opened.
fn refused(alloc: Global, file: &FileName, fault: StateFault) -> Result<OpenedFile, RunFault> {
    match fault {
        StateFault::Want(Fault::StoreFull) => Err(RunFault::StoreFull),
        StateFault::Want(_) => Err(RunFault::Memory),
        StateFault::Document(fault) => {
            let mut line = fault_text(alloc, &fault, file.as_bytes())?;
            line.extend_from_slice(b"\n")?;
            Ok(OpenedFile::Refused(line))
        }
    }
}
