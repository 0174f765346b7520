//! The token of a board's links.

use crate::document_reading::{Left, bytes_of};
use crate::document_tasks::{sync_folder, tell_unmade};
use crate::opening::tell;
use board_links::{TOKEN_BYTES, token_in, token_of, token_text};
use document_files::{cause_of_file, is_missing};
use genedit_io::RunFault;
use std::alloc::{AllocError, Global};
use std::fs::{File, OpenOptions};
use std::io::{ErrorKind, Write};
use std::os::unix::fs::OpenOptionsExt;
use std::random::RandomSource;
use std::rt::Files;
use std::{fs, io};
use web_requests::Token;
use whole_files::WriteRefusal;

/// What is in the file is refused.
const REFUSED: u8 = 2;

/// What the name of the file ends with, beside that of a kept board, that has the token of its links.
const TOKEN: &str = ".token";

/// What the name of that file ends with until it is whole.
const NEW: &str = ".token.new";

/// Who may read it and write it: its owner alone.
const OWNER: u32 = 0o600;

/// A token by chance.
pub(crate) fn drawn_token<R: RandomSource>(rt: &R) -> Result<Token, RunFault> {
    let mut bytes = [0; TOKEN_BYTES];
    match rt.fill_bytes(&mut bytes) {
        Ok(()) => Ok(token_of(&bytes)),
        Err(_) => Err(RunFault::Read),
    }
}

/// The token of the board that a file keeps, which stands beside that file, so that links outlive the server. Where none
/// stands there, one is drawn and put there. Whoever calls has the board's file for themselves.
pub(crate) fn kept_token<R: Files<File = File> + Input + RandomSource + Eprint>(
    rt: &R,
    alloc: Global,
    board: &str,
) -> Result<Token, Left> {
    let path = beside(alloc, board, TOKEN)?;
    let path = path.as_str();
    if is_missing(rt, path) {
        let token = drawn_token(rt)?;
        return match write_token(rt, alloc, board, &token) {
            Ok(()) => Ok(token),
            Err(refusal) => Err(Left::by(tell_unmade(rt, alloc, path, refusal))),
        };
    }
    let text = bytes_of(rt, alloc, Some(path))?;
    match token_in(&text) {
        Some(token) => Ok(token),
        None => Err(Left::by(tell_no_token(rt, alloc, path))),
    }
}

/// The name of a file beside another.
fn beside(alloc: Global, path: &str, end: &str) -> Result<String, AllocError> {
    let mut name = String::from_str(alloc, path)?;
    name.push_str(end)?;
    Ok(name)
}

/// Says that a file has no token; the status of the process.
fn tell_no_token<R: Eprint>(rt: &R, alloc: Global, path: &str) -> Result<u8, RunFault> {
    let why = format!(in alloc;
        "{path}: 32 digits of 0 to 9 and a to f have to stand there, and nothing else: take the file away, and a new link is made"
    )?;
    tell(rt, alloc, why.as_bytes())?;
    Ok(REFUSED)
}

/// Puts a token beside a board's file, on the disk.
fn write_token<R: Files<File = File>>(
    rt: &R,
    alloc: Global,
    board: &str,
    token: &Token,
) -> Result<(), WriteRefusal> {
    let (Ok(new), Ok(path), Ok(text)) = (
        beside(alloc, board, NEW),
        beside(alloc, board, TOKEN),
        token_text(alloc, token),
    ) else {
        return Err(WriteRefusal::Memory);
    };
    let written = match write_new(rt, new.as_str(), &text) {
        Ok(()) => put(rt, alloc, new.as_str(), path.as_str()),
        Err(error) => Err(error),
    };
    match written {
        Ok(()) => Ok(()),
        Err(error) => {
            let _gone = fs::remove_file(rt, new.as_str());
            Err(refusal_of(error.kind()))
        }
    }
}

/// Writes a new file that its owner alone can read. One of this name that is there was left by a process that was
/// killed.
fn write_new<R: Files<File = File>>(rt: &R, new: &str, text: &[u8]) -> io::Result<()> {
    let _left = fs::remove_file(rt, new);
    let mut file = OpenOptions::new()
        .write(true)
        .create_new(true)
        .mode(OWNER)
        .open(rt, new)?;
    file.write_all(text)?;
    file.sync_all()
}

/// Gives a new file its name, on the disk.
fn put<R: Files<File = File>>(rt: &R, alloc: Global, new: &str, path: &str) -> io::Result<()> {
    fs::rename(rt, new, path)?;
    sync_folder(rt, alloc, path)
}

fn refusal_of(kind: ErrorKind) -> WriteRefusal {
    match kind {
        ErrorKind::OutOfMemory => WriteRefusal::Memory,
        kind => WriteRefusal::System(cause_of_file(kind)),
    }
}
