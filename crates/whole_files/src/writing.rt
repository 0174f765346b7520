//! Files that are written.

use crate::new_file::new_file;
use crate::refusal::{WriteRefusal, system_refusal};
use crate::standing::Standing;
use std::alloc::Global;
use std::fs;
use std::fs::OpenFile;
use std::io::{ErrorKind, Write};
use std::rt::Files;

/// Why a file is not written, by what has its name now; none where it is.
pub fn write_refusal<R: Files>(rt: &R, path: &str, replaces: bool) -> Option<WriteRefusal> {
    Standing::of(rt, path).refusal(replaces)
}

/// Writes a file whole: its bytes are written to a new file beside it, which is synced and then takes its
/// name. Where that fails the file is as it was, and there is no new one. A file that is there is replaced
/// only where that is asked for, and what has the name but is no file, as a folder or a device, never.
pub fn write_whole<R: Files>(
    rt: &R,
    alloc: Global,
    path: &str,
    replaces: bool,
    text: &[u8],
) -> Result<(), WriteRefusal> {
    if let Some(refusal) = write_refusal(rt, path, replaces) {
        return Err(refusal);
    }
    let (new, file) = new_file(rt, alloc, path)?;
    let named = match write_new(file, text) {
        Ok(()) => name_new(rt, new.as_str(), path, replaces),
        Err(refusal) => Err(refusal),
    };
    if let Err(refusal) = named {
        let _gone = fs::remove_file(rt, new.as_str());
        return Err(refusal);
    }
    Ok(())
}

/// Writes a new file; it is on the disk then.
fn write_new<F: Write + OpenFile + Drop>(mut file: F, text: &[u8]) -> Result<(), WriteRefusal> {
    if let Err(error) = file.write_all(text) {
        return Err(system_refusal(error.kind()));
    }
    match file.sync_all() {
        Ok(()) => Ok(()),
        Err(error) => Err(system_refusal(error.kind())),
    }
}

/// Gives a new file its name. One that may not replace another is linked there, which the system refuses
/// where the name was taken meanwhile; where there are no links it is renamed.
fn name_new<R: Files>(rt: &R, new: &str, path: &str, replaces: bool) -> Result<(), WriteRefusal> {
    if !replaces {
        match fs::hard_link(rt, new, path) {
            Ok(()) => {
                let _gone = fs::remove_file(rt, new);
                return Ok(());
            }
            Err(error) if error.kind() == ErrorKind::AlreadyExists => {
                return Err(WriteRefusal::Exists);
            }
            Err(_) => {}
        }
    }
    match fs::rename(rt, new, path) {
        Ok(()) => Ok(()),
        Err(error) => Err(system_refusal(error.kind())),
    }
}
