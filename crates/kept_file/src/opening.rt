//! Files, opened.

use crate::beside::{DOUBT, NEW, name_beside, sync_folder};
use crate::file::FileKeep;
use std::alloc::Global;
use std::fs::{self, File, OpenOptions, TryLockError};
use std::io;
use std::io::ErrorKind;
use std::os::unix::fs::MetadataExt;
use std::rt::Files;

/// How often a file is opened that another process replaces meanwhile.
const TRIES: u32 = 8;

/// Why a file could not be opened.
#[derive(Clone, Copy, Debug, PartialEq, Eq)]
pub enum OpenFault {
    /// Another process has it open, or this one has.
    Busy,
    /// What has the name is no regular file. It was not opened, nor read.
    NoFile,
    /// The system refused it, by an error of this kind.
    Refused(ErrorKind),
    /// Memory was refused.
    Memory,
}

/// Opens a file to read it and to add to it, for this process alone until it is dropped. Where there is none
/// an empty one is made. What is no regular file, as a device, is refused unread, since it may have no end.
pub fn open<'a, R: Files<File = File>>(
    rt: &'a R,
    alloc: Global,
    path: &str,
) -> Result<FileKeep<'a, R>, OpenFault> {
    for _try in 0..TRIES {
        if is_something_else(rt, path) {
            return Err(OpenFault::NoFile);
        }
        let file = locked(rt, path)?;
        if has_name(rt, path, &file).unwrap_or(false) {
            return match found(rt, alloc, path, file) {
                Ok(keep) => Ok(keep),
                Err(error) if error.kind() == ErrorKind::OutOfMemory => Err(OpenFault::Memory),
                Err(error) => Err(OpenFault::Refused(error.kind())),
            };
        }
    }
    Err(OpenFault::Busy)
}

/// Whether something has the name that is no regular file.
fn is_something_else<R: Files>(rt: &R, path: &str) -> bool {
    match fs::metadata(rt, path) {
        Ok(known) => !known.is_file(),
        Err(_) => false,
    }
}

/// The file, with the system's lock on it.
fn locked<R: Files<File = File>>(rt: &R, path: &str) -> Result<File, OpenFault> {
    let opened = OpenOptions::new()
        .read(true)
        .append(true)
        .create(true)
        .open(rt, path);
    let file = match opened {
        Ok(file) => file,
        Err(error) => return Err(OpenFault::Refused(error.kind())),
    };
    match file.try_lock() {
        Ok(()) => Ok(file),
        Err(TryLockError::WouldBlock) => Err(OpenFault::Busy),
        Err(TryLockError::Error(error)) => Err(OpenFault::Refused(error.kind())),
    }
}

/// Whether the name still is that of this file: whoever held the lock before may have replaced it.
fn has_name<R: Files>(rt: &R, path: &str, file: &File) -> io::Result<bool> {
    let named = fs::metadata(rt, path)?;
    let opened = file.metadata()?;
    Ok(named.dev() == opened.dev() && named.ino() == opened.ino())
}

/// The file, once its folder is synced: that it was made, or replaced, is on the disk then.
fn found<'a, R: Files<File = File>>(
    rt: &'a R,
    alloc: Global,
    path: &str,
    file: File,
) -> io::Result<FileKeep<'a, R>> {
    // behind a link stands the file itself, which a new one is to replace
    let path = rt.canonicalize(alloc, path)?.into_string();
    sync_folder(rt, path.as_str())?;
    // both names are made now, so that no later call wants memory for them
    let replacement = name_beside(alloc, path.as_str(), NEW)?;
    let mark = name_beside(alloc, path.as_str(), DOUBT)?;
    let is_doubtful = fs::exists(rt, mark.as_str())?;
    let synced = file.metadata()?.len();
    Ok(FileKeep {
        rt,
        path,
        replacement,
        mark,
        file,
        synced,
        is_doubtful,
        failures: 0,
        failure: None,
    })
}
