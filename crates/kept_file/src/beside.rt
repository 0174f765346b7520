//! What stands beside a file, in its folder.

use std::alloc::{AllocError, Global};
use std::fs::{self, File, OpenOptions, Permissions};
use std::io;
use std::io::{ErrorKind, Write};
use std::path::Path;
use std::rt::Files;

/// What the name of a new file ends with that is to replace one.
pub(crate) const NEW: &str = ".new";

/// What the name of the mark ends with that says that a sync of a file failed.
pub(crate) const DOUBT: &str = ".unsynced";

/// What the name of the file ends with to which the bytes are saved that are cut off.
pub(crate) const LOST: &str = ".lost";

/// The name of a file, with an end.
pub(crate) fn name_beside(alloc: Global, path: &str, end: &str) -> Result<String, AllocError> {
    let mut name = String::from_str(alloc, path)?;
    name.push_str(end)?;
    Ok(name)
}

/// Syncs the folder of a file: which files it has is on the disk then.
pub(crate) fn sync_folder<R: Files<File = File>>(rt: &R, path: &str) -> io::Result<()> {
    let Some(folder) = Path::new(path).parent() else {
        return Err(io::Error::from(ErrorKind::InvalidInput));
    };
    File::open(rt, folder)?.sync_all()
}

/// Adds bytes at the end of a file, on the disk. It is made where there is none.
pub(crate) fn add_synced<R: Files<File = File>>(
    rt: &R,
    path: &str,
    bytes: &[u8],
) -> io::Result<()> {
    let mut file = OpenOptions::new().append(true).create(true).open(rt, path)?;
    file.write_all(bytes)?;
    file.sync_all()
}

/// A file of these bytes, on the disk and locked, that takes the place of another. Where that fails there is
/// no new file, but for one that has its place already.
pub(crate) fn put_in_place<R: Files<File = File>>(
    rt: &R,
    new: &str,
    path: &str,
    bytes: &[u8],
    permissions: Permissions,
) -> io::Result<File> {
    let file = new_file(rt, new)?;
    if let Err(error) = fill(&file, bytes, permissions) {
        let _gone = fs::remove_file(rt, new);
        return Err(error);
    }
    if let Err(error) = fs::rename(rt, new, path) {
        let _gone = fs::remove_file(rt, new);
        return Err(error);
    }
    Ok(file)
}

/// A new file. One of this name that is there was left by a process that was killed: who holds the lock of
/// the file that is to be replaced makes it alone.
fn new_file<R: Files<File = File>>(rt: &R, new: &str) -> io::Result<File> {
    match create_new(rt, new) {
        Err(error) if error.kind() == ErrorKind::AlreadyExists => {
            fs::remove_file(rt, new)?;
            create_new(rt, new)
        }
        made => made,
    }
}

fn create_new<R: Files<File = File>>(rt: &R, new: &str) -> io::Result<File> {
    OpenOptions::new()
        .read(true)
        .append(true)
        .create_new(true)
        .open(rt, new)
}

fn fill(mut file: &File, bytes: &[u8], permissions: Permissions) -> io::Result<()> {
    file.try_lock()?;
    file.set_permissions(permissions)?;
    file.write_all(bytes)?;
    file.sync_all()
}
