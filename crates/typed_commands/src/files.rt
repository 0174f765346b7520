//! Files that commands name.

ghost use Rattle.std.specs.Prelude.{◌≡◌, IfOk};
ghost use Rattle.typed_commands.specs.Files.{fault_of, read_fault, refused_line, wrote_line};

use client_commands::{FileName, FileTarget};
use genedit_io::{Cause, RunFault, cause_of, file_fault_text};
use itoa::Buffer;
use std::alloc::{AllocError, Global};
use std::io::{ErrorKind, Read};
use std::rt::Files;
use std::str::from_utf8;
use std::{fs, io};
use whole_files::{Standing, WriteRefusal, write_whole};

/// Why a file is not written or read.
#[derive(Clone, Copy, Debug, PartialEq, Eq)]
pub enum FileCause {
    /// The system refuses it.
    System(Cause),
    /// There is a file that nobody wrote here before.
    Exists,
    /// It is neither a file nor a folder.
    NoFile,
    /// The name is not UTF-8.
    NoText,
}

impl FileCause {
    ghost use Rattle.std.specs.Prelude.{◌≡◌};
    ghost use Rattle.typed_commands.specs.Files.{file_cause_text};

    /// In words, and what would be right.
    pub fn text(self) -> &'static str
        ensures { result.now ≡ file_cause_text self }
    {
        match self {
            FileCause::System(cause) => cause.text(),
            FileCause::Exists => "there is such a file; save! or export! replaces it",
            FileCause::NoFile => "it is no file",
            FileCause::NoText => "its name is not UTF-8",
        }
    }
}

/// How a file was not written or read.
#[derive(Clone, Copy, Debug, PartialEq, Eq)]
pub enum FileFault {
    Refused(FileCause),
    Memory,
}

/// How a file is not written, by why that is.
fn fault_of(refusal: WriteRefusal) -> FileFault
    ensures { result ≡ fault_of refusal }
{
    match refusal {
        WriteRefusal::Exists => FileFault::Refused(FileCause::Exists),
        WriteRefusal::NoFile => FileFault::Refused(FileCause::NoFile),
        WriteRefusal::System(cause) => FileFault::Refused(FileCause::System(cause)),
        WriteRefusal::Memory => FileFault::Memory,
    }
}

/// Writes the file of a command, whole or not at all. A file that is there is replaced only where the target
/// says so, and what has the name but is no file never.
pub fn write_target<R: Files>(
    rt: &R,
    alloc: Global,
    target: &FileTarget,
    text: &[u8],
) -> Result<(), FileFault> {
    let Ok(path) = from_utf8(target.name.as_bytes()) else {
        return Err(FileFault::Refused(FileCause::NoText));
    };
    match write_whole(rt, alloc, path, target.replaces, text) {
        Ok(()) => Ok(()),
        Err(refusal) => Err(fault_of(refusal)),
    }
}

/// What has the name of a file. Nothing has one that is not UTF-8.
pub fn standing_of<R: Files>(rt: &R, name: &FileName) -> Standing {
    match from_utf8(name.as_bytes()) {
        Ok(path) => Standing::of(rt, path),
        Err(_) => Standing::Nothing,
    }
}

/// All bytes of a file.
pub fn read_whole<R: Files>(rt: &R, alloc: Global, name: &FileName) -> Result<Vec<u8>, FileFault> {
    let Ok(path) = from_utf8(name.as_bytes()) else {
        return Err(FileFault::Refused(FileCause::NoText));
    };
    match read_bytes(rt, alloc, path) {
        Ok(text) => Ok(text),
        Err(error) => Err(read_fault(error.kind())),
    }
}

/// How a file is not read, by what the system says.
fn read_fault(kind: ErrorKind) -> FileFault
    ensures { result ≡ read_fault kind }
{
    match kind {
        ErrorKind::OutOfMemory => FileFault::Memory,
        kind => FileFault::Refused(FileCause::System(cause_of(kind))),
    }
}

fn read_bytes<R: Files>(rt: &R, alloc: Global, path: &str) -> io::Result<Vec<u8>> {
    let mut file = fs::open(rt, path)?;
    let mut text = Vec::new(alloc);
    file.read_to_end(&mut text)?;
    Ok(text)
}

/// That a file was written, and how many bytes it has.
pub fn wrote_text(alloc: Global, bytes: u64, name: &FileName) -> Result<Vec<u8>, AllocError>
    ensures { IfOk result (λ text. text.items ≡ wrote_line bytes name.now) }
{
    let mut out = Vec::new(alloc);
    out.extend_from_slice(b"wrote ")?;
    out.extend_from_slice(Buffer::new().format(bytes).as_bytes())?;
    out.push(b' ')?;
    out.extend_from_slice(name.as_bytes())?;
    out.push(b'\n')?;
    Ok(out)
}

/// The refusal of a file, as it is printed: its name, and why.
pub fn refused_text(
    alloc: Global,
    refusal: RunFault,
    name: &FileName,
    cause: FileCause,
) -> Result<Vec<u8>, AllocError>
    ensures { IfOk result (λ text. text.items ≡ refused_line refusal name.now cause) }
{
    let mut out = file_fault_text(alloc, refusal, name.as_bytes(), cause.text())?;
    out.push(b'\n')?;
    Ok(out)
}
