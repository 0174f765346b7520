//! The board of a client that lost its server, in a file.

ghost use Rattle.std.specs.Prelude.{◌≡◌, ◌++◌, ℕ, IfOk, OnOk, decimal};
ghost use Rattle.edit_stamps.specs.PlaneMap.{IsGreatestStamp};
ghost use Rattle.stamped_tree.specs.Plane.{map_of};
ghost use Rattle.genedit_join.specs.Rescue.{has_writes, holding_of, in_file_text, kept_text, nowhere_text, rescue_name};

use client_commands::{FileName, FileTarget};
use genedit_io::{RunFault, file_fault_text};
use itoa::Buffer;
use stamped_tree::Plane;
use std::alloc::{AllocError, Global};
use std::rt::Files;
use typed_commands::{FileCause, FileFault, read_whole, standing_of, write_target};
use whole_files::Standing;

/// How many names are tried, at most.
const MOST: u32 = 100_000;

/// A seat of a board that a port's server had.
#[derive(Clone, Copy, Debug, PartialEq, Eq)]
pub(crate) struct SeatPlace {
    pub(crate) port: u16,
    pub(crate) seat: u16,
}

/// Whether a plane has a write: an edit was drawn there, or heard.
pub(crate) fn has_writes(plane: &Plane) -> bool
    ensures { (stamp : ℕ) × IsGreatestStamp stamp (map_of plane.now) × (result ≡ has_writes stamp) }
{
    plane.greatest_stamp() != 0
}

/// The name of a file for the board of a seat, by its number, from 1 on.
pub(crate) fn rescue_name(
    alloc: Global,
    place: SeatPlace,
    number: u32,
) -> Result<Vec<u8>, AllocError>
    ensures { IfOk result (λ name. name.items ≡ rescue_name place number) }
{
    let mut name = Vec::new(alloc);
    name.extend_from_slice(b"pazgrot-")?;
    push_number(&mut name, u64::from(place.port))?;
    name.push(b'-')?;
    push_number(&mut name, u64::from(place.seat))?;
    name.push(b'-')?;
    push_number(&mut name, u64::from(number))?;
    name.extend_from_slice(b".state")?;
    Ok(name)
}

fn push_number(name: &mut Vec<u8>, number: u64) -> Result<(), AllocError>
    ensures { OnOk result (name.new.items ≡ name.old.items ++ decimal number) }
{
    name.extend_from_slice(Buffer::new().format(number).as_bytes())
}

/// What a name has, beside the bytes of a board.
#[derive(Clone, Copy, Debug, PartialEq, Eq)]
pub(crate) enum Holding {
    /// Nothing: it is free.
    Nothing,
    /// A file with the same bytes.
    Same,
    /// Something else.
    Other,
}

/// What a name has whose file has these bytes, beside those of a board.
fn holding_of(bytes: &[u8], text: &[u8]) -> Holding
    ensures { result ≡ holding_of bytes.now text.now }
{
    if bytes == text {
        Holding::Same
    } else {
        Holding::Other
    }
}

/// Where a board is kept.
#[derive(Debug, Drop)]
pub(crate) enum Kept {
    /// In the file of this name.
    In(FileName),
    /// In none: the one of this name was not written, for this cause.
    Nowhere(FileName, FileCause),
}

/// Writes the bytes of a board to the first name of its seat that is free, unless a file of the same seat
/// before it has the same bytes.
pub(crate) fn keep<R: Files>(
    rt: &R,
    alloc: Global,
    place: SeatPlace,
    text: &[u8],
) -> Result<Kept, AllocError> {
    for number in 1..=MOST {
        let target = target_at(alloc, place, number)?;
        match holding_at(rt, alloc, &target.name, text)? {
            Holding::Same => return Ok(Kept::In(target.name)),
            Holding::Other => {}
            Holding::Nothing => match write_target(rt, alloc, &target, text) {
                Ok(()) => return Ok(Kept::In(target.name)),
                // another client of the folder took the name meanwhile
                Err(FileFault::Refused(FileCause::Exists)) => {}
                Err(FileFault::Refused(cause)) => return Ok(Kept::Nowhere(target.name, cause)),
                Err(FileFault::Memory) => return Err(AllocError),
            },
        }
    }
    let target = target_at(alloc, place, MOST)?;
    Ok(Kept::Nowhere(target.name, FileCause::Exists))
}

/// A file for the board of a seat, which replaces none.
fn target_at(alloc: Global, place: SeatPlace, number: u32) -> Result<FileTarget, AllocError> {
    let name = rescue_name(alloc, place, number)?;
    Ok(FileTarget {
        name: FileName::of(alloc, &name)?,
        replaces: false,
    })
}

/// What a name has, beside the bytes of a board. What is there and cannot be read is something else.
fn holding_at<R: Files>(
    rt: &R,
    alloc: Global,
    name: &FileName,
    text: &[u8],
) -> Result<Holding, AllocError> {
    match read_whole(rt, alloc, name) {
        Ok(bytes) => Ok(holding_of(&bytes, text)),
        Err(FileFault::Refused(_)) if standing_of(rt, name) == Standing::Nothing => {
            Ok(Holding::Nothing)
        }
        Err(FileFault::Refused(_)) => Ok(Holding::Other),
        Err(FileFault::Memory) => Err(AllocError),
    }
}

/// That a board is kept in a file; or that it is in none, and why.
pub(crate) fn kept_text(alloc: Global, kept: &Kept) -> Result<Vec<u8>, AllocError>
    ensures { IfOk result (λ text. text.items ≡ kept_text kept.now) }
{
    match kept {
        Kept::In(name) => in_file_text(alloc, name),
        Kept::Nowhere(name, cause) => nowhere_text(alloc, name, *cause),
    }
}

fn in_file_text(alloc: Global, name: &FileName) -> Result<Vec<u8>, AllocError>
    ensures { IfOk result (λ text. text.items ≡ in_file_text name.now) }
{
    let mut text = Vec::new(alloc);
    text.extend_from_slice(b"the board is kept in ")?;
    text.extend_from_slice(name.as_bytes())?;
    Ok(text)
}

fn nowhere_text(alloc: Global, name: &FileName, cause: FileCause) -> Result<Vec<u8>, AllocError>
    ensures { IfOk result (λ text. text.items ≡ nowhere_text name.now cause) }
{
    let fault = file_fault_text(alloc, RunFault::Write, name.as_bytes(), cause.text())?;
    let mut text = Vec::new(alloc);
    text.extend_from_slice(b"the board is not kept: ")?;
    text.extend_from_slice(&fault)?;
    Ok(text)
}
