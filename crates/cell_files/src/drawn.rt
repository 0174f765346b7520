//! What the tokens of a file draw.

ghost use Rattle.std.specs.Prelude.{◌≡◌, ◌++◌, Bool};
ghost use Rattle.generations_rule.specs.Refusal.{Answers};
ghost use Rattle.multistate_rle.specs.Reading.{parsed};
ghost use Rattle.cell_files.specs.Drawn.{fault_in_file, in_file, place_in_file};

use multistate_rle::{RleFault, parse};
use pattern_cells::Pattern;
use std::alloc::Global;

/// The header of an RLE text in front of a file's tokens: it names no sides.
pub const HEADER: &[u8] = b"x=0,y=0\n";

/// What an RLE text draws of which the tokens of a file of so many bytes stand behind the header, each in its own
/// place in the file; its faults are told by their places there.
pub fn drawn(alloc: Global, length: usize, text: &[u8]) -> Result<Pattern, RleFault>
    ensures { Answers (λ fault. fault ≡ RleFault.Memory) result (in_file length (parsed text.now)) }
{
    match parse(alloc, text) {
        Ok(pattern) => Ok(pattern),
        Err(fault) => Err(fault_in_file(length as u64, fault)),
    }
}

/// A fault of the RLE text as one of the file.
fn fault_in_file(length: u64, fault: RleFault) -> RleFault
    ensures { result ≡ fault_in_file length fault }
{
    match fault {
        RleFault::Tag(place) => RleFault::Tag(place_in_file(length, place)),
        RleFault::Count(place) => RleFault::Count(place_in_file(length, place)),
        RleFault::State(place) => RleFault::State(place_in_file(length, place)),
        RleFault::Header => RleFault::Header,
        RleFault::TooMany => RleFault::TooMany,
        RleFault::Memory => RleFault::Memory,
    }
}

fn place_in_file(length: u64, place: u64) -> u64
    ensures { result ≡ place_in_file length place }
{
    place.saturating_sub(8).min(length)
}
