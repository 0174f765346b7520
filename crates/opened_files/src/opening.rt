//! Texts that are opened.

ghost use Rattle.std.specs.Prelude.{◌≡◌, Ok, false};
ghost use Rattle.cell_files.specs.Formats.{format_of};
ghost use Rattle.delta_exchange.specs.MessageReading.{begins_as_delta};
ghost use Rattle.opened_files.specs.Opening.{IsOpening, OpensBoard, OpensFile, OpensMacrocell, OpensPattern, refused_by, unopened_by};

use crate::macrocells::cells_under;
use crate::pieces::suffice;
use crate::saved::{Saved, saved_in};
use cell_files::{CellFormat, read_cells};
use delta_exchange::{ReadFault, is_delta};
use macrocell_text::{MacrocellFault, read_macrocell};
use multistate_rle::RleFault;
use pattern_cells::Cell;
use replica_core::{Fault, Replica};
use replica_events::EditSpec;
use std::alloc::Global;

/// What a text draws.
#[derive(Debug, Drop)]
pub enum Opening {
    /// The cells of a board that was saved: in edits of at most 2^20 cells, whose counters are above the saved one
    /// too. They suffice for all of these.
    Board(Saved),
    /// The cells of a macrocell that are not dead, sorted by `y`, then `x`, and up to 2^24: in edits of at most 2^20
    /// cells. Counters suffice for all of these, and each cell may be drawn.
    Cells(Vec<Cell>),
    /// What an `or` of a pattern at its own position draws.
    Pattern(EditSpec),
}

/// Why a text draws nothing.
#[derive(Clone, Copy, Debug, PartialEq, Eq)]
pub enum Unopened {
    /// What a replica refuses: the first fault of a text that begins as a state, the first refusal of a macrocell's
    /// cells (23, 10, 11), or `ClockFull` where counters do not suffice for all edits of either.
    Refused(Fault),
    /// It is no pattern, for this first fault.
    NoPattern(RleFault),
    /// It is no macrocell, for this first fault.
    NoMacrocell(MacrocellFault),
    /// Memory was refused.
    Memory,
    /// The map of the text is too large for a plane of 2^26 squares.
    StoreFull,
}

/// What the text of a file draws at a replica: where it begins as a state (`GLWS`) the cells that are not dead of the
/// board that was saved; of a macrocell (`[M2]`) those of its map, which are counted before they are listed; else, of a
/// file of RLE, of MCell's format or of plaintext, its pattern at its own position. Memory is wanted of no RLE text
/// without a header.
pub fn opening_of(alloc: Global, replica: &Replica, text: &[u8]) -> Result<Opening, Unopened>
    ensures { IsOpening replica.now text.now result }
{
    match is_delta(text) {
        Ok(false) => board_opening(alloc, replica, text),
        Ok(true) => file_opening(alloc, replica, text),
        Err(_) => file_opening(alloc, replica, text),
    }
}

fn file_opening(alloc: Global, replica: &Replica, text: &[u8]) -> Result<Opening, Unopened>
    ensures { OpensFile (format_of text.now) replica.now text.now result }
{
    match CellFormat::of(text) {
        CellFormat::Macrocell => macrocell_opening(alloc, replica, text),
        CellFormat::MCell
        | CellFormat::Plaintext
        | CellFormat::Rle
        | CellFormat::State
        | CellFormat::Document => pattern_opening(alloc, text),
    }
}

fn board_opening(alloc: Global, replica: &Replica, text: &[u8]) -> Result<Opening, Unopened>
    requires { begins_as_delta text.now ≡ Ok false }
    ensures { OpensBoard replica.now text.now result }
{
    match saved_in(alloc, &replica.rule(), replica.plane().key(), text) {
        Ok(saved) => {
            if suffice(replica.plane(), saved.counter, &saved.cells) {
                Ok(Opening::Board(saved))
            } else {
                Err(Unopened::Refused(Fault::ClockFull))
            }
        }
        Err(fault) => Err(unopened_by(fault)),
    }
}

/// Why a text that is not read draws nothing.
fn unopened_by(fault: ReadFault) -> Unopened
    ensures { result ≡ unopened_by fault }
{
    match fault {
        ReadFault::Memory => Unopened::Memory,
        ReadFault::StoreFull => Unopened::StoreFull,
        fault => Unopened::Refused(Fault::Read(fault)),
    }
}

fn pattern_opening(alloc: Global, text: &[u8]) -> Result<Opening, Unopened>
    ensures { OpensPattern text.now result }
{
    match read_cells(alloc, text) {
        Ok(pattern) => {
            let (x, y) = pattern.pos();
            Ok(Opening::Pattern(EditSpec::Or(pattern, x, y)))
        }
        Err(RleFault::Memory) => Err(Unopened::Memory),
        Err(fault) => Err(Unopened::NoPattern(fault)),
    }
}

fn macrocell_opening(alloc: Global, replica: &Replica, text: &[u8]) -> Result<Opening, Unopened>
    ensures { OpensMacrocell replica.now text.now result }
{
    let macrocell = match read_macrocell(alloc, text) {
        Ok(macrocell) => macrocell,
        Err(MacrocellFault::Memory) => return Err(Unopened::Memory),
        Err(fault) => return Err(Unopened::NoMacrocell(fault)),
    };
    match cells_under(alloc, &replica.rule(), &macrocell) {
        Ok(cells) => {
            if suffice(replica.plane(), 0, &cells) {
                Ok(Opening::Cells(cells))
            } else {
                Err(Unopened::Refused(Fault::ClockFull))
            }
        }
        Err(fault) => Err(refused_by(fault)),
    }
}

/// Why a macrocell draws nothing whose cells may not be drawn.
fn refused_by(fault: Fault) -> Unopened
    ensures { result ≡ refused_by fault }
{
    match fault {
        Fault::Memory => Unopened::Memory,
        fault => Unopened::Refused(fault),
    }
}
