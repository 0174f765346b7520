//! Files that are opened.

ghost use Rattle.std.specs.Prelude.{◌≡◌};
ghost use Rattle.client_tasks.specs.Opening.{IsOpened};

use crate::refusing::{refuse, refuse_macrocell, refuse_text};
use crate::whole::{draw_board, draw_whole};
use client_session::{Client, CommandFault, Outcome};
use devices::{Sink, Source};
use opened_files::{Opening, Unopened, opening_of};
use std::time::Clock;

/// Draws what a text holds: where it begins as a state the cells that are not dead of the board that was
/// saved, in edits of at most 2^20 cells whose counters are above those of the text too; of a macrocell those
/// of its map, in such edits; else, of a file of RLE, of MCell's format or of plaintext, what an `or` of its pattern at its own position draws. What is
/// refused of the text is printed, and nothing said on the line; so it is of a full clock, where counters do
/// not suffice for all edits of either. Behind an edit that is refused, or may be, no more is drawn. It is one
/// drawing, which can be taken back as one.
pub fn open<C: Clock, S: Source + Drop, K: Sink + Drop>(
    client: &mut Client<'_, C, S, K>,
    text: &[u8],
) -> Result<Outcome, CommandFault>
    ensures { IsOpened text.now client.old client.new result }
{
    match opening_of(client.alloc(), client.replica(), text) {
        Ok(Opening::Board(saved)) => draw_board(client, saved.counter, &saved.cells),
        Ok(Opening::Cells(cells)) => draw_board(client, 0, &cells),
        Ok(Opening::Pattern(spec)) => draw_whole(client, &spec),
        Err(Unopened::Refused(fault)) => refuse(client, fault),
        Err(Unopened::NoPattern(fault)) => refuse_text(client, fault),
        Err(Unopened::NoMacrocell(fault)) => refuse_macrocell(client, fault),
        Err(Unopened::Memory) => Err(CommandFault::Memory),
        Err(Unopened::StoreFull) => Err(CommandFault::StoreFull),
    }
}
