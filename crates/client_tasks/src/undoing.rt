//! Drawings that are taken back.

ghost use Rattle.std.specs.Prelude.{◌≡◌, ◌++◌, IfOk, codes};
ghost use Rattle.client_tasks.specs.Undoing.{DrawsCellsBack, IsEndOf, IsTakenBack, TakesBackFound};

use crate::pieces::{Part, draw_all};
use client_session::{Client, CommandFault, Outcome};
use devices::{Sink, Source};
use drawing_history::{Found, Way};
use pattern_cells::Cell;
use std::alloc::{AllocError, Global};
use std::time::Clock;

/// Takes the last drawing back that was not taken back yet, or what was taken back last: behind a poll, as an
/// export, each cell whose write is still its own shows again what it showed before, by edits of at most 2^20
/// cells, of each of which `undone C R`, or `redone C R`, is printed. Where nothing can be, or too much, that
/// is printed, and the drawing before it is the last then.
pub(crate) fn taken_back<C: Clock, S: Source + Drop, K: Sink + Drop>(
    client: &mut Client<'_, C, S, K>,
    way: Way,
) -> Result<Outcome, CommandFault>
    ensures { IsTakenBack way client.old client.new result }
{
    match client.find_back(way) {
        Ok(Some(found)) => take_found(client, way, found),
        Ok(None) => Ok(Outcome::Refused),
        Err(fault) => Err(fault),
    }
}

/// Takes back what was found.
fn take_found<C: Clock, S: Source + Drop, K: Sink + Drop>(
    client: &mut Client<'_, C, S, K>,
    way: Way,
    found: Found,
) -> Result<Outcome, CommandFault>
    ensures { TakesBackFound way found client.old client.new result }
{
    match found {
        Found::Cells(cells) => draw_cells_back(client, way, &cells),
        Found::Nothing => end_by_line(client, way, way.nothing()),
        Found::TooMuch => end_by_line(client, way, way.too_much()),
    }
}

/// Draws cells that take something back.
fn draw_cells_back<C: Clock, S: Source + Drop, K: Sink + Drop>(
    client: &mut Client<'_, C, S, K>,
    way: Way,
    cells: &[Cell],
) -> Result<Outcome, CommandFault>
    ensures { DrawsCellsBack way cells.now client.old client.new result }
{
    let outcome = draw_all(client, Part::Back(way), cells);
    client.end_back(way);
    outcome
}

/// Prints why nothing is taken back, and drops the drawing of which this is so.
fn end_by_line<C: Clock, S: Source + Drop, K: Sink + Drop>(
    client: &mut Client<'_, C, S, K>,
    way: Way,
    text: &str,
) -> Result<Outcome, CommandFault>
    ensures { IsEndOf way (text.now ++ codes "\n") client.old client.new result }
{
    let line = line_of(client.alloc(), text)?;
    client.print(&line)?;
    client.drop_last(way);
    Ok(Outcome::Refused)
}

/// A text as a line.
fn line_of(alloc: Global, text: &str) -> Result<Vec<u8>, AllocError>
    ensures { IfOk result (λ line. line.items ≡ text.now ++ codes "\n") }
{
    let mut line = Vec::new(alloc);
    line.extend_from_slice(text.as_bytes())?;
    line.push(b'\n')?;
    Ok(line)
}
