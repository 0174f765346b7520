//! Cells that are drawn in as many edits as they need.

ghost use Rattle.client_tasks.specs.Opening.{DrawsAll, DrawsPart, DrawsSome};

use client_session::{Client, CommandFault, Outcome};
use devices::{Sink, Source};
use drawing_history::Way;
use edit_stamps::MOST_CELLS;
use opened_files::spec_of;
use pattern_cells::Cell;
use replica_events::EditSpec;
use std::time::Clock;

/// What cells are a part of.
#[derive(Clone, Copy, Debug, PartialEq, Eq)]
pub(crate) enum Part {
    /// A drawing, each edit behind a poll of its own, with a counter above a given one too, 0 where none is.
    Drawing(u64),
    /// What takes something back, at what the client's replica holds: no poll is said.
    Back(Way),
}

/// Draws cells in edits of as many as one may have, the first behind a poll that waits, where one does. Behind
/// an edit that is refused, or may be, no more is drawn.
pub(crate) fn draw_all<C: Clock, S: Source + Drop, K: Sink + Drop>(
    client: &mut Client<'_, C, S, K>,
    part: Part,
    cells: &[Cell],
) -> Result<Outcome, CommandFault>
    ensures { DrawsAll part cells.now client.old client.new result }
{
    let mut rest = cells;
    while rest.len() > MOST_CELLS {
        let (some, more) = rest.split_at(MOST_CELLS);
        match draw_some(client, part, some) {
            Ok(Outcome::Drawn) => rest = more,
            Ok(Outcome::Refused) => return Ok(Outcome::Refused),
            Ok(Outcome::InDoubt) => return Ok(Outcome::InDoubt),
            Err(fault) => return Err(fault),
        }
    }
    draw_some(client, part, rest)
}

/// Draws some cells in one edit.
fn draw_some<C: Clock, S: Source + Drop, K: Sink + Drop>(
    client: &mut Client<'_, C, S, K>,
    part: Part,
    cells: &[Cell],
) -> Result<Outcome, CommandFault>
    ensures { DrawsSome part cells.now client.old client.new result }
{
    match spec_of(client.alloc(), cells) {
        Ok(spec) => draw_part(client, part, &spec),
        Err(_) => Err(CommandFault::Memory),
    }
}

/// Draws an edit.
fn draw_part<C: Clock, S: Source + Drop, K: Sink + Drop>(
    client: &mut Client<'_, C, S, K>,
    part: Part,
    spec: &EditSpec,
) -> Result<Outcome, CommandFault>
    ensures { DrawsPart part spec.now client.old client.new result }
{
    match part {
        Part::Drawing(after) => client.draw(after, spec),
        Part::Back(way) => client.draw_back(way, spec),
    }
}
