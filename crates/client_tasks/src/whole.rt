//! Drawings that are ended, so that each can be taken back as one.

ghost use Rattle.std.specs.Prelude.{◌≡◌};
ghost use Rattle.client_session.specs.Drawing.{DrawsAndEnds, IsDrawCommand, IsPaste};
ghost use Rattle.client_tasks.specs.Opening.{DrawsAll};
ghost use Rattle.client_tasks.specs.declared.pieces.Part.TheVariants.{Drawing};

use crate::pieces::{Part, draw_all};
use client_commands::Placement;
use client_session::{Client, CommandFault, Corner, Outcome, PasteMode};
use devices::{Sink, Source};
use pattern_cells::Cell;
use replica_events::EditSpec;
use std::time::Clock;

/// Draws an edit as a drawing of its own.
pub(crate) fn draw_whole<C: Clock, S: Source + Drop, K: Sink + Drop>(
    client: &mut Client<'_, C, S, K>,
    spec: &EditSpec,
) -> Result<Outcome, CommandFault>
    ensures { DrawsAndEnds (IsDrawCommand 0 spec.now) client.old client.new result }
{
    let outcome = client.draw(0, spec);
    client.end_drawing();
    outcome
}

/// Pastes a pattern as a drawing of its own.
pub(crate) fn paste_whole<C: Clock, S: Source + Drop, K: Sink + Drop>(
    client: &mut Client<'_, C, S, K>,
    mode: PasteMode,
    placed: &Placement,
) -> Result<Outcome, CommandFault>
    ensures { DrawsAndEnds (IsPaste mode placed.now.name (record { x = placed.now.x; y = placed.now.y })) client.old client.new result }
{
    let outcome = client.paste(mode, &placed.name, corner_of(placed));
    client.end_drawing();
    outcome
}

fn corner_of(placed: &Placement) -> Corner
    ensures { result ≡ record { x = placed.now.x; y = placed.now.y } }
{
    Corner {
        x: placed.x,
        y: placed.y,
    }
}

/// Draws the cells of a board, with counters above a given one too, as one drawing.
pub(crate) fn draw_board<C: Clock, S: Source + Drop, K: Sink + Drop>(
    client: &mut Client<'_, C, S, K>,
    after: u64,
    cells: &[Cell],
) -> Result<Outcome, CommandFault>
    ensures { DrawsAndEnds (DrawsAll (Drawing after) cells.now) client.old client.new result }
{
    let outcome = draw_all(client, Part::Drawing(after), cells);
    client.end_drawing();
    outcome
}
