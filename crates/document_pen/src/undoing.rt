//! Drawings that are taken back.

ghost use Rattle.std.specs.Prelude.{◌≡◌, ◌++◌, OnErr, OnOk, codes};
ghost use mathlib.Core.List.{IsPrefix};
ghost use Rattle.document_pen.specs.Undoing.{DrawsBack, IsEndOf, IsTakenBack};

use crate::fault::PenFault;
use crate::pen::{Outcome, Pen};
use drawing_history::{Found, Way};
use kept_devices::Keep;
use pattern_cells::Cell;
use std::alloc::AllocError;

impl<K: Keep> Pen<K> {
    /// Takes the last drawing back that was not taken back yet, or what was taken back last: each cell whose
    /// write is still its own shows again what it showed before, by edits of at most 2^20 cells, of each of
    /// which `undone C R`, or `redone C R`, is printed. Where nothing can be, or too much, that is printed.
    pub fn take_back(&mut self, way: Way) -> Result<Outcome, PenFault>
        ensures { IsTakenBack way self.old self.new result }
    {
        match self
            .making
            .history()
            .found(self.alloc, way, self.replica.plane())
        {
            Ok(Found::Cells(cells)) => self.draw_back(way, &cells),
            Ok(Found::Nothing) => self.end_back(way, way.nothing()),
            Ok(Found::TooMuch) => self.end_back(way, way.too_much()),
            Err(_) => Err(PenFault::Memory),
        }
    }

    /// Draws cells that take something back.
    fn draw_back(&mut self, way: Way, cells: &[Cell]) -> Result<Outcome, PenFault>
        ensures { DrawsBack way cells.now self.old self.new result }
    {
        self.way = Some(way);
        let outcome = self.draw_all(0, cells);
        self.way = None;
        self.making.end_back(way);
        outcome
    }

    /// Prints why nothing is taken back, and drops the drawing of which this is so.
    fn end_back(&mut self, way: Way, line: &str) -> Result<Outcome, PenFault>
        ensures { IsEndOf way (line.now ++ codes "\n") self.old self.new result }
    {
        let before = self.out.len();
        match push_line(&mut self.out, line) {
            Ok(()) => {
                self.making.drop_last(way);
                Ok(Outcome::Refused)
            }
            Err(_) => {
                self.out.truncate(before);
                Err(PenFault::Memory)
            }
        }
    }
}

/// Puts a line behind a text.
fn push_line(out: &mut Vec<u8>, line: &str) -> Result<(), AllocError>
    ensures told { OnOk result (out.new.items ≡ out.old.items ++ (line.now ++ codes "\n")) }
    ensures kept { OnErr result (IsPrefix out.old.items out.new.items) }
{
    out.extend_from_slice(line.as_bytes())?;
    out.push(b'\n')?;
    Ok(())
}
