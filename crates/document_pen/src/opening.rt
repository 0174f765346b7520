//! Files that are opened.

ghost use Rattle.std.specs.Prelude.{◌≡◌, ◌++◌, codes};
ghost use Rattle.genedit_lib.specs.Output.{refused_text};
ghost use Rattle.multistate_rle.specs.RleFault.{text_fault_number, text_fault_text};
ghost use Rattle.document_pen.specs.declared.pen.Outcome.TheVariants.{Refused};
ghost use Rattle.document_pen.specs.Drawing.{DrawsAndEnds};
ghost use Rattle.document_pen.specs.Opening.{DrawsAll, DrawsSome, IsOpened};
ghost use Rattle.document_pen.specs.Pen.{IsPrinted};
ghost use Rattle.opened_files.specs.Macrocells.{macrocell_refusal};

use crate::fault::PenFault;
use crate::pen::{Outcome, Pen};
use edit_stamps::MOST_CELLS;
use genedit_lib::{push_text, text_refusal};
use kept_devices::Keep;
use macrocell_text::MacrocellFault;
use multistate_rle::RleFault;
use opened_files::{Opening, Unopened, macrocell_refusal, opening_of, spec_of};
use pattern_cells::Cell;

impl<K: Keep> Pen<K> {
    /// Draws what a text holds: the cells that are not dead of a board that was saved, in edits of at most
    /// 2^20 cells, each kept in the file before the next, with counters above those of the text too, as one
    /// drawing; of a macrocell those of its map, in such edits; else the pattern of a file of RLE, of MCell's format or of plaintext, at its own position.
    /// What is refused of the text is printed; behind an edit that is refused no more is drawn.
    pub fn open(&mut self, text: &[u8]) -> Result<Outcome, PenFault>
        ensures { IsOpened text.now self.old self.new result }
    {
        match opening_of(self.alloc, &self.replica, text) {
            Ok(Opening::Board(saved)) => self.draw_board(saved.counter, &saved.cells),
            Ok(Opening::Cells(cells)) => self.draw_board(0, &cells),
            Ok(Opening::Pattern(spec)) => self.draw(0, &spec),
            Err(Unopened::Refused(fault)) => self.refuse(fault),
            Err(Unopened::NoPattern(fault)) => self.refuse_text(fault),
            Err(Unopened::NoMacrocell(fault)) => self.refuse_macrocell(fault),
            Err(Unopened::Memory) => Err(PenFault::Memory),
            Err(Unopened::StoreFull) => Err(PenFault::StoreFull),
        }
    }

    /// Draws the cells of a board or of a macrocell, as one drawing.
    fn draw_board(&mut self, after: u64, cells: &[Cell]) -> Result<Outcome, PenFault>
        ensures { DrawsAndEnds (DrawsAll after cells.now) self.old self.new result }
    {
        let outcome = self.draw_all(after, cells);
        self.making.end();
        outcome
    }

    /// Draws cells in edits of as many as one may have, with counters above a given one too.
    pub(crate) fn draw_all(&mut self, after: u64, cells: &[Cell]) -> Result<Outcome, PenFault>
        ensures { DrawsAll after cells.now self.old self.new result }
    {
        let mut rest = cells;
        while rest.len() > MOST_CELLS {
            let (some, more) = rest.split_at(MOST_CELLS);
            match self.draw_some(after, some) {
                Ok(Outcome::Drawn) => rest = more,
                Ok(Outcome::Refused) => return Ok(Outcome::Refused),
                Err(fault) => return Err(fault),
            }
        }
        self.draw_some(after, rest)
    }

    /// Draws some cells in one edit.
    fn draw_some(&mut self, after: u64, cells: &[Cell]) -> Result<Outcome, PenFault>
        ensures { DrawsSome after cells.now self.old self.new result }
    {
        match spec_of(self.alloc, cells) {
            Ok(spec) => self.draw_stroke(after, &spec),
            Err(_) => Err(PenFault::Memory),
        }
    }

    /// Prints the refusal of a text that is no pattern.
    fn refuse_text(&mut self, fault: RleFault) -> Result<Outcome, PenFault>
        ensures { IsPrinted Refused (refused_text (text_fault_number fault) (text_fault_text fault) ++ codes "\n") self.old self.new result }
    {
        let before = self.out.len();
        let told = text_refusal(self.alloc, fault)?;
        match push_text(&mut self.out, &told) {
            Ok(()) => Ok(Outcome::Refused),
            Err(_) => {
                self.out.truncate(before);
                Err(PenFault::Memory)
            }
        }
    }

    /// Prints the refusal of a text that is no macrocell.
    fn refuse_macrocell(&mut self, fault: MacrocellFault) -> Result<Outcome, PenFault>
        ensures { IsPrinted Refused (macrocell_refusal fault) self.old self.new result }
    {
        let before = self.out.len();
        let line = macrocell_refusal(self.alloc, fault)?;
        match self.out.extend_from_slice(&line) {
            Ok(()) => Ok(Outcome::Refused),
            Err(_) => {
                self.out.truncate(before);
                Err(PenFault::Memory)
            }
        }
    }
}
