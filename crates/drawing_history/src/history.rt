//! What one drew, and what one took back.

ghost use Rattle.std.specs.Prelude.{◌≡◌, ◌≤◌, ◌+◌, OnErr, OnOk};
ghost use Rattle.drawing_history.specs.Drawings.{MovesLast, cells_of_all, most_cells};

use crate::back::cells_back;
use crate::drawn::{Drawn, MOST_CELLS, count_of, kept_within};
use crate::found::Found;
use crate::stack::Stack;
use crate::stroke::Stroke;
use crate::way::Way;
use stamped_tree::Plane;
use std::alloc::{AllocError, Global};
use std::marker::Model;

/// The drawings of one who draws, the last at the end, and those that were taken back, the last taken back at
/// the end. Both together are at most `MOST_DRAWINGS`, with at most `MOST_CELLS` cells.
#[derive(Drop)]
pub struct History {
    drawn: Stack,
    undone: Stack,
}

impl Model for History {
    ghost use Rattle.std.specs.Prelude.{◌++◌};
    ghost use Rattle.drawing_history.specs.Drawings.{HistoryState, IsWithinLimits};

    ghost Value = { HistoryState };

    ghost view = { λ h. record { drawn = h.drawn; undone = h.undone } };

    ghost invariant = { λ h. IsWithinLimits (h.drawn ++ h.undone) };
}

impl History {
    ghost use Rattle.std.specs.Prelude.{◌≡◌, ◌⊎◌, ◌++◌, [], IfErr, IfNone, IfOk, IfSome, OnErr, OnOk};
    ghost use Rattle.stamped_tree.specs.Plane.{map_of};
    ghost use Rattle.drawing_history.specs.Drawings.{IsLastOf, IsWithinLimits, Notes, forgotten};
    ghost use Rattle.drawing_history.specs.Findings.{HasStrokes, IsFound};
    ghost use Rattle.drawing_history.specs.Ways.{DropsLast, TakesBack, stack_of};

    /// Nothing was drawn, and nothing was taken back.
    pub fn new(alloc: Global) -> History
        ensures { result ≡ forgotten }
    {
        History {
            drawn: Stack::new(alloc),
            undone: Stack::new(alloc),
        }
    }

    /// The last drawing that can be taken back this way; what was taken back last is told as the strokes of
    /// what took it back.
    pub fn last(&self, way: Way) -> Option<&Drawn>
        ensures none { IfNone result (stack_of way self.now ≡ []) }
        ensures some { IfSome result (λ last. IsLastOf (stack_of way self.now) last.now) }
    {
        self.stack(way).last()
    }

    /// What is to be drawn on a plane so that the last of what can be is taken back. The only error is want of
    /// memory, for the cells of a drawing whose strokes are kept.
    pub fn found(&self, alloc: Global, way: Way, plane: &Plane) -> Result<Found, AllocError>
        ensures found { IfOk result (IsFound way self.now (map_of plane.now)) }
        ensures want { IfErr result (λ _. HasStrokes way self.now) }
    {
        match self.last(way) {
            None => Ok(Found::Nothing),
            Some(Drawn::TooMuch) => Ok(Found::TooMuch),
            Some(Drawn::Strokes(strokes)) => {
                let cells = cells_back(alloc, plane, strokes)?;
                if cells.is_empty() {
                    return Ok(Found::Nothing);
                }
                Ok(Found::Cells(cells))
            }
        }
    }

    /// Notes a drawing by its strokes: it is the last one then, and what was taken back before can no longer
    /// be drawn again. Of more than `MOST_CELLS` cells nothing is kept. The oldest drawings are dropped, as
    /// few as can be. Where memory is refused, all is forgotten.
    pub fn note(&mut self, strokes: Vec<Stroke>)
        ensures { Notes strokes self.old self.new ⊎ (self.new ≡ forgotten) }
    {
        match self.try_note(strokes) {
            Ok(()) => {}
            Err(AllocError) => self.forget(),
        }
    }

    /// Notes that the last drawing of a way was taken back, by the strokes of what took it back: they come
    /// last of what can be taken back the other way. Where there is no such drawing, nothing changes. Where
    /// memory is refused, all is forgotten.
    pub fn take_back(&mut self, way: Way, strokes: Vec<Stroke>)
        ensures { TakesBack way strokes self.old self.new ⊎ (self.new ≡ forgotten) }
    {
        match self.try_take_back(way, strokes) {
            Ok(()) => {}
            Err(AllocError) => self.forget(),
        }
    }

    /// Drops the last drawing that can be taken back this way, if there is one: after one of which too much
    /// was to be kept, the one before can be taken back.
    pub fn drop_last(&mut self, way: Way)
        ensures { DropsLast way self.old self.new }
    {
        match way {
            Way::Undo => self.drawn.drop_last(),
            Way::Redo => self.undone.drop_last(),
        }
    }

    /// Forgets all that was drawn and all that was taken back.
    pub fn forget(&mut self)
        ensures { self.new ≡ forgotten }
    {
        let History { drawn, undone } = self;
        drawn.clear();
        undone.clear();
    }

    /// What holds of every history: at most `MOST_DRAWINGS` are drawn or undone, with at most `MOST_CELLS`
    /// cells together.
    pub fn keeps_limits(&self)
        ensures { IsWithinLimits (self.now.drawn ++ self.now.undone) }
    {
        let _ = &self.drawn;
        let _ = &self.undone;
    }

    /// The drawings that can be taken back this way.
    fn stack(&self, way: Way) -> &Stack
        ensures { result.now ≡ stack_of way self.now }
    {
        match way {
            Way::Undo => &self.drawn,
            Way::Redo => &self.undone,
        }
    }

    /// Notes a drawing. Where memory is refused, nothing changes.
    fn try_note(&mut self, strokes: Vec<Stroke>) -> Result<(), AllocError>
        ensures ok { OnOk result (Notes strokes self.old self.new) }
        ensures err { OnErr result (self.new ≡ self.old) }
    {
        self.drawn.push(kept_within(MOST_CELLS, strokes))?;
        self.drawn.drop_oldest();
        self.undone.clear();
        Ok(())
    }

    /// Notes that the last drawing of a way was taken back. Where memory is refused, nothing changes.
    fn try_take_back(&mut self, way: Way, strokes: Vec<Stroke>) -> Result<(), AllocError>
        ensures ok { OnOk result (TakesBack way strokes self.old self.new) }
        ensures err { OnErr result (self.new ≡ self.old) }
    {
        match way {
            Way::Undo => move_last(&mut self.drawn, &mut self.undone, strokes),
            Way::Redo => move_last(&mut self.undone, &mut self.drawn, strokes),
        }
    }
}

/// Takes the last drawing off one stack, if there is one, and puts these strokes last on another.
fn move_last(from: &mut Stack, to: &mut Stack, strokes: Vec<Stroke>) -> Result<(), AllocError>
    requires { cells_of_all from.old + cells_of_all to.old ≤ most_cells }
    ensures ok { OnOk result (MovesLast strokes from.old from.new to.old to.new) }
    ensures from { OnErr result (from.new ≡ from.old) }
    ensures to { OnErr result (to.new ≡ to.old) }
{
    let Some(last) = from.last() else {
        return Ok(());
    };
    let others = from.cells() - count_of(last) + to.cells();
    to.push(kept_within(MOST_CELLS - others, strokes))?;
    from.drop_last();
    Ok(())
}
