//! Drawings in their order, with how many cells they have.

ghost use Rattle.std.specs.Prelude.{◌≡◌, ◌<◌, ◌+◌, ◌-◌, ◌^◌, ◌++◌, ◌∷◌, [], length, drop, take, IfNone, IfSome, OnErr, OnOk};
ghost use Rattle.drawing_history.specs.Drawings.{IsLastOf, KeepsNewest, cells_of, cells_of_all};

use crate::drawn::{Drawn, MOST_CELLS, MOST_DRAWINGS, count_of};
use std::alloc::{AllocError, Global};
use std::collections::VecDeque;
use std::marker::Model;

/// Drawings, the last at the end. How many cells they have is kept, so that no question reads them all.
#[derive(Drop)]
pub(crate) struct Stack {
    drawings: VecDeque<Drawn>,
    cells: usize,
}

impl Model for Stack {
    ghost use Rattle.std.specs.Prelude.{◌≡◌, List};
    ghost use Rattle.drawing_history.specs.declared.drawn.Drawn.{Drawn};
    ghost use Rattle.drawing_history.specs.Drawings.{cells_of_all};

    ghost Value = { List Drawn };

    ghost view = { λ s. s.drawings.items };

    ghost invariant = { λ s. s.cells ≡ cells_of_all s.drawings.items };
}

impl Stack {
    pub(crate) fn new(alloc: Global) -> Stack
        ensures { result ≡ [] }
    {
        Stack {
            drawings: VecDeque::new(alloc),
            cells: 0,
        }
    }

    pub(crate) fn len(&self) -> usize
        ensures { result ≡ length self.now }
    {
        let _ = &self.cells;
        self.drawings.len()
    }

    /// How many cells all of them have.
    pub(crate) fn cells(&self) -> usize
        ensures { result ≡ cells_of_all self.now }
    {
        let _ = &self.drawings;
        self.cells
    }

    pub(crate) fn last(&self) -> Option<&Drawn>
        ensures none { IfNone result (self.now ≡ []) }
        ensures some { IfSome result (λ last. IsLastOf self.now last.now) }
    {
        let _ = &self.cells;
        self.drawings.back()
    }

    pub(crate) fn push(&mut self, drawing: Drawn) -> Result<(), AllocError>
        requires { cells_of_all self.old + cells_of drawing < 2 ^ 64 }
        ensures ok { OnOk result (self.new ≡ self.old ++ drawing ∷ []) }
        ensures err { OnErr result (self.new ≡ self.old) }
    {
        let more = count_of(&drawing);
        self.drawings.push_back(drawing)?;
        self.cells += more;
        Ok(())
    }

    /// Takes the last one off, if there is one.
    pub(crate) fn drop_last(&mut self)
        ensures { self.new ≡ take (length self.old - 1) self.old }
    {
        if let Some(last) = self.drawings.pop_back() {
            self.cells -= count_of(&last);
        }
    }

    /// Takes the first one off, if there is one.
    pub(crate) fn drop_first(&mut self)
        ensures { self.new ≡ drop 1 self.old }
    {
        if let Some(first) = self.drawings.pop_front() {
            self.cells -= count_of(&first);
        }
    }

    pub(crate) fn clear(&mut self)
        ensures { self.new ≡ [] }
    {
        self.drawings.clear();
        self.cells = 0;
    }

    /// Takes the oldest ones off, until there are no more than are kept.
    pub(crate) fn drop_oldest(&mut self)
        ensures { KeepsNewest self.old self.new }
    {
        while self.len() > MOST_DRAWINGS || self.cells() > MOST_CELLS {
            self.drop_first();
        }
    }
}
