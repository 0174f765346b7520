//! The lines of squares, each once, and their numbers.

ghost use Rattle.std.specs.Prelude.{◌≡◌, [], IfOk, OnOk, None};
ghost use Rattle.indexmap.specs.IndexMap.{get};
ghost use Rattle.macrocell_lines.specs.declared.lines.Pair.{Pair as AnyPair};
ghost use Rattle.macrocell_lines.specs.Listing.{is_pair, line_number, lines_with};

use crate::line::Line;
use indexmap::{IndexMap, IndexSet};
use keyed_hash::HashKey;
use square_store::Part;
use std::alloc::{AllocError, Global};

/// A square one row on, of a level above a leaf: a square of a store and the one below it.
#[derive(Clone, Copy, PartialEq, Eq, Hash)]
pub(crate) struct Pair {
    pub level: u32,
    pub upper: Part,
    pub lower: Part,
}

/// Lines, each once, in the order in which they were put, and the numbers of pairs that were walked over.
pub(crate) struct Lines {
    pub lines: IndexSet<Line, HashKey>,
    pub numbers: IndexMap<Pair, usize, HashKey>,
}

/// By hand, so that a caller's proof sees one step where they are dropped.
impl Drop for Lines {
    fn drop(self) {
        let Lines {
            lines: _,
            numbers: _,
        } = self;
    }
}

impl Lines {
    /// None.
    pub(crate) fn new(alloc: Global, key: HashKey) -> Lines
        ensures lines { result.lines.keys ≡ [] }
        ensures numbers { (pair : AnyPair) → get is_pair result.numbers pair ≡ None }
    {
        Lines {
            lines: IndexSet::with_hasher(alloc, key),
            numbers: IndexMap::with_hasher(alloc, key),
        }
    }

    /// What stands for the square of a line: 0 where all states are 0, and else the line's number, from 1. A
    /// new line goes last.
    pub(crate) fn put(&mut self, line: Line) -> Result<usize, AllocError>
        ensures number { IfOk result (λ n. n ≡ line_number self.old.lines.keys line) }
        ensures lines { OnOk result (self.new.lines.keys ≡ lines_with self.old.lines.keys line) }
        ensures numbers { OnOk result (self.new.numbers ≡ self.old.numbers) }
    {
        if line.is_dead() {
            return Ok(0);
        }
        let Ok((index, _)) = self.lines.insert_full(line) else {
            return Err(AllocError);
        };
        // For the proof alone: it tells that there are no more than can be counted.
        let _count = self.lines.len();
        Ok(index + 1)
    }
}
