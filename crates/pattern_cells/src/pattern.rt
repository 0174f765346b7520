//! A pattern as it was read.

ghost use Rattle.std.specs.Prelude.{◌≡◌, IfOk};

use std::alloc::AllocError;
use std::marker::Model;

/// A nonzero cell of a pattern: its column and row in the pattern's box, from 0, and its state.
/// Rows are counted downwards.
#[derive(Clone, Copy, Debug, PartialEq, Eq)]
pub struct PatternCell {
    pub column: u32,
    pub row: u32,
    pub state: u8,
}

/// What an RLE text says: a box with nonzero cells in it, where the pattern was in its plane, and at
/// which generation.
#[derive(Debug, Drop)]
pub struct Pattern {
    width: u64,
    height: u64,
    pos: (i32, i32),
    generation: u64,
    cells: Vec<PatternCell>,
}

impl Model for Pattern {
    ghost use Rattle.pattern_cells.specs.Pattern.{RlePattern, IsPattern};

    ghost Value = { RlePattern };

    ghost view = { λ p. record { width = p.width; height = p.height; pos = p.pos; generation = p.generation; cells = p.cells.items } };

    ghost invariant = { λ p. IsPattern (record { width = p.width; height = p.height; pos = p.pos; generation = p.generation; cells = p.cells.items }) };
}

impl Pattern {
    ghost use Rattle.pattern_cells.specs.Pattern.{RlePattern, IsPattern};

    /// The pattern of these cells: sorted by row, then column, each place once, none in state 0, at
    /// most 2^20, all in a box with sides of at most 2^32.
    pub fn new(
        width: u64,
        height: u64,
        pos: (i32, i32),
        generation: u64,
        cells: Vec<PatternCell>,
    ) -> Pattern
        requires { IsPattern (record { width = width; height = height; pos = pos; generation = generation; cells = cells.items }) }
        ensures { result ≡ record { width = width; height = height; pos = pos; generation = generation; cells = cells.items } }
    {
        Pattern {
            width,
            height,
            pos,
            generation,
            cells,
        }
    }

    /// Columns of the box, at most 2^32.
    pub fn width(&self) -> u64
        ensures { result ≡ self.now.width }
    {
        self.width
    }

    /// Rows of the box, at most 2^32.
    pub fn height(&self) -> u64
        ensures { result ≡ self.now.height }
    {
        self.height
    }

    /// Where the box's upper left corner was in its plane; (0, 0) where the text does not say.
    pub fn pos(&self) -> (i32, i32)
        ensures { result ≡ self.now.pos }
    {
        self.pos
    }

    /// The generation at which the pattern was written; 0 where the text does not say.
    pub fn generation(&self) -> u64
        ensures { result ≡ self.now.generation }
    {
        self.generation
    }

    /// The nonzero cells, by row, then column: at most 2^20, each in the box.
    pub fn cells(&self) -> &[PatternCell]
        ensures value { result.now ≡ self.now.cells }
        ensures pattern { IsPattern self.now }
    {
        &self.cells
    }

    /// The same pattern once more.
    pub fn copy(&self) -> Result<Pattern, AllocError>
        ensures { IfOk result (λ copy. copy ≡ self.now) }
    {
        let cells = self.cells.clone()?;
        Ok(Pattern {
            width: self.width,
            height: self.height,
            pos: self.pos,
            generation: self.generation,
            cells,
        })
    }
}
