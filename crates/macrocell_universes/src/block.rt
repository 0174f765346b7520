//! How far the live cells of a square of level 3 reach that has a bit for each state.

ghost use Rattle.std.specs.Prelude.{◌≡◌, ◌≤◌, ◌+◌, ◌-◌, ◌^◌};
ghost use Rattle.macrocell_lines.specs.Squares.{seen_from, square_of};
ghost use Rattle.macrocell_text.specs.LiveCells.{bits_of};
ghost use Rattle.macrocell_universes.specs.Reaches.{IsReach};

use crate::reach::Reach;
use crate::state::{half_of, state_of_bit};

/// A square of a level among 8 by 8 states, from a column and a row on.
#[derive(Clone, Copy)]
pub(crate) struct Block {
    pub level: u8,
    pub column: u32,
    pub row: u32,
}

impl Block {
    /// All 8 by 8 states.
    pub(crate) const WHOLE: Block = Block {
        level: 3,
        column: 0,
        row: 0,
    };

    /// One of its quarters, so many columns and rows further on.
    fn quarter(self, columns: u32, rows: u32) -> Block
        requires level { 1 ≤ self.level }
        requires columns { self.column + columns ≤ 8 }
        requires rows { self.row + rows ≤ 8 }
        ensures { result ≡ record { level = self.level - 1; column = self.column + columns; row = self.row + rows } }
    {
        Block {
            level: self.level - 1,
            column: self.column + columns,
            row: self.row + rows,
        }
    }
}

/// That of a block of states.
pub(crate) fn block_reach(rows: u64, block: Block) -> Reach
    requires level { block.level ≤ 3 }
    requires column { block.column + 2 ^ block.level ≤ 8 }
    requires row { block.row + 2 ^ block.level ≤ 8 }
    ensures { IsReach block.level (square_of block.level (seen_from block.column block.row (bits_of rows))) result }
{
    if block.level == 0 {
        return Reach::of_cell(state_of_bit(rows, block.column, block.row));
    }
    let half = half_of(block.level);
    let nw = block_reach(rows, block.quarter(0, 0));
    let ne = block_reach(rows, block.quarter(half, 0));
    let sw = block_reach(rows, block.quarter(0, half));
    let se = block_reach(rows, block.quarter(half, half));
    Reach::joined(u64::from(half), nw, ne, sw, se)
}
