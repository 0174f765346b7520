//! Blocks of at most 8 by 8 states.

ghost use Rattle.std.specs.Prelude.{◌≡◌, ◌+◌, ◌-◌, ◌^◌, ◌≤◌, IfOk, length};
ghost use Rattle.bitplane_kernel.specs.Square.{state_at};
ghost use Rattle.macrocell_lines.specs.Squares.{seen_from, square_of};
ghost use Rattle.macrocell_lines.specs.Listing.{IsWalkedAnyhow};

use crate::line::Line;
use crate::lines::Lines;
use std::alloc::AllocError;

/// A square of a level among 8 by 8 states, from a column and a row on.
#[derive(Clone, Copy)]
pub(crate) struct Block {
    pub level: u32,
    pub column: usize,
    pub row: usize,
}

impl Block {
    /// One of its quarters, so many columns and rows further on.
    fn quarter(self, column: usize, row: usize) -> Block
        requires level { 1 ≤ self.level }
        requires column { self.column + column ≤ 8 }
        requires row { self.row + row ≤ 8 }
        ensures level { result.level + 1 ≡ self.level }
        ensures column { result.column ≡ self.column + column }
        ensures row { result.row ≡ self.row + row }
    {
        Block {
            level: self.level - 1,
            column: self.column + column,
            row: self.row + row,
        }
    }
}

impl Lines {
    /// What stands for a block of states, whose squares are put where they are new, down to level 1.
    pub(crate) fn number_of_block(
        &mut self,
        states: &[u8; 64],
        block: Block,
    ) -> Result<usize, AllocError>
        requires level { block.level ≤ 3 }
        requires column { block.column + 2 ^ block.level ≤ 8 }
        requires row { block.row + 2 ^ block.level ≤ 8 }
        ensures { IfOk result (IsWalkedAnyhow self.old self.new (square_of block.level (seen_from block.column block.row (state_at 8 states.now)))) }
    {
        if block.level == 0 {
            return Ok(usize::from(states[8 * block.row + block.column]));
        }
        let half = half_of(block.level);
        let nw = self.number_of_block(states, block.quarter(0, 0))?;
        let ne = self.number_of_block(states, block.quarter(half, 0))?;
        let sw = self.number_of_block(states, block.quarter(0, half))?;
        let se = self.number_of_block(states, block.quarter(half, half))?;
        self.put(Line::Four {
            level: block.level,
            nw,
            ne,
            sw,
            se,
        })
    }
}

/// Half the side of a square of a level.
pub(crate) fn half_of(level: u32) -> usize
    requires above { 1 ≤ level }
    requires most { level ≤ 3 }
    ensures half { result ≡ 2 ^ (level - 1) }
    ensures double { result + result ≡ 2 ^ level }
    ensures most { result ≤ 4 }
{
    match level {
        1 => 1,
        2 => 2,
        _ => 4,
    }
}
