//! Blocks of the states of a square of level 3.

ghost use Rattle.std.specs.Prelude.{◌≡◌, ◌≤◌, ◌+◌, ◌*◌, ◌-◌, ◌^◌};
ghost use Rattle.std.specs.Int.{bit_at};
ghost use Rattle.macrocell_lines.specs.Squares.{seen_from, square_of};
ghost use Rattle.macrocell_text.specs.LiveCells.{bits_of, population};

/// A square of a level among 8 by 8 states, from a column and a row on.
#[derive(Clone, Copy)]
pub(crate) struct Block {
    pub level: u32,
    pub column: u32,
    pub row: u32,
}

impl Block {
    /// All 8 by 8 states.
    pub(crate) const WHOLE: Block = Block {
        level: 3,
        column: 0,
        row: 0,
    };

    /// One of its quarters, so many columns and rows further on.
    pub(crate) fn quarter(self, columns: u32, rows: u32) -> Block
        requires level { 1 ≤ self.level }
        requires columns { self.column + columns ≤ 8 }
        requires rows { self.row + rows ≤ 8 }
        ensures { result ≡ record { level = self.level - 1; column = self.column + columns; row = self.row + rows } }
    {
        Block {
            level: self.level - 1,
            column: self.column + columns,
            row: self.row + rows,
        }
    }

    /// Half its side.
    pub(crate) fn half(self) -> u32
        requires above { 1 ≤ self.level }
        requires most { self.level ≤ 3 }
        ensures half { result ≡ 2 ^ (self.level - 1) }
        ensures double { result + result ≡ 2 ^ self.level }
    {
        match self.level {
            1 => 1,
            2 => 2,
            _ => 4,
        }
    }
}

/// The state of a square of level 3 in a column and a row.
pub(crate) fn state_of_bit(rows: u64, column: u32, row: u32) -> u8
    requires column { column + 1 ≤ 8 }
    requires row { row + 1 ≤ 8 }
    ensures { result ≡ bit_at rows (8 * row + column) }
{
    ((rows >> (8 * row + column)) & 1) as u8
}

/// How many states of a block are not 0.
pub(crate) fn block_count(rows: u64, block: Block) -> u32
    requires level { block.level ≤ 3 }
    requires column { block.column + 2 ^ block.level ≤ 8 }
    requires row { block.row + 2 ^ block.level ≤ 8 }
    ensures count { result ≡ population (square_of block.level (seen_from block.column block.row (bits_of rows))) }
    ensures most { result ≤ 4 ^ block.level }
{
    if block.level == 0 {
        return u32::from(state_of_bit(rows, block.column, block.row));
    }
    let half = block.half();
    let nw = block_count(rows, block.quarter(0, 0));
    let ne = block_count(rows, block.quarter(half, 0));
    let sw = block_count(rows, block.quarter(0, half));
    let se = block_count(rows, block.quarter(half, half));
    (nw + ne) + (sw + se)
}
