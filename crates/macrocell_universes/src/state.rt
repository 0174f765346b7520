//! States of squares of few columns and rows.

ghost use Rattle.std.specs.Prelude.{◌≡◌, ◌≤◌, ◌<◌, ◌-◌, ◌+◌, ◌*◌, ◌^◌, true};
ghost use Rattle.std.specs.Int.{bit_at};
ghost use Rattle.macrocell_lines.specs.Squares.{state_in};
ghost use Rattle.macrocell_text.specs.Macrocells.{AreLevelled, AreSquares, are_entries, squares_of};
ghost use Rattle.macrocell_universes.specs.Numbered.{IsNumbered, square_of};
ghost use Rattle.macrocell_universes.specs.States.{column_in_half, number_in};

use crate::quarters::{Cut, Numbered, Quarters, one_step};
use macrocell_text::Entry;

/// The state in a column and a row of a square of level 3 at most.
pub(crate) fn state_of(entries: &[Entry], square: Numbered, column: u32, row: u32) -> u8
    requires squares { AreSquares (squares_of entries.now) }
    requires levels { AreLevelled entries.now }
    requires entries { are_entries entries.now ≡ true }
    requires is { IsNumbered entries.now square }
    requires level { square.level ≤ 3 }
    requires column { column < 2 ^ square.level }
    requires row { row < 2 ^ square.level }
    ensures { result ≡ state_in (square_of entries.now square) column row }
{
    if square.number == 0 {
        return 0;
    }
    if square.level == 0 {
        return square.number as u8;
    }
    match one_step(entries, square) {
        Cut::Rows(rows) => state_of_bit(rows, column, row),
        Cut::Four(four) => {
            let half = half_of(square.level);
            let number = number_in(four, column >= half, row >= half);
            state_of(
                entries,
                square.quarter(number),
                column_in_half(half, column),
                column_in_half(half, row),
            )
        }
    }
}

/// What stands for one of four quarters.
fn number_in(four: Quarters, is_right: bool, is_lower: bool) -> u32
    ensures { result ≡ number_in four is_right is_lower }
{
    match (is_lower, is_right) {
        (false, false) => four.nw,
        (false, true) => four.ne,
        (true, false) => four.sw,
        (true, true) => four.se,
    }
}

/// A column of a square in its left or its right half; or a row.
fn column_in_half(half: u32, column: u32) -> u32
    ensures { result ≡ column_in_half half column }
{
    if column >= half {
        column - half
    } else {
        column
    }
}

/// Half the side of a square of a level.
pub(crate) fn half_of(level: u8) -> u32
    requires above { 1 ≤ level }
    requires most { level ≤ 3 }
    ensures half { result ≡ 2 ^ (level - 1) }
    ensures double { result + result ≡ 2 ^ level }
    ensures most { result ≤ 4 }
{
    match level {
        1 => 1,
        2 => 2,
        _ => 4,
    }
}

/// The state of a square of level 3 in a column and a row, where it has a bit for each.
pub(crate) fn state_of_bit(rows: u64, column: u32, row: u32) -> u8
    requires column { column < 8 }
    requires row { row < 8 }
    ensures { result ≡ bit_at rows (8 * row + column) }
{
    ((rows >> (8 * row + column)) & 1) as u8
}
