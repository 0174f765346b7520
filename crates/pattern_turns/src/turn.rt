//! Turns, and where they put the cells of a box.

ghost use Rattle.std.specs.Prelude.{◌≡◌, ◌-◌, ◌≤◌, ◌^◌};
ghost use Rattle.pattern_turns.specs.Turning.{is_quarter, turned_cell, turned_height, turned_width};

use pattern_cells::PatternCell;

/// A turn of a pattern, by the words of the script; beside each is Golly's own. Rows are counted downwards.
#[derive(Clone, Copy, Debug, PartialEq, Eq)]
pub enum Turn {
    /// A quarter turn to the left: what was the right side is on top. Golly's Rotate Anticlockwise.
    Left,
    /// A quarter turn to the right: what was the left side is on top. Golly's Rotate Clockwise.
    Right,
    /// A half turn: Golly's Rotate Clockwise done twice.
    Half,
    /// Left and right are exchanged. Golly's Flip Left-Right.
    Mirror,
    /// Top and bottom are exchanged. Golly's Flip Top-Bottom.
    Flip,
}

/// A box of cells: its columns and its rows.
#[derive(Clone, Copy)]
pub(crate) struct Sides {
    pub width: u64,
    pub height: u64,
}

impl Sides {
    /// The sides of the turned box.
    pub(crate) fn turned(self, turn: Turn) -> Sides
        ensures width { result.width ≡ turned_width turn self.width self.height }
        ensures height { result.height ≡ turned_height turn self.width self.height }
    {
        if is_quarter(turn) {
            Sides {
                width: self.height,
                height: self.width,
            }
        } else {
            self
        }
    }

    /// Where a cell of the box stands in the turned box.
    pub(crate) fn turned_cell(self, turn: Turn, cell: PatternCell) -> PatternCell
        requires width { self.width ≤ 2 ^ 32 }
        requires height { self.height ≤ 2 ^ 32 }
        ensures { result ≡ turned_cell turn self.width self.height cell }
    {
        let from_right = from_end(self.width, cell.column);
        let from_bottom = from_end(self.height, cell.row);
        match turn {
            Turn::Left => at(cell.row, from_right, cell.state),
            Turn::Right => at(from_bottom, cell.column, cell.state),
            Turn::Half => at(from_right, from_bottom, cell.state),
            Turn::Mirror => at(from_right, cell.row, cell.state),
            Turn::Flip => at(cell.column, from_bottom, cell.state),
        }
    }
}

fn at(column: u32, row: u32, state: u8) -> PatternCell
    ensures { result ≡ record { column = column; row = row; state = state } }
{
    PatternCell { column, row, state }
}

/// How far a column or a row is from the last one.
fn from_end(side: u64, place: u32) -> u32
    requires { side ≤ 2 ^ 32 }
    ensures { result ≡ side - 1 - place }
{
    side.saturating_sub(1).saturating_sub(u64::from(place)) as u32
}

/// Whether the columns become rows.
fn is_quarter(turn: Turn) -> bool
    ensures { result ≡ is_quarter turn }
{
    match turn {
        Turn::Left | Turn::Right => true,
        Turn::Half | Turn::Mirror | Turn::Flip => false,
    }
}
