//! The bounding box of cells.

ghost use Rattle.std.specs.Prelude.{◌≡◌, ◌∷◌, []};
ghost use Rattle.std.specs.Int.{int_min, int_max};
ghost use Rattle.multistate_rle.specs.Bounds.{bounds_of, span_of};

use pattern_cells::Cell;
use std::marker::Model;

/// The least box that holds all cells: its corner, and its sides, which can reach 2^32. Without
/// cells all is 0.
#[derive(Clone, Copy, Debug, PartialEq, Eq)]
pub struct Bounds {
    pub x: i32,
    pub y: i32,
    pub width: u64,
    pub height: u64,
}

impl Model for Bounds {
    ghost use Rattle.multistate_rle.specs.Bounds.{BoundsValue};

    ghost Value = { BoundsValue };

    ghost view = { λ v. record { x = v.x; y = v.y; width = v.width; height = v.height } };

    ghost inverse = { λ v. record { x = v.x; y = v.y; width = v.width; height = v.height } };
}

pub fn bounds_of(cells: &[Cell]) -> Bounds
    ensures { result ≡ bounds_of cells.now }
{
    match cells.split_first() {
        Some((first, rest)) => bounds_round(first, rest),
        None => no_bounds(),
    }
}

fn bounds_round(first: &Cell, rest: &[Cell]) -> Bounds
    ensures { result ≡ bounds_of (first.now ∷ rest.now) }
{
    let mut reach = Reach::at(*first);
    for cell in rest {
        reach = reach.with(*cell);
    }
    reach.bounds()
}

fn no_bounds() -> Bounds
    ensures { result ≡ bounds_of [] }
{
    Bounds {
        x: 0,
        y: 0,
        width: 0,
        height: 0,
    }
}

/// How far some cells reach.
#[derive(Clone, Copy)]
struct Reach {
    left: i32,
    right: i32,
    top: i32,
    bottom: i32,
}

impl Reach {
    fn at(cell: Cell) -> Reach
        ensures { result ≡ record { left = cell.x; right = cell.x; top = cell.y; bottom = cell.y } }
    {
        Reach {
            left: cell.x,
            right: cell.x,
            top: cell.y,
            bottom: cell.y,
        }
    }

    fn with(self, cell: Cell) -> Reach
        ensures { result ≡ record { left = int_min self.left cell.x; right = int_max self.right cell.x; top = int_min self.top cell.y; bottom = int_max self.bottom cell.y } }
    {
        Reach {
            left: self.left.min(cell.x),
            right: self.right.max(cell.x),
            top: self.top.min(cell.y),
            bottom: self.bottom.max(cell.y),
        }
    }

    fn bounds(self) -> Bounds
        ensures { result ≡ record { x = self.left; y = self.top; width = span_of self.left self.right; height = span_of self.top self.bottom } }
    {
        Bounds {
            x: self.left,
            y: self.top,
            width: span(self.left, self.right),
            height: span(self.top, self.bottom),
        }
    }
}

/// How many coordinates there are from the one to the other, both counted.
fn span(from: i32, to: i32) -> u64
    ensures { result ≡ span_of from to }
{
    u64::from(to.abs_diff(from)) + 1
}
