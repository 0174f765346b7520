//! The states at places that come in their order.

ghost use Rattle.std.specs.Prelude.{◌≡◌, ◌≤◌, IsTrue, length};
ghost use Rattle.generations_rule.specs.Place.{at_place, is_before};
ghost use Rattle.pattern_cells.specs.Cells.{is_sorted, place_of};
ghost use Rattle.cell_pictures.specs.Reader.{first_state, from_place, passed};

use crate::window::Window;
use pattern_cells::Cell;

/// Reads states at places that come by row, then column. A cell that stands before such a place is
/// passed over, so reading all of them takes one pass over the cells.
#[derive(Drop)]
pub struct StateReader<'a> {
    rest: &'a [Cell],
    ghost sorted: { IsTrue (is_sorted rest.now) },
}

impl<'a> StateReader<'a> {
    ghost use Rattle.std.specs.Prelude.{◌≡◌, ◌<◌, IsTrue};
    ghost use Rattle.generations_rule.specs.Place.{at_place};
    ghost use Rattle.pattern_cells.specs.Cells.{is_sorted};
    ghost use Rattle.cell_pictures.specs.Window.{place_in};
    ghost use Rattle.cell_pictures.specs.Shown.{TellsFrom, state_at};

    /// Reads sorted cells from their first on.
    pub fn new(cells: &'a [Cell]) -> StateReader<'a>
        requires { IsTrue (is_sorted cells.now) }
        ensures { result.rest.now ≡ cells.now }
    {
        StateReader { rest: cells }
    }

    /// The state at a place. At that place and at those behind it the cells that are left tell what all
    /// of them did.
    pub fn state_at(&mut self, x: i32, y: i32) -> u8
        ensures state { result ≡ state_at self.old.rest.now (at_place x y) }
        ensures rest { TellsFrom (at_place x y) self.old.rest.now self.new.rest.now }
    {
        self.rest = from_place(self.rest, x, y);
        first_state(self.rest, x, y)
    }

    /// The state at a column and a row of a window.
    pub fn state_in(&mut self, window: Window, column: u64, row: u64) -> u8
        requires column { column < window.width }
        requires row { row < window.height }
        ensures state { result ≡ state_at self.old.rest.now (place_in window column row) }
        ensures rest { TellsFrom (place_in window column row) self.old.rest.now self.new.rest.now }
    {
        self.state_at(window.column(column), window.row(row))
    }
}

/// The cells without those in front that stand before a place.
fn from_place(cells: &[Cell], x: i32, y: i32) -> &[Cell]
    ensures { result.now ≡ from_place (at_place x y) cells.now }
{
    &cells[passed(cells, x, y)..]
}

/// How many cells in front stand before a place.
fn passed(cells: &[Cell], x: i32, y: i32) -> usize
    ensures count { result ≡ passed (at_place x y) cells.now }
    ensures within { result ≤ length cells.now }
{
    cells
        .iter()
        .take_while(|cell| is_before(cell, x, y))
        .count()
}

/// The state of the first cell, if it stands at a place.
fn first_state(cells: &[Cell], x: i32, y: i32) -> u8
    ensures { result ≡ first_state (at_place x y) cells.now }
{
    match cells.first() {
        Some(cell) if cell.x == x && cell.y == y => cell.state,
        _ => 0,
    }
}

/// Whether a cell stands before a place.
fn is_before(cell: &Cell, x: i32, y: i32) -> bool
    ensures { result ≡ is_before (place_of cell.now) (at_place x y) }
{
    cell.y < y || (cell.y == y && cell.x < x)
}
