//! Lists of cells of which one is the other, moved.

ghost use Rattle.std.specs.Prelude.{◌≡◌, ◌↔◌, ◌-ℤ◌, ◌&&◌, ℕ, IsTrue, length, map};
ghost use Rattle.std.specs.Ordering.{int_eq};
ghost use Rattle.generations_rule.specs.Place.{Place};
ghost use Rattle.generation_engine.specs.Walk.{AreCellsOf};
ghost use Rattle.map_periods.specs.Moves.{IsMoveOf, are_as_large, extent_of, moved_cell};

use crate::extent::Extent;
use pattern_cells::Cell;

/// How far cells are moved: to the right and down, by less than 2^32 either way.
#[derive(Clone, Copy, Debug, PartialEq, Eq)]
pub struct Move {
    pub x: i64,
    pub y: i64,
}

impl Move {
    /// From one cell to another.
    fn between(from: &Cell, to: &Cell) -> Move
        ensures right { result.x ≡ to.now.x -ℤ from.now.x }
        ensures down { result.y ≡ to.now.y -ℤ from.now.y }
    {
        Move {
            x: i64::from(to.x) - i64::from(from.x),
            y: i64::from(to.y) - i64::from(from.y),
        }
    }

    /// Whether two moves are one.
    fn is_same(self, other: Move) -> bool
        ensures { result ≡ (int_eq self.x other.x && int_eq self.y other.y) }
    {
        self.x == other.x && self.y == other.y
    }

    /// Whether one cell is another, moved so.
    fn takes(self, from: &Cell, to: &Cell) -> bool
        ensures { IsTrue result ↔ (to.now ≡ moved_cell self.x self.y from.now) }
    {
        if from.state != to.state {
            return false;
        }
        Move::between(from, to).is_same(self)
    }
}

/// The one move by which the cells of a first list become those of a second one, if there is one; no cells are moved by
/// 0 0. Each list is sorted by `y`, then `x`, and has no dead cell, as exports list cells. How many they are is compared
/// first, then the size of their box, and then cell by cell.
pub fn moved_by(before: &[Cell], after: &[Cell]) -> Option<Move>
    ensures { (f h : Place → ℕ) → AreCellsOf f before.now → AreCellsOf h after.now → IsMoveOf f h result }
{
    if before.len() != after.len() {
        return None;
    }
    if before.is_empty() {
        return Some(Move { x: 0, y: 0 });
    }
    if !have_one_size(before, after) {
        return None;
    }
    let by = Move::between(&before[0], &after[0]);
    if are_moved(before, after, by) {
        Some(by)
    } else {
        None
    }
}

/// Whether the boxes of the cells of two lists are as wide and as high.
fn have_one_size(before: &[Cell], after: &[Cell]) -> bool
    ensures { result ≡ are_as_large (extent_of before.now) (extent_of after.now) }
{
    Extent::of(before).is_as_large(Extent::of(after))
}

/// Whether each cell of a second list is that of a first one, moved so.
fn are_moved(before: &[Cell], after: &[Cell], by: Move) -> bool
    requires { length before.now ≡ length after.now }
    ensures { IsTrue result ↔ (after.now ≡ map (moved_cell by.x by.y) before.now) }
{
    for index in 0..before.len() {
        if !by.takes(&before[index], &after[index]) {
            return false;
        }
    }
    true
}
