//! Planes and journals.

ghost use Rattle.std.specs.Prelude.{◌≤◌, IfSome};
ghost use Rattle.edit_stamps.specs.PlaneMap.{HasStatesBelow};
ghost use Rattle.stamped_tree.specs.Plane.{map_of};

use crate::memory::{edits, tell_all};
use edit_journal::Journal;
use edit_stamps::{Edit, EditFault, Rect, Stamp};
use generations_rule::Rule;
use pattern_cells::Cell;
use samples::plane_of;
use stamped_tree::{Plane, StoreFault};
use std::alloc::{AllocError, Global};
use std::io;
use tree_join::{join, same_remembered};

/// The plane of some cells, of counter 1 and replica 1.
pub fn plane(alloc: Global, rule: &Rule, cells: &[Cell]) -> Option<Plane>
    ensures { IfSome result (λ plane. HasStatesBelow rule.now.states (map_of plane)) }
{
    match plane_of(alloc, rule, cells) {
        Ok(plane) => Some(plane),
        Err(EditFault::Memory) => plane_of(alloc, rule, cells).ok(),
        Err(_) => None,
    }
}

/// What a plane shows at the cells 0 to 2 of row 0, and its greatest stamp.
pub fn shown(plane: &Plane) -> ([u8; 3], u64) {
    let states = [
        plane.get(0, 0).state,
        plane.get(1, 0).state,
        plane.get(2, 0).state,
    ];
    (states, plane.greatest_stamp())
}

/// The plane of an edit.
fn of_edit(alloc: Global, edit: &Edit) -> Option<Plane> {
    again!(AllocError, Plane::of_edit(alloc, edit)).ok()
}

/// Whether two cells of a plane are not dead.
fn has_two_cells(plane: &Plane) -> bool {
    match again!(AllocError, plane.walk()) {
        Ok(cells) => cells.len() == 2,
        Err(AllocError) => false,
    }
}

/// The plane of the row of states 2, 3 and 0.
pub fn row(alloc: Global) -> Option<Plane> {
    of_edit(alloc, &edits::row(alloc, 1)?)
}

/// What it shows.
pub const ROW: ([u8; 3], u64) = ([2, 3, 0], 65537);

/// The plane of a state at the origin, of counter 1.
fn dot(alloc: Global, replica: u16, state: u8) -> Option<Plane> {
    of_edit(alloc, &edits::dot(alloc, replica, state)?)
}

/// The plane of a clear of counter 2.
fn cleared(alloc: Global) -> Option<Plane> {
    of_edit(alloc, &edits::cleared(alloc)?)
}

/// A plane where nothing was written, with room for so many squares.
fn begun(alloc: Global, nodes: u32) -> Option<Plane>
    requires { 1 ≤ nodes }
{
    again!(AllocError, Plane::with_room(alloc, nodes)).ok()
}

pub fn tell_calls(rt: &impl Print, alloc: Global) -> io::Result<()> {
    tell_all(
        rt,
        "planes",
        &[
            ("Plane::of_edit, walk, same_remembered", row_is_drawn(alloc)),
            ("Plane::copy", plane_is_copied(alloc)),
            ("join", row_is_joined(alloc)),
            ("join of two writes", greater_write_wins(alloc)),
            ("join of a clear", clear_wins(alloc)),
            ("join refused", stores_are_full(alloc)),
            ("Journal::push, note", edits_are_noted(alloc)),
        ],
    )
}

/// Joins a plane with another. Where memory is refused, it shows what it showed.
fn joined(alloc: Global, plane: &mut Plane, other: &Plane) -> Result<(), StoreFault> {
    let before = shown(plane);
    again!(StoreFault::Memory if shown(plane) == before, join(alloc, plane, other))
}

/// Whether two planes are the same; the second is none where there was no memory for it.
fn is_same(alloc: Global, plane: &Plane, other: Option<Plane>) -> bool {
    match other {
        Some(other) => are_same(alloc, plane, &other),
        None => false,
    }
}

fn are_same(alloc: Global, plane: &Plane, other: &Plane) -> bool {
    again!(AllocError, same_remembered(alloc, plane, other)) == Ok(true)
}

/// Whether a plane that is joined with another shows something then.
fn shows_with(
    alloc: Global,
    plane: &mut Plane,
    other: Option<Plane>,
    meant: ([u8; 3], u64),
) -> bool {
    match other {
        Some(other) => joined(alloc, plane, &other).is_ok() && shown(plane) == meant,
        None => false,
    }
}

fn row_is_joined(alloc: Global) -> bool {
    let Ok(mut plane) = again!(AllocError, Plane::new(alloc)) else {
        return false;
    };
    shows_with(alloc, &mut plane, row(alloc), ROW)
}

/// Two writes with one counter: whichever plane is joined with the other, the greater one wins.
fn greater_write_wins(alloc: Global) -> bool {
    let Some(mut one) = dot(alloc, 1, 1) else {
        return false;
    };
    match dot(alloc, 2, 2) {
        Some(mut two) => meets_greater(alloc, &mut one, &mut two),
        None => false,
    }
}

fn meets_greater(alloc: Global, one: &mut Plane, two: &mut Plane) -> bool {
    let greater = ([2, 0, 0], 65538);
    joined(alloc, one, two).is_ok()
        && joined(alloc, two, one).is_ok()
        && shown(one) == greater
        && shown(two) == greater
        && are_same(alloc, one, two)
}

/// A clear wins over what was written before, also where it is joined first; nothing but it is left.
fn clear_wins(alloc: Global) -> bool {
    let Some(mut plane) = cleared(alloc) else {
        return false;
    };
    let is_clear = shows_with(alloc, &mut plane, dot(alloc, 1, 1), ([0, 0, 0], 131_073));
    is_clear && is_same(alloc, &plane, cleared(alloc))
}

/// Whether a new plane with room for so many squares has no room for another, shows nothing then, and
/// stores as many squares as it may.
fn is_full(alloc: Global, nodes: u32, other: &Plane) -> bool
    requires { 1 ≤ nodes }
{
    let Some(mut plane) = begun(alloc, nodes) else {
        return false;
    };
    joined(alloc, &mut plane, other) == Err(StoreFault::StoreFull)
        && shown(&plane) == ([0, 0, 0], 0)
        && plane.nodes() == nodes
}

/// Whether a new plane shows another that is joined with it, in 30 squares.
fn is_roomy(alloc: Global, other: &Plane) -> bool {
    let Some(mut plane) = begun(alloc, 1000) else {
        return false;
    };
    joined(alloc, &mut plane, other) == Ok(())
        && shown(&plane) == ([1, 0, 0], 65537)
        && plane.nodes() == 30
}

/// One cell wants a room of 30.
fn stores_are_full(alloc: Global) -> bool {
    let Some(other) = dot(alloc, 1, 1) else {
        return false;
    };
    is_full(alloc, 1, &other) && is_full(alloc, 29, &other) && is_roomy(alloc, &other)
}

/// The plane of the row is the one that is drawn again; it has two cells that are not dead.
fn row_is_drawn(alloc: Global) -> bool {
    let Some(plane) = row(alloc) else {
        return false;
    };
    shown(&plane) == ROW && has_two_cells(&plane) && is_same(alloc, &plane, row(alloc))
}

fn plane_is_copied(alloc: Global) -> bool {
    let Some(plane) = row(alloc) else {
        return false;
    };
    match again!(AllocError, plane.copy()) {
        Ok(copy) => shown(&copy) == ROW,
        Err(AllocError) => false,
    }
}

/// An edit that was noted before is not noted again.
fn edits_are_noted(alloc: Global) -> bool {
    match (edits::row(alloc, 2), edits::row(alloc, 1)) {
        (Some(second), Some(first)) => are_noted(alloc, &[second, first]),
        _ => false,
    }
}

/// Whether a journal has the second of two edits once it is pushed, and both once they are noted.
fn are_noted(alloc: Global, edits: &[Edit; 2]) -> bool {
    let mut journal = Journal::new(alloc);
    is_pushed(alloc, &mut journal)
        && journal.contains(&edits[1])
        && journal.as_slice().len() == 1
        && again!(AllocError, journal.note(edits)).is_ok()
        && journal.as_slice().len() == 2
}

/// Pushes the edit of counter 1, drawn anew where memory is refused.
fn is_pushed(alloc: Global, journal: &mut Journal) -> bool {
    push_first(alloc, journal).is_some() || push_first(alloc, journal).is_some()
}

fn push_first(alloc: Global, journal: &mut Journal) -> Option<()> {
    journal.push(edits::row(alloc, 1)?).ok()
}
