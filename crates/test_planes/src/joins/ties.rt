//! Two edits of one cell with one counter, and what a plane of one square can take of them.

use edit_stamps::{Cell, Edit, EditFault, Stamp, Write};
use generations_rule::Rule;
use stamped_tree::{Plane, StoreFault};
use std::alloc::{AllocError, Global};
use std::test::Fail;
use tree_join::{add_joined, at_most, join, same, same_remembered};

/// The plane of a draw of the origin at counter 1.
pub fn one_cell(alloc: Global, replica: u16, state: u8) -> Result<Plane, EditFault> {
    let (Ok(rule), Some(stamp)) = (Rule::parse(b"/2/3"), Stamp::new(1, replica)) else {
        return Err(EditFault::Nothing);
    };
    let cell = Cell { x: 0, y: 0, state };
    let edit = Edit::cells(alloc, &rule, stamp, &[cell])?;
    Ok(Plane::of_edit(alloc, &edit)?)
}

/// Replica 1 draws state 1, and replica 2 state 2.
pub fn two_draws(alloc: Global) -> Result<Plane, EditFault> {
    let mut plane = one_cell(alloc, 1, 1)?;
    let other = one_cell(alloc, 2, 2)?;
    match join(alloc, &mut plane, &other) {
        Ok(()) => Ok(plane),
        Err(_) => Err(EditFault::Memory),
    }
}

/// The draw of counter 1, replica 2.
pub const LATER: Write = Write {
    stamp: 0x1_0002,
    state: 2,
};

/// What a plane answers that is joined with the two draws, its write at the origin then, and how many
/// squares it has.
fn joined(
    alloc: Global,
    plane: &mut Plane,
) -> Result<(Result<(), StoreFault>, Write, u32), EditFault> {
    let draws = two_draws(alloc)?;
    let answer = join(alloc, plane, &draws);
    Ok((answer, plane.get(0, 0), plane.nodes()))
}

/// The same of a plane with room for one square.
fn joined_full(alloc: Global) -> Result<(Result<(), StoreFault>, Write, u32), EditFault> {
    let mut plane = Plane::with_room(alloc, 1)?;
    joined(alloc, &mut plane)
}

#[test]
fn a_full_plane_keeps_its_map(rt: HostRuntime) -> Result<(), Fail> {
    assert!(rt; joined_full(rt.alloc())? == (Err(StoreFault::StoreFull), Write::UNWRITTEN, 1));
    Ok(())
}

/// The same of a new plane.
fn joined_new(alloc: Global) -> Result<(Result<(), StoreFault>, Write, u32), EditFault> {
    let mut plane = Plane::new(alloc)?;
    joined(alloc, &mut plane)
}

/// How many squares a copy of that plane stores.
fn copied(alloc: Global) -> Result<u32, EditFault> {
    let mut plane = Plane::new(alloc)?;
    let _ = joined(alloc, &mut plane)?;
    let copy = plane.copy()?;
    Ok(copy.nodes())
}

/// 28 squares of four, a leaf and the blank of stamp 0.
#[test]
fn the_later_replica_wins(rt: HostRuntime) -> Result<(), Fail> {
    assert!(rt; joined_new(rt.alloc())? == (Ok(()), LATER, 30));
    assert!(rt; copied(rt.alloc())? == 30);
    Ok(())
}

/// Two replicas of one number drew state 1 and state 2 with one stamp.
fn of_one_stamp(alloc: Global, first: u8, second: u8) -> Result<(Write, bool, bool), EditFault> {
    let mut plane = one_cell(alloc, 1, first)?;
    compared_and_joined(alloc, &mut plane, second)
}

/// Whether a plane is at most that of the second state, and the other way round; and its write at the
/// origin once that is joined.
fn compared_and_joined(
    alloc: Global,
    plane: &mut Plane,
    second: u8,
) -> Result<(Write, bool, bool), EditFault> {
    let other = one_cell(alloc, 1, second)?;
    let below = at_most(plane, &other);
    let above = at_most(&other, plane);
    match join(alloc, plane, &other) {
        Ok(()) => Ok((plane.get(0, 0), below, above)),
        Err(_) => Err(EditFault::Memory),
    }
}

#[test]
fn the_greater_state_of_one_stamp_wins(rt: HostRuntime) -> Result<(), Fail> {
    let greater = Write {
        stamp: 0x1_0001,
        state: 2,
    };
    assert!(rt; of_one_stamp(rt.alloc(), 1, 2)? == (greater, true, false));
    assert!(rt; of_one_stamp(rt.alloc(), 2, 1)? == (greater, false, true));
    assert!(rt; of_one_stamp(rt.alloc(), 2, 2)? == (greater, true, true));
    Ok(())
}

/// The origin of a plane before and after a joined square is made the root.
fn added(alloc: Global) -> Result<(Write, Write), EditFault> {
    let mut plane = one_cell(alloc, 1, 1)?;
    add_second(alloc, &mut plane)
}

/// The same of a plane that the draw of replica 2 is joined with.
fn add_second(alloc: Global, plane: &mut Plane) -> Result<(Write, Write), EditFault> {
    let other = one_cell(alloc, 2, 2)?;
    let root = plane.root().part();
    match add_joined(alloc, plane, root, &other) {
        Ok(part) => {
            let before = plane.get(0, 0);
            plane.set_root(part);
            Ok((before, plane.get(0, 0)))
        }
        Err(_) => Err(EditFault::Memory),
    }
}

#[test]
fn a_joined_square_is_added_beside_the_map(rt: HostRuntime) -> Result<(), Fail> {
    let earlier = Write {
        stamp: 0x1_0001,
        state: 1,
    };
    assert!(rt; added(rt.alloc())? == (earlier, LATER));
    Ok(())
}

/// Whether two planes are the same, asked both ways.
fn compared(alloc: Global, plane: &Plane, other: &Plane) -> Result<(bool, bool), AllocError> {
    Ok((same(plane, other), same_remembered(alloc, plane, other)?))
}

/// The same of the cell of replica 1 in two states, the second in a plane of its own.
fn compared_cells(alloc: Global, first: u8, second: u8) -> Result<(bool, bool), EditFault> {
    let plane = one_cell(alloc, 1, first)?;
    compared_with_cell(alloc, &plane, second)
}

fn compared_with_cell(alloc: Global, plane: &Plane, state: u8) -> Result<(bool, bool), EditFault> {
    let other = one_cell(alloc, 1, state)?;
    match compared(alloc, plane, &other) {
        Ok(answers) => Ok(answers),
        Err(AllocError) => Err(EditFault::Memory),
    }
}

#[test]
fn planes_with_other_writes_are_not_the_same(rt: HostRuntime) -> Result<(), Fail> {
    assert!(rt; compared_cells(rt.alloc(), 1, 2)? == (false, false));
    assert!(rt; compared_cells(rt.alloc(), 1, 1)? == (true, true));
    Ok(())
}
