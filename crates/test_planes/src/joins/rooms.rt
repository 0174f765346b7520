//! Joins into planes with little room.

use crate::joins::ties::{LATER, one_cell, two_draws};
use edit_stamps::{EditFault, Write};
use stamped_tree::{Plane, StoreFault};
use std::alloc::Global;
use std::test::Fail;
use tree_join::join;

/// What a plane of so much room answers that is joined with the two draws, how many squares it has then,
/// and its write at the origin.
fn with_room(alloc: Global, room: u32, draws: &Plane) -> Result<(bool, u32, Write), EditFault> {
    let mut plane = Plane::with_room(alloc, room.max(1))?;
    let answer = join(alloc, &mut plane, draws);
    Ok((
        answer == Err(StoreFault::StoreFull),
        plane.nodes(),
        plane.get(0, 0),
    ))
}

#[test]
fn a_join_is_refused_below_thirty_squares(rt: HostRuntime) -> Result<(), Fail> {
    let draws = two_draws(rt.alloc())?;
    for room in 1..30 {
        assert!(rt;
            with_room(rt.alloc(), room, &draws)? == (true, room, Write::UNWRITTEN),
            "{room}"
        );
    }
    assert!(rt; with_room(rt.alloc(), 30, &draws)? == (false, 30, LATER));
    Ok(())
}

/// How many squares the copy of a new plane has that was joined with a plane of one cell.
fn copied(alloc: Global) -> Result<u32, EditFault> {
    let mut plane = Plane::new(alloc)?;
    let joined = join_cell(alloc, &mut plane, 1)?;
    match plane.copy() {
        Ok(copy) if joined == Ok(()) => Ok(copy.nodes()),
        _ => Err(EditFault::Memory),
    }
}

#[test]
fn a_copy_has_the_squares_of_its_map(rt: HostRuntime) -> Result<(), Fail> {
    assert_eq!(rt; copied(rt.alloc())?, 30);
    Ok(())
}

/// The same of a plane that has a cell: a leaf and 28 squares of four more.
fn into_a_cell(alloc: Global, room: u32) -> Result<(bool, u32, u8), EditFault> {
    let mut plane = Plane::with_room(alloc, room.max(1))?;
    let first = join_cell(alloc, &mut plane, 1)?;
    let second = join_cell(alloc, &mut plane, 2)?;
    Ok((
        first == Ok(()) && second == Err(StoreFault::StoreFull),
        plane.nodes(),
        plane.get(0, 0).state,
    ))
}

/// Joins the cell of a replica, whose state is the replica's number.
fn join_cell(
    alloc: Global,
    plane: &mut Plane,
    replica: u8,
) -> Result<Result<(), StoreFault>, EditFault> {
    let cell = one_cell(alloc, u16::from(replica), replica)?;
    Ok(join(alloc, plane, &cell))
}

#[test]
fn a_map_stays_where_a_join_is_refused(rt: HostRuntime) -> Result<(), Fail> {
    for room in 30..59 {
        assert!(rt; into_a_cell(rt.alloc(), room)? == (true, room, 1), "{room}");
    }
    assert!(rt; into_a_cell(rt.alloc(), 59)? == (false, 59, 2));
    Ok(())
}
