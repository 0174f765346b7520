//! Planes with one map, square by square.

use edit_stamps::{Edit, EditFault, Rect, Stamp};
use samples::{AREA, show_the_same, zeros_listed};
use stamped_tree::Plane;
use std::alloc::{AllocError, Global};
use std::test::Fail;

fn stamp() -> Result<Stamp, EditFault> {
    Stamp::new(1, 1).ok_or(EditFault::Nothing)
}

fn cleared(alloc: Global, area: Rect) -> Result<Plane, EditFault> {
    let clear = Edit::clear(alloc, stamp()?, area)?;
    Ok(Plane::of_edit(alloc, &clear)?)
}

fn listed(alloc: Global) -> Result<Plane, EditFault> {
    let zeros = zeros_listed(alloc, stamp()?)?;
    Ok(Plane::of_edit(alloc, &zeros)?)
}

/// Whether two planes, and a copy of the second, show the same; then how many squares the first has
/// and how many the copy.
fn beside_a_copy(plane: &Plane, other: &Plane) -> Result<(bool, u32, u32), AllocError> {
    let copy = other.copy()?;
    let same = show_the_same(&plane.root(), &other.root(), 31)
        && show_the_same(&plane.root(), &copy.root(), 31);
    Ok((same, plane.nodes(), copy.nodes()))
}

/// The same of a plane and the zeros of the area, listed.
fn beside_the_listed(alloc: Global, plane: &Plane) -> Result<(bool, u32, u32), EditFault> {
    let listed = listed(alloc)?;
    Ok(beside_a_copy(plane, &listed)?)
}

/// The same of a clear and these zeros.
fn cleared_and_listed(alloc: Global) -> Result<(bool, u32, u32), EditFault> {
    let cleared = cleared(alloc, AREA)?;
    beside_the_listed(alloc, &cleared)
}

/// The square of 16 by 16 is a blank, below 27 squares of four; the other blank is of stamp 0.
#[test]
fn a_clear_is_the_zeros_listed(rt: HostRuntime) -> Result<(), Fail> {
    assert!(rt; cleared_and_listed(rt.alloc())? == (true, 29, 29));
    Ok(())
}

/// How many squares the plane of a clear of 4096 by 4096 at odd coordinates has.
fn squares_of_a_clear(alloc: Global) -> Result<u32, EditFault> {
    let area = Rect {
        x: -1023,
        y: 777,
        width: 4096,
        height: 4096,
    };
    let plane = cleared(alloc, area)?;
    Ok(plane.nodes())
}

#[test]
fn alike_parts_of_a_border_are_one_square(rt: HostRuntime) -> Result<(), Fail> {
    assert!(rt; squares_of_a_clear(rt.alloc())? <= 256);
    Ok(())
}
