//! Planes with little room, and squares added by hand.

use edit_stamps::{Cell, Edit, EditFault, Stamp, Write};
use generations_rule::Rule;
use samples::{LIVE, one_cell};
use stamped_tree::{Plane, StoreFault};
use std::alloc::{AllocError, Global};
use std::test::Fail;

/// What the plane with so much room answers, how many squares it has then, and its write at the origin.
fn with_room(alloc: Global, room: u32) -> Result<(bool, u32, Write), AllocError> {
    let mut plane = Plane::with_room(alloc, room.max(1))?;
    let made = one_cell(&mut plane);
    if let Ok(root) = made {
        plane.set_root(root);
    }
    Ok((
        made == Err(StoreFault::StoreFull),
        plane.nodes(),
        plane.get(0, 0),
    ))
}

/// A blank, a leaf and 28 squares of four.
#[test]
fn a_plane_is_full_below_thirty_squares(rt: HostRuntime) -> Result<(), Fail> {
    for room in 1..30 {
        assert!(rt;
            with_room(rt.alloc(), room)? == (true, room, Write::UNWRITTEN),
            "{room}"
        );
    }
    assert!(rt; with_room(rt.alloc(), 30)? == (false, 30, LIVE));
    Ok(())
}

/// The plane of a draw of the origin.
fn drawn(alloc: Global) -> Result<Plane, EditFault> {
    let (Ok(rule), Some(stamp)) = (Rule::parse(b"/2/3"), Stamp::new(1, 1)) else {
        return Err(EditFault::Nothing);
    };
    let cell = Cell {
        x: 0,
        y: 0,
        state: 1,
    };
    let edit = Edit::cells(alloc, &rule, stamp, &[cell])?;
    Ok(Plane::of_edit(alloc, &edit)?)
}

/// The write at the origin of a plane's copy, and how many squares the copy has.
fn copied(plane: &Plane) -> Result<(Write, u32), AllocError> {
    let copy = plane.copy()?;
    Ok((copy.get(0, 0), copy.nodes()))
}

/// The same of that draw.
fn drawn_and_copied(alloc: Global) -> Result<(Write, u32), EditFault> {
    let plane = drawn(alloc)?;
    Ok(copied(&plane)?)
}

#[test]
fn a_copy_has_the_squares_of_the_root(rt: HostRuntime) -> Result<(), Fail> {
    assert!(rt; drawn_and_copied(rt.alloc())? == (LIVE, 30));
    assert_eq!(rt; Plane::new(rt.alloc())?.nodes(), 1);
    Ok(())
}
