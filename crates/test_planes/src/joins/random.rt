//! Joins of planes of random edits, beside the edits' own lists.

use edit_stamps::{Corner, Edit, EditFault, Stamp, Write};
use generations_rule::Rule;
use samples::{CENTRES, REACH, edit_near, next, write_by};
use stamped_tree::Plane;
use std::alloc::{AllocError, Global};
use std::test::Fail;
use tree_join::{at_most, join, same, same_remembered};

/// An edit near a place, with one of few stamps.
fn draw(alloc: Global, centre: Corner, number: &mut u64) -> Result<Edit, EditFault> {
    let counter = next(number) % 2 + 1;
    let replica = (next(number) % 2 + 1) as u16;
    let (Ok(rule), Some(stamp)) = (Rule::parse(b"345/2/4"), Stamp::new(counter, replica)) else {
        return Err(EditFault::Nothing);
    };
    edit_near(alloc, &rule, stamp, centre, number)
}

/// Three edits near a place; those that leave the plane are left out.
fn draws(alloc: Global, centre: Corner, number: &mut u64) -> Result<Vec<Edit>, EditFault> {
    let mut edits = Vec::new(alloc);
    for _ in 0..3 {
        match draw(alloc, centre, number) {
            Ok(edit) => edits.push(edit).map_err(AllocError::from)?,
            Err(EditFault::OutOfPlane) => {}
            Err(fault) => return Err(fault),
        }
    }
    Ok(edits)
}

/// The greatest write of edits at a place, by their lists.
fn greatest(edits: &[Edit], x: i32, y: i32) -> Write {
    let mut greatest = Write::UNWRITTEN;
    for edit in edits {
        let write = write_by(edit, x, y);
        if greatest <= write {
            greatest = write;
        }
    }
    greatest
}

/// What is compared at the places around a centre.
#[derive(Clone, Copy, Debug, PartialEq, Eq)]
struct Tally {
    /// The joined plane reads as the greater write of the two lists.
    is_joined: bool,
    /// Each write of the first list is at most the second's.
    is_below: bool,
    /// The lists write the same.
    is_same: bool,
}

/// Two lists of edits near a place.
#[derive(Clone, Copy)]
struct Lists<'a> {
    centre: Corner,
    edits: &'a [Edit],
    others: &'a [Edit],
}

fn compare(joined: &Plane, lists: Lists<'_>) -> Tally {
    let mut tally = Tally {
        is_joined: true,
        is_below: true,
        is_same: true,
    };
    for row in 0..40_i32 {
        for column in 0..40_i32 {
            let x = lists.centre.x.saturating_add(column).saturating_sub(REACH);
            let y = lists.centre.y.saturating_add(row).saturating_sub(REACH);
            let write = greatest(lists.edits, x, y);
            let other = greatest(lists.others, x, y);
            let greater = if write <= other { other } else { write };
            tally.is_joined = tally.is_joined && joined.get(x, y) == greater;
            tally.is_below = tally.is_below && write <= other;
            tally.is_same = tally.is_same && write == other;
        }
    }
    tally
}

/// Joins an edit.
fn join_edit(alloc: Global, plane: &mut Plane, edit: &Edit) -> Result<(), EditFault> {
    let drawn = Plane::of_edit(alloc, edit)?;
    match join(alloc, plane, &drawn) {
        Ok(()) => Ok(()),
        Err(_) => Err(EditFault::Memory),
    }
}

/// The plane of edits, joined one after another.
fn plane_of(alloc: Global, edits: &[Edit]) -> Result<Plane, EditFault> {
    let mut plane = Plane::new(alloc)?;
    for edit in edits {
        join_edit(alloc, &mut plane, edit)?;
    }
    Ok(plane)
}

/// The join of two planes, in a store of its own.
fn joined_with(alloc: Global, plane: &Plane, other: &Plane) -> Result<Plane, EditFault> {
    let mut joined = plane.copy()?;
    match join(alloc, &mut joined, other) {
        Ok(()) => Ok(joined),
        Err(_) => Err(EditFault::Memory),
    }
}

/// Whether the join of two planes is their least upper bound by the calls, in either order.
fn is_bound(
    alloc: Global,
    plane: &Plane,
    other: &Plane,
    joined: &Plane,
) -> Result<bool, EditFault> {
    let back = joined_with(alloc, other, plane)?;
    Ok(
        same(joined, &back)
            && same_remembered(alloc, joined, &back)?
            && at_most(plane, joined)
            && at_most(other, joined)
            && at_most(plane, other) == same(joined, other)
            && same_remembered(alloc, joined, plane)? == at_most(other, plane),
    )
}

/// Whether two planes join as the lists of the edits that they were drawn by do.
fn join_as_listed(
    alloc: Global,
    plane: &Plane,
    other: &Plane,
    lists: Lists<'_>,
) -> Result<bool, EditFault> {
    let joined = joined_with(alloc, plane, other)?;
    let tally = compare(&joined, lists);
    Ok(
        tally.is_joined
            && tally.is_below == at_most(plane, other)
            && tally.is_same == same(plane, other)
            && is_bound(alloc, plane, other, &joined)?,
    )
}

/// The same where the second plane has not been drawn.
fn joins_drawn(alloc: Global, plane: &Plane, lists: Lists<'_>) -> Result<bool, EditFault> {
    let other = plane_of(alloc, lists.others)?;
    join_as_listed(alloc, plane, &other, lists)
}

/// Whether two random planes near a place join as their edits' lists do.
fn joins_as_listed(alloc: Global, centre: Corner, number: &mut u64) -> Result<bool, EditFault> {
    let edits = draws(alloc, centre, number)?;
    let others = draws(alloc, centre, number)?;
    let lists = Lists {
        centre,
        edits: &edits,
        others: &others,
    };
    let plane = plane_of(alloc, lists.edits)?;
    joins_drawn(alloc, &plane, lists)
}

#[test]
fn planes_join_as_their_lists(rt: HostRuntime) -> Result<(), Fail> {
    let mut number = 17;
    let _ = next(&mut number);
    for centre in CENTRES {
        for round in 0..20_u32 {
            assert!(rt;
                joins_as_listed(rt.alloc(), centre, &mut number)?,
                "{round}"
            );
        }
    }
    Ok(())
}
