//! A clear, the same zeros listed, and either joined over a cell.

use crate::joins::ties::one_cell;
use edit_stamps::{Edit, EditFault, Stamp};
use samples::{AREA, show_the_same, zeros_listed};
use stamped_tree::Plane;
use std::alloc::Global;
use std::test::Fail;
use tree_join::{join, same};

/// Whether two planes have one map, by `same` and by their views.
fn are_one(plane: &Plane, other: &Plane) -> bool {
    same(plane, other) && show_the_same(&plane.root(), &other.root(), 31)
}

/// Whether a plane and a cell of a lesser stamp that was joined with it are one.
fn covers_a_cell(alloc: Global, plane: &Plane) -> Result<bool, EditFault> {
    let mut cell = one_cell(alloc, 1, 1)?;
    match join(alloc, &mut cell, plane) {
        Ok(()) => Ok(are_one(plane, &cell)),
        Err(_) => Err(EditFault::Memory),
    }
}

fn cleared(alloc: Global, stamp: Stamp) -> Result<Plane, EditFault> {
    let clear = Edit::clear(alloc, stamp, AREA)?;
    Ok(Plane::of_edit(alloc, &clear)?)
}

fn listed(alloc: Global, stamp: Stamp) -> Result<Plane, EditFault> {
    let zeros = zeros_listed(alloc, stamp)?;
    Ok(Plane::of_edit(alloc, &zeros)?)
}

/// Whether a plane is that of the zeros of its area, listed, and either covers a cell.
fn is_listed(alloc: Global, plane: &Plane, zeros: Result<Plane, EditFault>) -> bool {
    match zeros {
        Ok(zeros) => {
            are_one(plane, &zeros)
                && covers_a_cell(alloc, plane) == Ok(true)
                && covers_a_cell(alloc, &zeros) == Ok(true)
        }
        Err(_) => false,
    }
}

#[test]
fn a_clear_joined_is_the_zeros_joined(rt: HostRuntime) -> Result<(), Fail> {
    let stamp = Stamp::new(2, 1).ok_or(EditFault::Nothing)?;
    let plane = cleared(rt.alloc(), stamp)?;
    assert!(rt; is_listed(rt.alloc(), &plane, listed(rt.alloc(), stamp)));
    Ok(())
}
