//! Drawings that are taken back, and drawn again, where memory is ample.

use drawing_history::{Found, Making, Way, watch};
use edit_stamps::{Edit, EditFault, Stamp};
use generations_rule::Rule;
use pattern_cells::Cell;
use stamped_tree::{Plane, StoreFault};
use std::alloc::{AllocError, Global};
use std::test::Fail;

/// A cell in the first row.
fn cell(x: i32, state: u8) -> Cell {
    Cell { x, y: 0, state }
}

fn stroke(alloc: Global, counter: u64, replica: u16, cells: &[Cell]) -> Result<Edit, EditFault> {
    let rule = Rule::parse(b"/2/3").or(Err(EditFault::Nothing))?;
    let stamp = Stamp::new(counter, replica).ok_or(EditFault::Nothing)?;
    Edit::cells(alloc, &rule, stamp, cells)
}

fn join(plane: &mut Plane, edit: &Edit) -> Result<(), StoreFault> {
    let part = plane.add_overwritten(plane.root().part(), edit)?;
    plane.set_root(part);
    Ok(())
}

/// Draws an edit of the drawing that is being made.
fn draw(
    alloc: Global,
    plane: &mut Plane,
    making: &mut Making,
    edit: &Edit,
) -> Result<(), StoreFault> {
    let watched = watch(alloc, plane, edit);
    join(plane, edit)?;
    making.stroke(alloc, watched.as_ref(), edit.stamp(), plane);
    Ok(())
}

/// The cells that take the last drawing of a way back; none where nothing does.
fn found(alloc: Global, plane: &Plane, making: &Making, way: Way) -> Result<Vec<Cell>, AllocError> {
    match making.history().found(alloc, way, plane)? {
        Found::Cells(cells) => Ok(cells),
        Found::Nothing | Found::TooMuch => Ok(Vec::new(alloc)),
    }
}

/// A drawing of two edits, and another's stroke over one of its cells: the others show again what they showed.
#[test]
fn takes_back_what_is_still_its_own(rt: HostRuntime) -> Result<(), Fail> {
    let alloc = rt.alloc();
    let mut plane = Plane::of_edit(alloc, &stroke(alloc, 1, 9, &[cell(0, 2)])?)?;
    let mut making = Making::new(alloc);
    for edit in [
        stroke(alloc, 2, 1, &[cell(0, 1), cell(1, 1)])?,
        stroke(alloc, 3, 1, &[cell(2, 1)])?,
    ] {
        draw(alloc, &mut plane, &mut making, &edit)?;
    }
    making.end();
    join(&mut plane, &stroke(alloc, 4, 2, &[cell(1, 2)])?)?;
    let back = found(alloc, &plane, &making, Way::Undo)?;
    assert!(rt; back.as_slice() == [cell(0, 2), cell(2, 0)].as_slice());
    draw(alloc, &mut plane, &mut making, &stroke(alloc, 5, 1, &back)?)?;
    making.end_back(Way::Undo);
    assert!(rt; found(alloc, &plane, &making, Way::Undo)?.is_empty());
    let again = found(alloc, &plane, &making, Way::Redo)?;
    assert!(rt; again.as_slice() == [cell(0, 1), cell(2, 1)].as_slice());
    Ok(())
}

/// A hundred drawings and one more: the first is forgotten.
#[test]
fn keeps_a_hundred_drawings(rt: HostRuntime) -> Result<(), Fail> {
    let alloc = rt.alloc();
    let mut plane = Plane::new(alloc)?;
    let mut making = Making::new(alloc);
    for x in 0..101_i32 {
        let edit = stroke(alloc, 1 + u64::from(x.unsigned_abs()), 1, &[cell(x, 1)])?;
        draw(alloc, &mut plane, &mut making, &edit)?;
        making.end();
    }
    for (counter, x) in (200..300_u64).zip((1..101_i32).rev()) {
        let back = found(alloc, &plane, &making, Way::Undo)?;
        assert!(rt; back.as_slice() == [cell(x, 0)].as_slice());
        let edit = stroke(alloc, counter, 1, &back)?;
        draw(alloc, &mut plane, &mut making, &edit)?;
        making.end_back(Way::Undo);
    }
    assert!(rt; found(alloc, &plane, &making, Way::Undo)?.is_empty());
    Ok(())
}
