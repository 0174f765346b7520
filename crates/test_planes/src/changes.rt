//! Strokes and clears on a small board, told by what they change.

use cell_changes::Watched;
use edit_stamps::{Edit, EditFault, Rect, Stamp};
use generations_rule::Rule;
use pattern_cells::Cell;
use stamped_tree::{Plane, StoreFault};
use std::alloc::Global;
use std::test::Fail;

static BOARD: [Cell; 3] = [
    Cell {
        x: 0,
        y: 0,
        state: 1,
    },
    Cell {
        x: 5,
        y: 0,
        state: 2,
    },
    Cell {
        x: -1,
        y: 3,
        state: 1,
    },
];

/// A stroke that changes one cell, and draws another as it was.
static STROKE: [Cell; 2] = [
    Cell {
        x: 5,
        y: 0,
        state: 2,
    },
    Cell {
        x: 9,
        y: -9,
        state: 1,
    },
];

/// An area with one cell of the board.
const AREA: Rect = Rect {
    x: -2,
    y: 0,
    width: 4,
    height: 3,
};

/// An area with that cell, and with one that the stroke draws as it was.
const ROW: Rect = Rect {
    x: -2,
    y: 0,
    width: 8,
    height: 1,
};

static CHANGED: [Cell; 2] = [
    Cell {
        x: 9,
        y: -9,
        state: 1,
    },
    Cell {
        x: 0,
        y: 0,
        state: 0,
    },
];

fn stamp(counter: u64) -> Result<Stamp, EditFault> {
    Stamp::new(counter, 1).ok_or(EditFault::Nothing)
}

fn stroke(alloc: Global, counter: u64, cells: &[Cell]) -> Result<Edit, EditFault> {
    let rule = Rule::parse(b"/2/3").or(Err(EditFault::Nothing))?;
    Edit::cells(alloc, &rule, stamp(counter)?, cells)
}

fn draw(plane: &mut Plane, edit: &Edit) -> Result<(), StoreFault> {
    let part = plane.add_overwritten(plane.root().part(), edit)?;
    plane.set_root(part);
    Ok(())
}

#[test]
fn tells_clears_and_a_stroke(rt: HostRuntime) -> Result<(), Fail> {
    let alloc = rt.alloc();
    let mut plane = Plane::of_edit(alloc, &stroke(alloc, 1, &BOARD)?)?;
    let edits = [
        Edit::clear(alloc, stamp(2)?, AREA)?,
        Edit::clear(alloc, stamp(3)?, ROW)?,
        stroke(alloc, 4, &STROKE)?,
    ];
    let watched = Watched::of_edits(alloc, &plane, &edits)?;
    for edit in &edits {
        draw(&mut plane, edit)?;
    }
    assert!(rt; watched.changes(alloc, &plane)?.as_slice() == &CHANGED[..]);
    Ok(())
}

#[test]
fn tells_what_another_map_changes(rt: HostRuntime) -> Result<(), Fail> {
    let alloc = rt.alloc();
    let mut plane = Plane::of_edit(alloc, &stroke(alloc, 1, &BOARD)?)?;
    let edit = stroke(alloc, 3, &STROKE)?;
    let watched = Watched::of_planes(&plane, &Plane::of_edit(alloc, &edit)?)?;
    draw(&mut plane, &edit)?;
    assert!(rt; watched.changes(alloc, &plane)?.as_slice() == &CHANGED[..1]);
    Ok(())
}
