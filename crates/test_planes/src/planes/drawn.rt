//! Planes of random edits, read beside the edits' own lists.

use edit_stamps::{Cell, Corner, Edit, EditFault, Rect, Stamp};
use generations_rule::Rule;
use samples::{CENTRES, REACH, edit_near, next, write_by};
use stamped_tree::Plane;
use std::alloc::{AllocError, Global};
use std::test::Fail;

/// How many of the 625 places around a centre read as the edit writes them.
fn places_read(plane: &Plane, edit: &Edit, centre: Corner) -> u32 {
    let mut read = 0_u32;
    for row in 0..25_i32 {
        for column in 0..25_i32 {
            let x = centre.x.saturating_add(column).saturating_sub(REACH);
            let y = centre.y.saturating_add(row).saturating_sub(REACH);
            if plane.get(x, y) == write_by(edit, x, y) {
                read = read.saturating_add(1);
            }
        }
    }
    read
}

/// Whether a walk gives an edit's nonzero cells, in their order.
fn walks_them(alloc: Global, plane: &Plane, edit: &Edit) -> Result<bool, AllocError> {
    let mut alive: Vec<Cell> = Vec::new(alloc);
    for cell in edit.listed_cells() {
        if cell.state != 0 {
            alive.push(*cell)?;
        }
    }
    Ok(plane.walk()?.as_slice() == alive.as_slice())
}

/// Two areas around a centre that overlap.
fn areas_around(centre: Corner) -> [Rect; 2] {
    let wide = Rect {
        x: centre.x.saturating_sub(REACH),
        y: centre.y.saturating_sub(5),
        width: 19,
        height: 8,
    };
    let high = Rect {
        x: centre.x.saturating_sub(2),
        y: centre.y.saturating_sub(REACH),
        width: 7,
        height: 21,
    };
    [wide, high]
}

/// Whether a walk of two areas gives those of an edit's nonzero cells that one of them has, in their order.
fn walks_areas(
    alloc: Global,
    plane: &Plane,
    edit: &Edit,
    centre: Corner,
) -> Result<bool, AllocError> {
    let areas = areas_around(centre);
    let mut alive: Vec<Cell> = Vec::new(alloc);
    for cell in edit.listed_cells() {
        let is_in = areas.iter().any(|area| area.has(cell.x, cell.y));
        if cell.state != 0 && is_in {
            alive.push(*cell)?;
        }
    }
    let told = plane.walk_in(&areas)?;
    Ok(told.as_slice() == alive.as_slice() && plane.walk_in(&[])?.is_empty())
}

/// Whether the plane of an edit near a centre reads as the edit, walks its cells and tells its stamp.
fn reads_as_drawn(alloc: Global, edit: &Edit, centre: Corner) -> Result<bool, AllocError> {
    let plane = Plane::of_edit(alloc, edit)?;
    Ok(
        places_read(&plane, edit, centre) == 625
            && walks_them(alloc, &plane, edit)?
            && walks_areas(alloc, &plane, edit, centre)?
            && plane.greatest_stamp() == edit.stamp().number(),
    )
}

/// How many of so many random edits near a centre were drawn, and how many read as they were drawn.
fn tried(alloc: Global, centre: Corner, number: &mut u64) -> Result<(u32, u32), EditFault> {
    let (Ok(rule), Some(stamp)) = (Rule::parse(b"345/2/4"), Stamp::new(7, 3)) else {
        return Err(EditFault::Nothing);
    };
    let mut drawn = 0_u32;
    let mut right = 0_u32;
    for _ in 0..40 {
        match edit_near(alloc, &rule, stamp, centre, number) {
            Ok(edit) => {
                drawn = drawn.saturating_add(1);
                if reads_as_drawn(alloc, &edit, centre)? {
                    right = right.saturating_add(1);
                }
            }
            Err(EditFault::OutOfPlane) => {}
            Err(fault) => return Err(fault),
        }
    }
    Ok((drawn, right))
}

#[test]
fn edits_are_read_as_they_were_drawn(rt: HostRuntime) -> Result<(), Fail> {
    let mut number = 11;
    let _ = next(&mut number);
    for centre in CENTRES {
        let (drawn, right) = tried(rt.alloc(), centre, &mut number)?;
        assert!(rt; drawn >= 20 && right == drawn, "{right} of {drawn}");
    }
    Ok(())
}
