//! Random edits written over one another in one plane, read beside a plain list of writes.

use edit_stamps::{Cell, Corner, Edit, EditFault, Rect, Stamp, Write};
use generations_rule::Rule;
use samples::{CENTRES, REACH, edit_near, next, write_by};
use stamped_tree::{Plane, StoreFault};
use std::alloc::{AllocError, Global};
use std::test::Fail;

/// How many columns and rows around a centre are read.
const SIDE: usize = 25;

/// The place of a number, row by row around a centre.
fn place(centre: Corner, number: usize) -> (i32, i32) {
    let column = (number % SIDE) as i32;
    let row = (number / SIDE % SIDE) as i32;
    (
        centre.x.saturating_add(column).saturating_sub(REACH),
        centre.y.saturating_add(row).saturating_sub(REACH),
    )
}

/// Puts an edit's writes into the list of the writes around a centre.
fn write_over(writes: &mut Vec<Write>, edit: &Edit, centre: Corner) {
    for (number, write) in writes.iter_mut().enumerate() {
        let (x, y) = place(centre, number);
        let new = write_by(edit, x, y);
        if new.stamp > 0 {
            *write = new;
        }
    }
}

/// How many places around a centre read as listed.
fn places_as_listed(plane: &Plane, writes: &[Write], centre: Corner) -> usize {
    let mut right = 0_usize;
    for (number, write) in writes.iter().enumerate() {
        let (x, y) = place(centre, number);
        if plane.get(x, y) == *write {
            right = right.saturating_add(1);
        }
    }
    right
}

/// Writes an edit over the plane's map.
fn draw(plane: &mut Plane, edit: &Edit) -> Result<(), StoreFault> {
    let root = plane.root().part();
    let part = plane.add_overwritten(root, edit)?;
    plane.set_root(part);
    Ok(())
}

/// Whether an edit was drawn over the plane, and the plane then reads as the list.
fn is_drawn_right(plane: &mut Plane, writes: &mut Vec<Write>, edit: &Edit, centre: Corner) -> bool {
    if draw(plane, edit).is_err() {
        return false;
    }
    write_over(writes, edit, centre);
    places_as_listed(plane, writes, centre) == SIDE * SIDE
}

/// A random edit near a centre. Its stamp may be below that of what it is written over.
fn random_edit(alloc: Global, centre: Corner, number: &mut u64) -> Result<Edit, EditFault> {
    let (Ok(rule), Some(stamp)) = (Rule::parse(b"345/2/4"), Stamp::new(1 + next(number) % 5, 3))
    else {
        return Err(EditFault::Nothing);
    };
    edit_near(alloc, &rule, stamp, centre, number)
}

/// How many of so many random edits near a centre were drawn over one another in a plane, and after
/// how many it read as it should.
fn tried(
    alloc: Global,
    plane: &mut Plane,
    centre: Corner,
    number: &mut u64,
) -> Result<(u32, u32), EditFault> {
    let mut writes = vec![in alloc; Write::UNWRITTEN; SIDE * SIDE]?;
    let mut drawn = 0_u32;
    let mut right = 0_u32;
    for _ in 0..40 {
        match random_edit(alloc, centre, number) {
            Ok(edit) => {
                drawn = drawn.saturating_add(1);
                if is_drawn_right(plane, &mut writes, &edit, centre) {
                    right = right.saturating_add(1);
                }
            }
            Err(EditFault::OutOfPlane) => {}
            Err(fault) => return Err(fault),
        }
    }
    Ok((drawn, right))
}

#[test]
fn edits_overwrite_what_was_there(rt: HostRuntime) -> Result<(), Fail> {
    let mut number = 17;
    let _ = next(&mut number);
    let mut plane = Plane::new(rt.alloc())?;
    for centre in CENTRES {
        let (drawn, right) = tried(rt.alloc(), &mut plane, centre, &mut number)?;
        assert!(rt; drawn >= 20 && right == drawn, "{right} of {drawn}");
    }
    Ok(())
}

/// A live cell, and a clear over it that has a lower stamp.
fn two_edits(alloc: Global) -> Result<(Edit, Edit), EditFault> {
    let (Ok(rule), Some(late), Some(early)) = (
        Rule::parse(b"/2/3"),
        Stamp::new(9, 1),
        Stamp::new(2, 1),
    ) else {
        return Err(EditFault::Nothing);
    };
    let cell = Cell {
        x: 5,
        y: -6,
        state: 1,
    };
    let area = Rect {
        x: -20,
        y: -20,
        width: 40,
        height: 30,
    };
    Ok((
        Edit::cells(alloc, &rule, late, &[cell])?,
        Edit::clear(alloc, early, area)?,
    ))
}

/// What came of two edits, one over the other, in a plane with so much room.
#[derive(Clone, Copy, Debug)]
struct Drawn {
    first: Result<(), StoreFault>,
    second: Result<(), StoreFault>,
    nodes: u32,
    /// The write at the cell.
    at_cell: Write,
    /// The write in a corner of the area.
    at_corner: Write,
}

impl Drawn {
    /// Whether each place reads as drawn as far as there was room, and there was no room left where
    /// an edit was refused.
    fn is_right(&self, room: u32) -> bool {
        let cell = Write {
            stamp: 0x9_0001,
            state: 1,
        };
        let cleared = Write {
            stamp: 0x2_0001,
            state: 0,
        };
        match (self.first, self.second) {
            (Err(StoreFault::StoreFull), Err(StoreFault::StoreFull)) => {
                self.nodes == room
                    && self.at_cell == Write::UNWRITTEN
                    && self.at_corner == Write::UNWRITTEN
            }
            (Ok(()), Err(StoreFault::StoreFull)) => {
                self.nodes == room && self.at_cell == cell && self.at_corner == Write::UNWRITTEN
            }
            (Ok(()), Ok(())) => self.at_cell == cleared && self.at_corner == cleared,
            _ => false,
        }
    }
}

fn with_room(alloc: Global, room: u32, edits: &(Edit, Edit)) -> Result<Drawn, AllocError> {
    let mut plane = Plane::with_room(alloc, room.max(1))?;
    let first = draw(&mut plane, &edits.0);
    let second = draw(&mut plane, &edits.1);
    Ok(Drawn {
        first,
        second,
        nodes: plane.nodes(),
        at_cell: plane.get(5, -6),
        at_corner: plane.get(-20, -20),
    })
}

/// How many rooms, from one square on, are too small for the second edit; nothing where a plane is not
/// as it should be. A blank, a leaf and 28 squares of four are the first edit's plane.
fn rooms_refused(alloc: Global, edits: &(Edit, Edit)) -> Result<Option<u32>, AllocError> {
    for room in 1..300 {
        let drawn = with_room(alloc, room, edits)?;
        if !drawn.is_right(room) || drawn.first.is_ok() != (room >= 30) {
            return Ok(None);
        }
        if drawn.second.is_ok() {
            return Ok(Some(room - 1));
        }
    }
    Ok(None)
}

#[test]
fn an_edit_that_finds_no_room_leaves_the_map(rt: HostRuntime) -> Result<(), Fail> {
    let edits = two_edits(rt.alloc())?;
    let refused = rooms_refused(rt.alloc(), &edits)?;
    assert!(rt; refused.is_some_and(|rooms| rooms >= 60));
    Ok(())
}
