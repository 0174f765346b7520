//! Areas of any size, written over cells in a plane, read beside a plain rule.

use edit_stamps::{Cell, Edit, EditFault, Rect, Stamp, Write};
use generations_rule::Rule;
use multistate_rle::parse;
use samples::{next, write_by};
use stamped_tree::Plane;
use std::alloc::Global;
use std::test::Fail;
use tree_join::join;

/// The plane's first column, and its first row.
const FIRST: i32 = -0x4000_0000;

/// The whole plane.
const WHOLE: Rect = Rect {
    x: FIRST,
    y: FIRST,
    width: 0x8000_0000,
    height: 0x8000_0000,
};

/// Live cells in the plane's corners, at its edges, in its middle and anywhere.
static CELLS: [Cell; 10] = [
    Cell {
        x: FIRST,
        y: FIRST,
        state: 1,
    },
    Cell {
        x: 0x3fff_ffff,
        y: FIRST,
        state: 2,
    },
    Cell {
        x: -1,
        y: -1,
        state: 1,
    },
    Cell {
        x: 0,
        y: 0,
        state: 2,
    },
    Cell {
        x: 7,
        y: 0,
        state: 1,
    },
    Cell {
        x: FIRST,
        y: 8,
        state: 2,
    },
    Cell {
        x: 1021,
        y: 0x3fff_fff0,
        state: 1,
    },
    Cell {
        x: -0x1234_5678,
        y: 0x0765_4321,
        state: 1,
    },
    Cell {
        x: FIRST,
        y: 0x3fff_ffff,
        state: 1,
    },
    Cell {
        x: 0x3fff_ffff,
        y: 0x3fff_ffff,
        state: 2,
    },
];

/// A stamp of replica 1.
fn stamp(counter: u64) -> Result<Stamp, EditFault> {
    Stamp::new(counter, 1).ok_or(EditFault::Nothing)
}

fn rule() -> Result<Rule, EditFault> {
    Rule::parse(b"/2/3").or(Err(EditFault::Nothing))
}

/// The edit of the cells.
fn cells(alloc: Global) -> Result<Edit, EditFault> {
    Edit::cells(alloc, &rule()?, stamp(5)?, &CELLS)
}

/// A side from 1 to 2^31, which has any number of binary digits.
fn any_side(number: &mut u64) -> u32 {
    let most = u32::MAX >> (next(number) % 32);
    let side = next(number).saturating_mul(2) % (u64::from(most) + 1);
    u32::try_from(side.saturating_add(1)).map_or(1, |side| side.min(0x8000_0000))
}

/// Where such a side begins: at the plane's first column, so that it ends at its last, or anywhere between.
fn any_start(side: u32, number: &mut u64) -> i32 {
    let most = 0x8000_0000_u32.saturating_sub(side);
    let offset = match next(number) % 3 {
        0 => 0,
        1 => most,
        _ => u32::try_from(next(number) % (u64::from(most) + 1)).unwrap_or(0),
    };
    FIRST.wrapping_add_unsigned(offset)
}

fn any_area(number: &mut u64) -> Rect {
    let width = any_side(number);
    let height = any_side(number);
    Rect {
        x: any_start(width, number),
        y: any_start(height, number),
        width,
        height,
    }
}

/// Whether a side that begins at a start has a coordinate.
fn has(start: i32, side: u32, coordinate: i32) -> bool {
    let from_start = i64::from(coordinate) - i64::from(start);
    0 <= from_start && from_start < i64::from(side)
}

/// What is in each place of the plane: what the cells' edit wrote, and the write of an area over it.
#[derive(Drop)]
struct Painted<'a> {
    cells: &'a Edit,
    area: Rect,
    write: Write,
    /// Whether a greater write stays where the area is.
    is_joined: bool,
}

impl<'a> Painted<'a> {
    fn at(&self, x: i32, y: i32) -> Write {
        let before = write_by(self.cells, x, y);
        let is_inside = has(self.area.x, self.area.width, x)
            && has(self.area.y, self.area.height, y);
        if !is_inside || self.is_joined && self.write <= before {
            return before;
        }
        self.write
    }
}

/// The coordinates just outside and just inside of both ends of a side, one in the plane, and its ends.
fn near_ends(start: i32, side: u32, number: &mut u64) -> [i32; 9] {
    let past = start.wrapping_add_unsigned(side);
    let anywhere = u32::try_from(next(number)).unwrap_or(0);
    [
        start.saturating_sub(1),
        start,
        start.saturating_add(1),
        past.saturating_sub(2),
        past.saturating_sub(1),
        past,
        FIRST.wrapping_add_unsigned(anywhere),
        FIRST,
        0x3fff_ffff,
    ]
}

/// Whether a plane reads as it should in a column, in each of the rows.
fn column_as_painted(plane: &Plane, painted: &Painted<'_>, x: i32, rows: &[i32]) -> bool {
    for y in rows {
        if plane.get(x, *y) != painted.at(x, *y) {
            return false;
        }
    }
    true
}

/// Whether a plane reads as it should near the area's sides and corners and elsewhere.
fn reads_near_ends(plane: &Plane, painted: &Painted<'_>, number: &mut u64) -> bool {
    let columns = near_ends(painted.area.x, painted.area.width, number);
    let rows = near_ends(painted.area.y, painted.area.height, number);
    for x in &columns {
        if !column_as_painted(plane, painted, *x, &rows) {
            return false;
        }
    }
    true
}

/// Whether a plane reads as it should where the cells are, and beside them.
fn reads_at_cells(plane: &Plane, painted: &Painted<'_>) -> bool {
    for cell in &CELLS {
        let beside = cell.x.saturating_add(1);
        if plane.get(cell.x, cell.y) != painted.at(cell.x, cell.y)
            || plane.get(beside, cell.y) != painted.at(beside, cell.y)
        {
            return false;
        }
    }
    true
}

/// Writes an edit over the plane's map.
fn draw(plane: &mut Plane, edit: &Edit) -> Result<(), EditFault> {
    let root = plane.root().part();
    let Ok(part) = plane.add_overwritten(root, edit) else {
        return Err(EditFault::Memory);
    };
    plane.set_root(part);
    Ok(())
}

/// Joins an edit's plane.
fn join_drawn(alloc: Global, plane: &mut Plane, edit: &Edit) -> Result<(), EditFault> {
    let drawn = Plane::of_edit(alloc, edit)?;
    join(alloc, plane, &drawn).or(Err(EditFault::Memory))
}

/// The plane of the cells with an area cleared, which is written over them or joined.
fn cleared(alloc: Global, cells: &Edit, clear: &Edit, is_joined: bool) -> Result<Plane, EditFault> {
    let mut plane = Plane::of_edit(alloc, cells)?;
    if is_joined {
        join_drawn(alloc, &mut plane, clear)?;
    } else {
        draw(&mut plane, clear)?;
    }
    Ok(plane)
}

/// Whether a clear of any area, before or after the cells, written over them or joined, reads as it should.
fn clears_any(alloc: Global, cells: &Edit, number: &mut u64) -> Result<bool, EditFault> {
    let area = any_area(number);
    let stamp = stamp(2 + next(number) % 2 * 6)?;
    let is_joined = next(number) % 2 == 0;
    let clear = Edit::clear(alloc, stamp, area)?;
    let plane = cleared(alloc, cells, &clear, is_joined)?;
    let painted = Painted {
        cells,
        area,
        write: Write {
            stamp: stamp.number(),
            state: 0,
        },
        is_joined,
    };
    Ok(reads_near_ends(&plane, &painted, number) && reads_at_cells(&plane, &painted))
}

#[test]
fn areas_of_any_size_are_cleared(rt: HostRuntime) -> Result<(), Fail> {
    let cells = cells(rt.alloc())?;
    let mut number = 29;
    let _ = next(&mut number);
    for round in 0..60_u32 {
        assert!(rt; clears_any(rt.alloc(), &cells, &mut number)?, "{round}");
    }
    Ok(())
}

/// Where the whole plane is cleared over the cells, a copy is one square.
#[test]
fn the_whole_plane_is_cleared(rt: HostRuntime) -> Result<(), Fail> {
    let clear = Edit::clear(rt.alloc(), stamp(8)?, WHOLE)?;
    let plane = cleared(rt.alloc(), &cells(rt.alloc())?, &clear, false)?;
    let copy = plane.copy()?;
    assert_eq!(rt; copy.nodes(), 1);
    let zero = Write {
        stamp: 0x8_0001,
        state: 0,
    };
    for x in [FIRST, 0, 0x3fff_ffff] {
        for y in [FIRST, 0, 0x3fff_ffff] {
            assert!(rt; copy.get(x, y) == zero && plane.get(x, y) == zero);
        }
    }
    Ok(())
}

/// A side of more than 2^31 columns, and one that begins a column too late, leave the plane.
#[test]
fn an_area_beyond_the_plane_is_refused(rt: HostRuntime) -> Result<(), Fail> {
    for (x, width) in [
        (FIRST, 0x8000_0001),
        (FIRST + 1, 0x8000_0000),
        (-1, u32::MAX),
    ] {
        let area = Rect { x, width, ..WHOLE };
        let fault = Edit::clear(rt.alloc(), stamp(8)?, area).err();
        assert_eq!(rt; fault, Some(EditFault::OutOfPlane));
    }
    Ok(())
}

/// The area of a box of 2^30 columns and two rows, and its one cell.
static WIDE: Rect = Rect {
    x: -0x2000_0000,
    y: -1,
    width: 0x4000_0000,
    height: 2,
};

/// Whether the plane of a wide paste reads as it should.
fn pastes_wide(alloc: Global, number: &mut u64) -> Result<bool, EditFault> {
    let pattern = parse(alloc, b"x = 1073741824, y = 2\n1000.A!").or(Err(EditFault::Nothing))?;
    let paste = Edit::paste_copy(alloc, &rule()?, stamp(8)?, &pattern, WIDE.x, WIDE.y)?;
    let before = cells(alloc)?;
    let plane = cleared(alloc, &before, &paste, false)?;
    let zero = Write {
        stamp: 0x8_0001,
        state: 0,
    };
    let painted = Painted {
        cells: &before,
        area: WIDE,
        write: zero,
        is_joined: false,
    };
    let cell = plane.get(-0x2000_0000 + 1000, -1);
    Ok(
        reads_near_ends(&plane, &painted, number)
            && reads_at_cells(&plane, &painted)
            && cell == Write { state: 1, ..zero }
            && plane.get(-0x2000_0000 + 1001, -1) == zero
            && plane.get(-0x2000_0000 + 1000, 0) == zero,
    )
}

#[test]
fn a_box_of_many_columns_is_pasted(rt: HostRuntime) -> Result<(), Fail> {
    let mut number = 31;
    assert!(rt; pastes_wide(rt.alloc(), &mut number)?);
    Ok(())
}
