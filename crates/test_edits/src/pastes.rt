//! Pastes and clears of small patterns.

use crate::told;
use edit_stamps::{
    Corner, Edit, EditFault, Rect, Stamp, are_placeable, have_states_below, placed_cells,
};
use generations_rule::Rule;
use multistate_rle::parse;
use std::alloc::{AllocError, Global};

/// A box of 3 by 2 with a live cell, a dying cell and dead ones, at a position that no paste adds.
const SMALL: &[u8] = b"#CXRLE Pos=100,200\nx = 3, y = 2\nA.B$!";

/// How a pattern is pasted.
#[derive(Clone, Copy)]
enum Mode {
    Copy,
    Or,
}

/// A paste with counter 1 at replica 1, and what is answered to it.
#[derive(Clone, Copy)]
struct Paste {
    mode: Mode,
    rule: &'static [u8],
    text: &'static [u8],
    x: i32,
    y: i32,
    answer: &'static str,
}

/// What a paste makes, if its texts stand for something.
fn pasted(alloc: Global, paste: &Paste) -> Option<Result<Edit, EditFault>> {
    let rule = Rule::parse(paste.rule).ok()?;
    let stamp = Stamp::new(1, 1)?;
    let pattern = parse(alloc, paste.text).ok()?;
    Some(match paste.mode {
        Mode::Copy => Edit::paste_copy(alloc, &rule, stamp, &pattern, paste.x, paste.y),
        Mode::Or => Edit::paste_or(alloc, &rule, stamp, &pattern, paste.x, paste.y),
    })
}

fn is_answered(alloc: Global, paste: &Paste) -> Result<bool, AllocError> {
    match pasted(alloc, paste) {
        Some(made) => told::is(alloc, made, paste.answer),
        None => Ok(false),
    }
}

const BRAIN: &[u8] = b"/2/3";

const LIFE: &[u8] = b"23/3/2";

/// A dead cell and a live one to its right.
const EDGE: &[u8] = b"x = 2, y = 1\no!";

/// A copy writes the whole box and an or the nonzero cells. A copy may leave the plane by dead cells
/// alone, where the nonzero cells still fit. Then states that the rule lacks, and boxes without cells.
static PASTES: [Paste; 8] = [
    Paste {
        mode: Mode::Copy,
        rule: BRAIN,
        text: SMALL,
        x: -1,
        y: 5,
        answer: "1 1 area -1 5 3 2, -1 5 1, 1 5 2",
    },
    Paste {
        mode: Mode::Or,
        rule: BRAIN,
        text: SMALL,
        x: -1,
        y: 5,
        answer: "1 1, -1 5 1, 1 5 2",
    },
    Paste {
        mode: Mode::Copy,
        rule: LIFE,
        text: EDGE,
        x: 0x3fff_ffff,
        y: 0,
        answer: "OutOfPlane",
    },
    Paste {
        mode: Mode::Or,
        rule: LIFE,
        text: EDGE,
        x: 0x3fff_ffff,
        y: 0,
        answer: "1 1, 1073741823 0 1",
    },
    Paste {
        mode: Mode::Or,
        rule: LIFE,
        text: EDGE,
        x: i32::MAX,
        y: 0,
        answer: "OutOfPlane",
    },
    Paste {
        mode: Mode::Copy,
        rule: LIFE,
        text: SMALL,
        x: 0,
        y: 0,
        answer: "StateRange",
    },
    Paste {
        mode: Mode::Or,
        rule: LIFE,
        text: b"x = 2, y = 1\n2.!",
        x: 0,
        y: 0,
        answer: "Nothing",
    },
    Paste {
        mode: Mode::Copy,
        rule: LIFE,
        text: b"x = 9, y = 0\n!",
        x: i32::MAX,
        y: 0,
        answer: "Nothing",
    },
];

#[test]
fn pastes(rt: HostRuntime) {
    for paste in &PASTES {
        assert_eq!(rt;
            is_answered(rt.alloc(), paste),
            Ok(true),
            "{}",
            paste.answer
        );
    }
}

/// The last of the small pattern's cells, put in place with its corner at a column of row 5, where
/// all of them can be.
fn last_placed(alloc: Global, column: i32) -> Option<(i32, i32, u8)> {
    let pattern = parse(alloc, SMALL).ok()?;
    let at = Corner::at(column, 5);
    if !are_placeable(pattern.cells(), at) {
        return None;
    }
    let placed = placed_cells(alloc, pattern.cells(), at).ok()?;
    let cell = placed.last()?;
    Some((cell.x, cell.y, cell.state))
}

/// Whether the small pattern's states are below a number.
fn is_small_below(alloc: Global, states: u16) -> bool {
    match parse(alloc, SMALL) {
        Ok(pattern) => have_states_below(states, pattern.cells()),
        Err(_) => false,
    }
}

/// Past the plane, up to the last column of 32 bits.
#[test]
fn puts_cells_in_place(rt: HostRuntime) {
    let alloc = rt.alloc();
    assert!(rt; last_placed(alloc, i32::MAX - 2) == Some((i32::MAX, 5, 2)));
    assert!(rt; last_placed(alloc, i32::MAX - 1).is_none());
    assert!(rt; is_small_below(alloc, 3) && !is_small_below(alloc, 2));
}

/// How many cells a paste at the origin under /2/3 has.
fn count(alloc: Global, mode: Mode, text: &'static [u8]) -> Option<Result<usize, EditFault>> {
    let paste = Paste {
        mode,
        rule: BRAIN,
        text,
        x: 0,
        y: 0,
        answer: "",
    };
    Some(told::count(pasted(alloc, &paste)?))
}

/// Sides of any length, and a row of as many cells as a pattern may have.
static BOUNDS: [(Mode, &[u8], Result<usize, EditFault>); 7] = [
    (Mode::Copy, b"x = 4096, y = 4096\n!", Ok(0)),
    (Mode::Copy, b"x = 1073741824, y = 1\n4097A!", Ok(4097)),
    (
        Mode::Copy,
        b"x = 1073741825, y = 1\n4097A!",
        Err(EditFault::OutOfPlane),
    ),
    (
        Mode::Copy,
        b"x = 4294967295, y = 4294967295\n!",
        Err(EditFault::OutOfPlane),
    ),
    (Mode::Or, b"x = 0, y = 0\n4097A!", Ok(4097)),
    (Mode::Copy, b"x = 0, y = 0\n1048576o!", Ok(1_048_576)),
    (Mode::Or, b"x = 0, y = 0\n1048576o!", Ok(1_048_576)),
];

#[test]
fn pastes_boxes_of_any_size(rt: HostRuntime) {
    for (mode, text, cells) in &BOUNDS {
        assert!(rt; count(rt.alloc(), *mode, text) == Some(*cells));
    }
}

/// Column, row, width and height.
type Area = (i32, i32, u32, u32);

/// Whether that is answered to a clear with counter 1 at replica 1.
fn is_cleared(alloc: Global, area: Area, answer: &str) -> Result<bool, AllocError> {
    let (x, y, width, height) = area;
    let area = Rect {
        x,
        y,
        width,
        height,
    };
    match Stamp::new(1, 1) {
        Some(stamp) => told::is(alloc, Edit::clear(alloc, stamp, area), answer),
        None => Ok(false),
    }
}

/// Areas, and what is answered to their clears.
static CLEARS: [(Area, &str); 11] = [
    ((-4, -4, 9, 9), "1 1 area -4 -4 9 9"),
    ((0, 0, 4096, 4096), "1 1 area 0 0 4096 4096"),
    ((0, 0, 0, 3), "Nothing"),
    ((0x4000_0000, 0, 0, 1), "Nothing"),
    ((0, 0, 4097, 1), "1 1 area 0 0 4097 1"),
    (
        (-0x4000_0000, -0x4000_0000, 0x8000_0000, 0x8000_0000),
        "1 1 area -1073741824 -1073741824 2147483648 2147483648",
    ),
    (
        (-0x4000_0000, -0x4000_0000, 0x8000_0001, 0x8000_0000),
        "OutOfPlane",
    ),
    (
        (-0x4000_0000, -0x4000_0000, 0x8000_0000, 0x8000_0001),
        "OutOfPlane",
    ),
    ((0, 0, u32::MAX, u32::MAX), "OutOfPlane"),
    ((0x3fff_ffff, 0, 2, 1), "OutOfPlane"),
    ((0x3fff_ffff, 0, 5000, 1), "OutOfPlane"),
];

#[test]
fn clears(rt: HostRuntime) {
    for (area, answer) in &CLEARS {
        assert!(rt;
            is_cleared(rt.alloc(), *area, answer) == Ok(true),
            "{answer}"
        );
    }
}
