//! Pastes and clears at replicas.

use crate::acts::{AROUND, Act, BRIANS_BRAIN, Case, comes_so};
use edit_stamps::{EditFault, Rect};
use replica_core::Fault;

static COPIED: Case = Case {
    rule: BRIANS_BRAIN,
    number: 1,
    acts: &[
        (Act::DrawBoth((0, 0, 1), (1, 0, 1)), Ok((65537, 0))),
        (Act::Copy(0, 0), Ok((131073, 2))),
    ],
    noted: 2,
    places: AROUND,
    shown: [(131073, 1), (131073, 0), (0, 0), (0, 0)],
};

#[test]
fn copies_dead_cells_too(rt: HostRuntime) {
    assert!(rt; comes_so(rt.alloc(), &COPIED) == Ok(true));
}

static ORED: Case = Case {
    rule: BRIANS_BRAIN,
    number: 1,
    acts: &[
        (Act::DrawBoth((0, 0, 1), (1, 0, 1)), Ok((65537, 0))),
        (Act::Or(0, 0), Ok((131073, 0))),
    ],
    noted: 2,
    places: AROUND,
    shown: [(131073, 1), (65537, 1), (0, 0), (0, 0)],
};

#[test]
fn ors_live_cells_alone(rt: HostRuntime) {
    assert!(rt; comes_so(rt.alloc(), &ORED) == Ok(true));
}

const CORNER: Rect = Rect {
    x: -4,
    y: -4,
    width: 5,
    height: 9,
};

static CLEARED: Case = Case {
    rule: BRIANS_BRAIN,
    number: 1,
    acts: &[
        (Act::DrawBoth((0, 0, 1), (1, 0, 1)), Ok((65537, 0))),
        (Act::Clear(CORNER), Ok((131073, 5))),
    ],
    noted: 2,
    places: [(0, 0), (1, 0), (-4, 4), (-4, 5)],
    shown: [(131073, 0), (65537, 1), (131073, 0), (0, 0)],
};

#[test]
fn clears_an_area(rt: HostRuntime) {
    assert!(rt; comes_so(rt.alloc(), &CLEARED) == Ok(true));
}

const TOO_WIDE: Rect = Rect {
    x: 0,
    y: 0,
    width: 0x4000_0001,
    height: 1,
};

const WITHOUT_CELLS: Rect = Rect {
    x: 0,
    y: 0,
    width: 0,
    height: 3,
};

/// A copy and an or that leave the plane, and clears of too much and of nothing.
static REFUSED: Case = Case {
    rule: BRIANS_BRAIN,
    number: 1,
    acts: &[
        (Act::DrawBoth((0, 0, 1), (1, 0, 1)), Ok((65537, 0))),
        (
            Act::Copy(0x3fff_ffff, 0),
            Err(Fault::Edit(EditFault::OutOfPlane)),
        ),
        (
            Act::Or(0, i32::MAX),
            Err(Fault::Edit(EditFault::OutOfPlane)),
        ),
        (
            Act::Clear(TOO_WIDE),
            Err(Fault::Edit(EditFault::OutOfPlane)),
        ),
        (
            Act::Clear(WITHOUT_CELLS),
            Err(Fault::Edit(EditFault::Nothing)),
        ),
    ],
    noted: 1,
    places: AROUND,
    shown: [(65537, 1), (65537, 1), (0, 0), (0, 0)],
};

#[test]
fn refusals_leave_all_as_it_was(rt: HostRuntime) {
    assert!(rt; comes_so(rt.alloc(), &REFUSED) == Ok(true));
}
