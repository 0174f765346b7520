//! What commands print.

use crate::plays::{A, Act, B, Step, play};
use client_session::{Outcome, Telling};
use edit_stamps::Rect;
use std::test::Fail;

/// The first two cells of row 0.
const TWO_CELLS: Rect = Rect {
    x: 0,
    y: 0,
    width: 2,
    height: 1,
};

static TWO_DRAW: [Step; 11] = [
    Step::Does(A, Act::Told("joined 1 /2/3\n")),
    Step::Does(A, Act::Dot(3, -4, 2, Outcome::Drawn)),
    Step::Does(A, Act::Clear(TWO_CELLS, Outcome::Drawn)),
    Step::Does(A, Act::Told("drawn 1 1\ndrawn 2 1\n")),
    Step::Does(B, Act::Dot(3, -4, 1, Outcome::Drawn)),
    Step::Does(B, Act::Poll),
    Step::Does(B, Act::Obey("show 3 -4")),
    Step::Does(
        B,
        Act::Told(
            "joined 2 /2/3\nedit 1 1 cells 3 -4 2\nedit 2 1 area 0 0 2 1 cells\ndrawn 3 2\nedits 2\ncell 1 3 2\n",
        ),
    ),
    Step::Does(A, Act::Poll),
    Step::Does(A, Act::Poll),
    Step::Does(A, Act::Told("edit 3 2 cells 3 -4 1\nedits 1\nedits 0\n")),
];

#[test]
fn two_clients_draw(rt: HostRuntime) -> Result<(), Fail> {
    play(
        &rt,
        rt.alloc(),
        &[Telling::Edits, Telling::Edits],
        &TWO_DRAW,
    )
}

const ORIGIN: Rect = Rect {
    x: 0,
    y: 0,
    width: 1,
    height: 1,
};

static CHANGES: [Step; 10] = [
    Step::Does(A, Act::Dot(1, 0, 2, Outcome::Drawn)),
    Step::Does(A, Act::Dot(0, 0, 1, Outcome::Drawn)),
    Step::Does(A, Act::Dot(0, 0, 1, Outcome::Drawn)),
    Step::Does(
        A,
        Act::Told("joined 1 /2/3\ndrawn 1 1\nnow 1 0 2\ndrawn 2 1\nnow 0 0 1\ndrawn 3 1\n"),
    ),
    Step::Does(B, Act::Clear(ORIGIN, Outcome::Drawn)),
    Step::Does(B, Act::Follow),
    Step::Does(
        B,
        Act::Told("joined 2 /2/3\nnow 0 0 1 1 0 2\ndrawn 4 2\nnow 0 0 0\n"),
    ),
    Step::Does(A, Act::Follow),
    Step::Does(A, Act::Poll),
    Step::Does(A, Act::Told("now 0 0 0\nedits 1\n")),
];

#[test]
fn cells_that_look_different(rt: HostRuntime) -> Result<(), Fail> {
    play(
        &rt,
        rt.alloc(),
        &[Telling::Changes, Telling::Changes],
        &CHANGES,
    )
}

static QUIET: [Step; 9] = [
    Step::Does(B, Act::Dot(0, 0, 1, Outcome::Drawn)),
    Step::Does(A, Act::Follow),
    Step::Does(A, Act::Obey("show 0 0")),
    Step::Does(A, Act::Poll),
    Step::HandOut(1),
    Step::Does(B, Act::Dot(1, 0, 1, Outcome::Drawn)),
    Step::Does(B, Act::Dot(2, 0, 1, Outcome::Drawn)),
    Step::Does(A, Act::Dot(3, 0, 1, Outcome::Drawn)),
    Step::Does(
        A,
        Act::Told("joined 1 /2/3\ncell 1 1 2\nedits 1\nwhole\ndrawn 4 1\n"),
    ),
];

#[test]
fn nothing_of_what_others_drew(rt: HostRuntime) -> Result<(), Fail> {
    play(&rt, rt.alloc(), &[Telling::Nothing, Telling::Edits], &QUIET)
}

/// A pattern of two cells, one of them dead.
const PATTERN: &str = "rule /2/3\nreplicas 1\npattern p\nx = 2, y = 1\nA.!\nend\n";

/// A text that is no pattern.
const FAULTY: &str = "rule /2/3\nreplicas 1\npattern q\nx = 3, y = 1\np!\nend\n";

static NAMES: [Step; 10] = [
    Step::Does(A, Act::Name(PATTERN)),
    Step::Does(A, Act::Name(FAULTY)),
    Step::Does(A, Act::Obey("copy p 5 6")),
    Step::Does(A, Act::Obey("or p 6 6")),
    Step::Does(A, Act::Obey("copy q 0 0")),
    Step::Does(
        A,
        Act::Told(
            "joined 1 /2/3\npattern p 2 1 1 0 0 0\nrefused 5 Tag 14\ndrawn 1 1\ndrawn 2 1\nrefused 38 NoPattern\n",
        ),
    ),
    Step::Does(A, Act::Obey("export 0")),
    Step::Does(
        A,
        Act::Told("#CXRLE Pos=5,6 Gen=0\nx = 2, y = 1, rule = /2/3\n2A!\n"),
    ),
    Step::Does(A, Act::Obey("export 536870913")),
    Step::Does(A, Act::Told("refused 22 GenRange\n")),
];

#[test]
fn patterns_by_name(rt: HostRuntime) -> Result<(), Fail> {
    play(&rt, rt.alloc(), &[Telling::Edits], &NAMES)
}
