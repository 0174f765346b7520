//! Waiting for edits.

use crate::plays::{A, Act, B, Step, play};
use client_session::{Outcome, Telling};
use std::test::Fail;

static ENOUGH_OR_LATE: [Step; 10] = [
    Step::Does(B, Act::Dot(0, 0, 1, Outcome::Drawn)),
    Step::Does(A, Act::Obey("wait 1 0")),
    Step::Does(A, Act::Obey("wait 0 0")),
    Step::Does(A, Act::Obey("wait 1 0")),
    Step::Does(
        A,
        Act::Told("joined 1 /2/3\nedit 1 2 cells 0 0 1\nedits 1\nedits 0\nlate 0\n"),
    ),
    Step::Does(B, Act::Dot(1, 0, 1, Outcome::Drawn)),
    Step::Does(A, Act::Follow),
    Step::Does(A, Act::Obey("wait 2 20")),
    Step::Does(A, Act::Poll),
    Step::Does(A, Act::Told("edit 2 2 cells 1 0 1\nlate 1\nedits 0\n")),
];

#[test]
fn enough_or_late(rt: HostRuntime) -> Result<(), Fail> {
    play(
        &rt,
        rt.alloc(),
        &[Telling::Edits, Telling::Edits],
        &ENOUGH_OR_LATE,
    )
}

static WHOLE_PLANE: [Step; 8] = [
    Step::Does(B, Act::Dot(0, 0, 1, Outcome::Drawn)),
    Step::Does(A, Act::Follow),
    Step::HandOut(1),
    Step::Does(B, Act::Dot(1, 0, 1, Outcome::Drawn)),
    Step::Does(B, Act::Dot(2, 0, 1, Outcome::Drawn)),
    Step::Does(A, Act::Obey("wait 9 20")),
    Step::Does(A, Act::Poll),
    Step::Does(
        A,
        Act::Told("joined 1 /2/3\nedit 1 2 cells 0 0 1\nwhole\nedits 0\n"),
    ),
];

#[test]
fn a_whole_plane_ends_a_wait(rt: HostRuntime) -> Result<(), Fail> {
    play(
        &rt,
        rt.alloc(),
        &[Telling::Edits, Telling::Edits],
        &WHOLE_PLANE,
    )
}
