//! Boards that are drawn again in more than one edit, and clocks that are too full for that.

use crate::plays::{A, Act, Step, play};
use crate::texts::Text;
use client_session::{Outcome, Telling};
use memory_board::Refusals;
use std::test::Fail;

/// The last counter but one.
const LAST_BUT_ONE: u64 = 0xffff_ffff_fffe;

static TWO_EDITS: [Step; 6] = [
    Step::Does(A, Act::Open(Text::Rows(1, 5), Outcome::Drawn)),
    Step::Polls(3),
    Step::Pushes(2),
    Step::Does(A, Act::Obey("show 1048575 0")),
    Step::Does(A, Act::Obey("show 0 1")),
    Step::Does(
        A,
        Act::Told("joined 1 /2/3\ndrawn 6 1\ndrawn 7 1\ncell 1 6 1\ncell 2 7 1\n"),
    ),
];

#[test]
fn two_edits_each_with_a_poll(rt: HostRuntime) -> Result<(), Fail> {
    play(&rt, rt.alloc(), &[Telling::Edits], &TWO_EDITS)
}

static ONE_REFUSED: [Step; 7] = [
    Step::Refuse(Refusals {
        push: 28,
        passes: 1,
        publishes: false,
        poll: 0,
    }),
    Step::Does(A, Act::Open(Text::Rows(2, 1), Outcome::Refused)),
    Step::Polls(3),
    Step::Pushes(2),
    Step::Does(A, Act::Obey("show 1048575 0")),
    Step::Does(A, Act::Obey("show 0 1")),
    Step::Does(
        A,
        Act::Told("joined 1 /2/3\ndrawn 2 1\nrefused 28 NotYours\ncell 1 2 1\ncell 0 0 0\n"),
    ),
];

#[test]
fn no_edit_behind_one_that_is_refused(rt: HostRuntime) -> Result<(), Fail> {
    play(&rt, rt.alloc(), &[Telling::Edits], &ONE_REFUSED)
}

static FULL_CLOCK: [Step; 8] = [
    Step::Does(A, Act::Open(Text::Rows(1, LAST_BUT_ONE), Outcome::Refused)),
    Step::Polls(1),
    Step::Pushes(0),
    Step::Does(A, Act::Open(Text::Cell(LAST_BUT_ONE, 0, 0), Outcome::Drawn)),
    Step::Does(
        A,
        Act::Open(Text::Cell(LAST_BUT_ONE, 0, 0), Outcome::Refused),
    ),
    Step::Does(
        A,
        Act::Open(Text::Bytes(b"x = 1, y = 1\nA!"), Outcome::Refused),
    ),
    Step::Pushes(1),
    Step::Does(
        A,
        Act::Told(
            "joined 1 /2/3\nrefused 24 ClockFull\ndrawn 281474976710655 1\n\
            refused 24 ClockFull\nrefused 24 ClockFull\n",
        ),
    ),
];

#[test]
fn no_edit_where_the_clock_has_no_room_for_all(rt: HostRuntime) -> Result<(), Fail> {
    play(&rt, rt.alloc(), &[Telling::Edits], &FULL_CLOCK)
}
