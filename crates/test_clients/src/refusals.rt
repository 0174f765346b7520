//! What is refused.

use crate::plays::{A, Act, B, Party, Step, play};
use client_session::{CommandFault, Outcome, Telling};
use edit_stamps::Rect;
use memory_board::{Refusals, Shared};
use replica_core::Question;
use std::test::Fail;

/// Has a board refuse so from now on.
pub fn refuse(board: &Shared, refusals: Refusals) -> Result<(), Fail> {
    board.try_borrow_mut().ok().ok_or("board")?.refusals = refusals;
    Ok(())
}

/// How many polls and pushes came.
pub fn asked(board: &Shared) -> Result<(u32, u32), Fail> {
    let board = board.try_borrow_mut().ok().ok_or("board")?;
    Ok((board.polls, board.pushes))
}

/// Pushes are refused by 28.
const NOT_YOURS: Refusals = Refusals {
    push: 28,
    ..Refusals::NONE
};

/// Pushes are refused by 29.
pub const FULL: Refusals = Refusals {
    push: 29,
    ..Refusals::NONE
};

/// Pushes are refused by 30.
pub const CLOSED: Refusals = Refusals {
    push: 30,
    ..Refusals::NONE
};

/// The same, but their edits are published.
const PUBLISHED: Refusals = Refusals {
    push: 30,
    publishes: true,
    ..Refusals::NONE
};

/// Polls are refused by 31.
pub const NO_PLACE: Refusals = Refusals {
    poll: 31,
    ..Refusals::NONE
};

/// Polls are refused by 21.
const TOO_LONG: Refusals = Refusals {
    poll: 21,
    ..Refusals::NONE
};

/// One cell wider than the half of the plane that it begins.
const TOO_WIDE: Rect = Rect {
    x: 0,
    y: 0,
    width: 1_073_741_825,
    height: 1,
};

static EDITS_AND_PUSHES: [Step; 10] = [
    Step::Does(A, Act::Clear(TOO_WIDE, Outcome::Refused)),
    Step::Does(A, Act::Dot(0, 0, 3, Outcome::Refused)),
    Step::Polls(3),
    Step::Pushes(0),
    Step::Refuse(NOT_YOURS),
    Step::Does(A, Act::Dot(0, 0, 1, Outcome::Refused)),
    Step::Polls(4),
    Step::Pushes(1),
    Step::Does(A, Act::Obey("show 0 0")),
    Step::Does(
        A,
        Act::Told(
            "joined 1 /2/3\nrefused 10 OutOfPlane\nrefused 11 StateRange\nrefused 28 NotYours\ncell 0 0 0\n",
        ),
    ),
];

#[test]
fn edits_and_pushes(rt: HostRuntime) -> Result<(), Fail> {
    play(&rt, rt.alloc(), &[Telling::Edits], &EDITS_AND_PUSHES)
}

static FULL_INBOX: [Step; 9] = [
    Step::Refuse(FULL),
    Step::Does(A, Act::Dot(0, 0, 1, Outcome::Refused)),
    Step::Polls(2),
    Step::Pushes(10),
    Step::Refuse(Refusals::NONE),
    Step::Does(A, Act::Dot(0, 0, 1, Outcome::Drawn)),
    Step::Polls(3),
    Step::Pushes(11),
    Step::Does(A, Act::Told("joined 1 /2/3\nrefused 29 Full\ndrawn 1 1\n")),
];

#[test]
fn a_full_inbox(rt: HostRuntime) -> Result<(), Fail> {
    play(&rt, rt.alloc(), &[Telling::Edits], &FULL_INBOX)
}

static CLOSED_BOARD: [Step; 9] = [
    Step::Refuse(PUBLISHED),
    Step::Does(A, Act::Dot(0, 0, 1, Outcome::InDoubt)),
    Step::Does(A, Act::Told("joined 1 /2/3\nrefused 30 Closed\n")),
    Step::Refuse(Refusals::NONE),
    Step::Does(B, Act::Dot(5, 5, 2, Outcome::Drawn)),
    Step::Does(A, Act::Dot(1, 0, 1, Outcome::Refused)),
    Step::Pushes(2),
    Step::Does(A, Act::Poll),
    Step::Does(
        A,
        Act::Told("edit 1 1 cells 0 0 1\nedit 2 2 cells 5 5 2\nrefused 30 Closed\nedits 2\n"),
    ),
];

#[test]
fn a_closed_board(rt: HostRuntime) -> Result<(), Fail> {
    play(
        &rt,
        rt.alloc(),
        &[Telling::Edits, Telling::Edits],
        &CLOSED_BOARD,
    )
}

static REFUSED_POLLS: [Step; 5] = [
    Step::Refuse(NO_PLACE),
    Step::Does(A, Act::Follow),
    Step::Does(A, Act::Dot(0, 0, 1, Outcome::Refused)),
    Step::Does(A, Act::Poll),
    Step::Does(A, Act::Obey("export 0")),
];

/// Behind the refusal of an export and of a state.
static REFUSED_STILL: [Step; 3] = [
    Step::Pushes(0),
    Step::Does(
        A,
        Act::Told(
            "joined 1 /2/3\nrefused 31 NoPlace\nrefused 31 NoPlace\nrefused 31 NoPlace\nrefused 31 NoPlace\nrefused 31 NoPlace\n",
        ),
    ),
    Step::Refuse(TOO_LONG),
];

#[test]
fn refused_polls(rt: HostRuntime) -> Result<(), Fail> {
    let mut party = Party::join(&rt, rt.alloc(), &[Telling::Edits])?;
    party.play(&rt, &REFUSED_POLLS)?;
    let a = party.clients.get_mut(A).ok_or("client")?;
    assert!(rt; a.text(Question::Export(0))?.is_none());
    assert!(rt; a.save()?.is_none());
    party.play(&rt, &REFUSED_STILL)?;
    let a = party.clients.get_mut(A).ok_or("client")?;
    assert_eq!(rt; a.follow(), Err(CommandFault::Refused(21)));
    assert_eq!(rt; a.poll(), Err(CommandFault::Refused(21)));
    Ok(())
}
