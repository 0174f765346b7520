//! Texts that are opened: what is drawn of them, and what is refused.

use crate::clients::{Guest, cell, join, told};
use crate::plays::{A, Act, Party, Step, play};
use crate::refusals::asked;
use crate::texts::{Text, replica, state_by};
use client_session::{Outcome, Telling};
use client_tasks::open;
use memory_board::{MemoryBoard, Shared, line_to};
use std::alloc::Global;
use std::process::Abort;
use std::test::Fail;
use std::time::Clock;

/// Three columns, the middle one dead, at a position of its own.
const PATTERN: &[u8] = b"#CXRLE Pos=5,-6 Gen=7\nx = 3, y = 1, rule = 23/3/2\nA.B!\n";

static AT_ITS_POSITION: [Step; 5] = [
    Step::Does(A, Act::Dot(6, -6, 1, Outcome::Drawn)),
    Step::Does(A, Act::Open(Text::Bytes(PATTERN), Outcome::Drawn)),
    Step::Does(A, Act::Obey("show 6 -6")),
    Step::Does(A, Act::Obey("export 0")),
    Step::Does(
        A,
        Act::Told(
            "joined 1 /2/3\ndrawn 1 1\nnow 6 -6 1\ndrawn 2 1\nnow 5 -6 1 7 -6 2\ncell 1 1 1\n\
            #CXRLE Pos=5,-6 Gen=0\nx = 3, y = 1, rule = /2/3\n2AB!\n",
        ),
    ),
];

#[test]
fn a_pattern_is_drawn_at_its_position(rt: HostRuntime) -> Result<(), Fail> {
    play(&rt, rt.alloc(), &[Telling::Changes], &AT_ITS_POSITION)
}

/// 1 at 0 0 and 0 1, 2 at 1 0, under another rule.
const MACROCELL: &[u8] = b"[M2] (golly 3.3)\n#R 345/2/4\n#G 5\n1 0 0 1 2\n1 1 0 0 0\n2 0 1 0 2\n";

static OF_A_MACROCELL: [Step; 4] = [
    Step::Does(A, Act::Dot(0, 0, 2, Outcome::Drawn)),
    Step::Does(A, Act::Open(Text::Bytes(MACROCELL), Outcome::Drawn)),
    Step::Does(A, Act::Obey("export 0")),
    Step::Does(
        A,
        Act::Told(
            "joined 1 /2/3\ndrawn 1 1\nnow 0 0 2\ndrawn 2 1\nnow 0 0 1 1 0 2 0 1 1\n\
            #CXRLE Pos=0,0 Gen=0\nx = 2, y = 2, rule = /2/3\nAB$A!\n",
        ),
    ),
];

#[test]
fn a_macrocell_is_drawn(rt: HostRuntime) -> Result<(), Fail> {
    play(&rt, rt.alloc(), &[Telling::Changes], &OF_A_MACROCELL)
}

static BOTH_VERSIONS: [Step; 5] = [
    Step::Does(A, Act::Open(Text::First, Outcome::Drawn)),
    Step::Does(A, Act::Obey("show 0 0")),
    Step::Does(A, Act::Open(Text::Cell(1, -7, 8), Outcome::Drawn)),
    Step::Does(A, Act::Obey("show -7 8")),
    Step::Does(
        A,
        Act::Told("joined 1 /2/3\ndrawn 2 1\ncell 1 2 1\ndrawn 3 1\ncell 1 3 1\n"),
    ),
];

#[test]
fn states_of_both_versions_are_drawn(rt: HostRuntime) -> Result<(), Fail> {
    assert!(rt; state_by(rt.alloc(), 1, -7, 8)?.starts_with(b"GLWS\x02\x04/2/3"));
    play(&rt, rt.alloc(), &[Telling::Edits], &BOTH_VERSIONS)
}

static ABOVE_THE_FILE: [Step; 2] = [
    Step::Does(A, Act::Dot(0, 0, 1, Outcome::Drawn)),
    Step::Does(A, Act::Open(Text::Cell(70, 1, 0), Outcome::Drawn)),
];

/// Behind a cell that is drawn with a counter above 99.
static ABOVE_THE_BOARD: [Step; 3] = [
    Step::Does(A, Act::Open(Text::Cell(70, 2, 0), Outcome::Drawn)),
    Step::Does(A, Act::Open(Text::Bytes(PATTERN), Outcome::Drawn)),
    Step::Does(
        A,
        Act::Told("joined 1 /2/3\ndrawn 1 1\ndrawn 71 1\ndrawn 100 1\ndrawn 101 1\ndrawn 102 1\n"),
    ),
];

#[test]
fn counters_are_above_those_of_the_file_and_of_the_board(rt: HostRuntime) -> Result<(), Fail> {
    let mut party = Party::join(&rt, rt.alloc(), &[Telling::Edits])?;
    party.play(&rt, &ABOVE_THE_FILE)?;
    let a = party.clients.get_mut(A).ok_or("client")?;
    a.draw(99, &cell(rt.alloc(), 0, 0, 2)?)?;
    party.play(&rt, &ABOVE_THE_BOARD)
}

/// A text that is refused, and what is printed of it.
struct Refused {
    text: &'static [u8],
    told: &'static str,
    /// How many polls are made.
    polls: u32,
}

static REFUSED: [Refused; 14] = [
    Refused {
        text: b"hello\n",
        told: "refused 4 Header\n",
        polls: 0,
    },
    Refused {
        text: b"",
        told: "refused 4 Header\n",
        polls: 0,
    },
    // the text of edits is no board
    Refused {
        text: b"GLWD\x01\x04/2/3\0\0\0\0",
        told: "refused 4 Header\n",
        polls: 0,
    },
    Refused {
        text: b"GLWS\x02\x06345/2/4\0\0\0\0\0\0\0\0\0\0\0\0",
        told: "refused 16 OtherRule\n",
        polls: 0,
    },
    Refused {
        text: b"GLWS\x03\x04/2/3\0\0\0\0\0\0\0\0\0\0\0\0",
        told: "refused 15 Version\n",
        polls: 0,
    },
    Refused {
        text: b"GLWS\x02\x04/2/3\0\0\0\0\0\0\0\0\0\0\0",
        told: "refused 17 Short\n",
        polls: 0,
    },
    // macrocells
    Refused {
        text: b"[M2]\n1 0 a",
        told: "refused 5 Tag 9\n",
        polls: 0,
    },
    Refused {
        text: b"[M2]\n1 0 0 0 1\n2 0 1 0 2\n",
        told: "refused 44 Square 23\n",
        polls: 0,
    },
    Refused {
        text: b"[M2]\n1 1 0 0 3\n",
        told: "refused 11 StateRange\n",
        polls: 0,
    },
    // 2^26 cells
    Refused {
        text: b"[M2]\n1 1 1 1 1\n2 1 1 1 1\n3 2 2 2 2\n4 3 3 3 3\n5 4 4 4 4\n6 5 5 5 5\n7 6 6 6 6\n\
            8 7 7 7 7\n9 8 8 8 8\n10 9 9 9 9\n11 10 10 10 10\n12 11 11 11 11\n13 12 12 12 12\n",
        told: "refused 23 TooManyCells\n",
        polls: 0,
    },
    // no cell
    Refused {
        text: b"[M2]\n#R /2/3\n",
        told: "refused 9 Nothing\n",
        polls: 1,
    },
    // nothing was written
    Refused {
        text: b"GLWS\x02\x04/2/3\0\0\0\0\0\0\0\0\0\0\0\0",
        told: "refused 9 Nothing\n",
        polls: 1,
    },
    Refused {
        text: b"#CXRLE Pos=1073741823,0\nx = 2, y = 1\n2A!",
        told: "refused 10 OutOfPlane\n",
        polls: 1,
    },
    Refused {
        text: b"x = 2, y = 1\nAC!",
        told: "refused 11 StateRange\n",
        polls: 1,
    },
];

/// Opens a text that is refused.
fn open_refused<R: Abort + Clock>(
    rt: &R,
    board: &Shared,
    client: &mut Guest<'_, R>,
    row: &Refused,
) -> Result<(), Fail> {
    let (polls, _) = asked(board)?;
    let outcome = open(client, row.text);
    assert_eq!(rt; outcome, Ok(Outcome::Refused), "{}", row.told);
    assert_eq!(rt; told(client)?.as_str(), row.told);
    let polls = polls.saturating_add(row.polls);
    assert_eq!(rt; asked(board)?, (polls, 0), "{}", row.told);
    Ok(())
}

#[test]
fn texts_that_are_refused(rt: HostRuntime) -> Result<(), Fail> {
    let alloc = rt.alloc();
    let board = MemoryBoard::shared(alloc, 1)?;
    let mut a = join(&rt, alloc, line_to(alloc, &board, 1)?, Telling::Edits)?;
    told(&mut a)?;
    for row in &REFUSED {
        open_refused(&rt, &board, &mut a, row)?;
    }
    Ok(())
}

/// The state of a board whose cells are all dead again.
fn cleared(alloc: Global) -> Result<Vec<u8>, Fail> {
    let mut replica = replica(alloc, b"/2/3")?;
    replica.draw(cell(alloc, 0, 0, 1)?)?;
    replica.draw(cell(alloc, 0, 0, 0)?)?;
    Ok(replica.state()?)
}

static NOTHING: [Step; 3] = [
    Step::Does(A, Act::Told("joined 1 /2/3\nrefused 9 Nothing\n")),
    Step::Polls(2),
    Step::Pushes(0),
];

#[test]
fn a_cleared_board_has_nothing_to_draw(rt: HostRuntime) -> Result<(), Fail> {
    let mut party = Party::join(&rt, rt.alloc(), &[Telling::Edits])?;
    let a = party.clients.get_mut(A).ok_or("client")?;
    let outcome = open(a, &cleared(rt.alloc())?);
    assert_eq!(rt; outcome, Ok(Outcome::Refused));
    party.play(&rt, &NOTHING)
}
