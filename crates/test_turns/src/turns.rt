//! Patterns beside patterns that were turned by other means.

use multistate_rle::parse;
use pattern_cells::Pattern;
use pattern_turns::{Turn, turned};
use std::alloc::Global;

/// A pattern, and what it is when it is turned.
struct Row {
    turn: Turn,
    text: &'static [u8],
    turned: &'static [u8],
}

const SMALL: &[u8] = b"#CXRLE Pos=-7,5 Gen=12\nx = 3, y = 2\nA.B$2.C!";

const GLIDER: &[u8] = b"x = 3, y = 3\n.A$2.A$3A!";

/// With a row and a column at the end that are dead.
const WIDE: &[u8] = b"x = 5, y = 3\nAB2.D$.C!";

static ROWS: [Row; 15] = [
    Row {
        turn: Turn::Left,
        text: SMALL,
        turned: b"#CXRLE Pos=-7,5 Gen=12\nx = 2, y = 3\nBC$$A!",
    },
    Row {
        turn: Turn::Right,
        text: SMALL,
        turned: b"#CXRLE Pos=-7,5 Gen=12\nx = 2, y = 3\n.A$$CB!",
    },
    Row {
        turn: Turn::Half,
        text: SMALL,
        turned: b"#CXRLE Pos=-7,5 Gen=12\nx = 3, y = 2\nC$B.A!",
    },
    Row {
        turn: Turn::Mirror,
        text: SMALL,
        turned: b"#CXRLE Pos=-7,5 Gen=12\nx = 3, y = 2\nB.A$C!",
    },
    Row {
        turn: Turn::Flip,
        text: SMALL,
        turned: b"#CXRLE Pos=-7,5 Gen=12\nx = 3, y = 2\n2.C$A.B!",
    },
    Row {
        turn: Turn::Left,
        text: GLIDER,
        turned: b"x = 3, y = 3\n.2A$A.A$2.A!",
    },
    Row {
        turn: Turn::Right,
        text: GLIDER,
        turned: b"x = 3, y = 3\nA$A.A$2A!",
    },
    Row {
        turn: Turn::Half,
        text: GLIDER,
        turned: b"x = 3, y = 3\n3A$A$.A!",
    },
    Row {
        turn: Turn::Mirror,
        text: GLIDER,
        turned: b"x = 3, y = 3\n.A$A$3A!",
    },
    Row {
        turn: Turn::Flip,
        text: GLIDER,
        turned: b"x = 3, y = 3\n3A$2.A$.A!",
    },
    Row {
        turn: Turn::Left,
        text: WIDE,
        turned: b"x = 3, y = 5\nD$$$BC$A!",
    },
    Row {
        turn: Turn::Right,
        text: WIDE,
        turned: b"x = 3, y = 5\n2.A$.CB$$$2.D!",
    },
    Row {
        turn: Turn::Half,
        text: WIDE,
        turned: b"x = 5, y = 3\n$3.C$D2.BA!",
    },
    Row {
        turn: Turn::Mirror,
        text: WIDE,
        turned: b"x = 5, y = 3\nD2.BA$3.C!",
    },
    Row {
        turn: Turn::Flip,
        text: WIDE,
        turned: b"x = 5, y = 3\n$.C$AB2.D!",
    },
];

fn is_same(one: &Pattern, other: &Pattern) -> bool {
    let has_same_box = (one.width(), one.height()) == (other.width(), other.height());
    let stands_so = (one.pos(), one.generation()) == (other.pos(), other.generation());
    has_same_box && stands_so && one.cells() == other.cells()
}

/// Whether the row's pattern is what the row says when it is turned, if there is memory.
fn is_turned(alloc: Global, row: &Row) -> Option<bool> {
    let pattern = parse(alloc, row.text).ok()?;
    let want = parse(alloc, row.turned).ok()?;
    let found = turned(alloc, &pattern, row.turn).ok()?;
    Some(is_same(&found, &want))
}

#[test]
fn patterns_are_turned(rt: HostRuntime) {
    for row in &ROWS {
        assert!(rt; is_turned(rt.alloc(), row) == Some(true), "{:?}", row.turn);
    }
}
