//! Requests of a session under `/2/3` at seat 1, and what they are answered where nothing is refused.

/// The body of a reply's frame.
#[derive(Drop)]
pub enum Body {
    Bytes(&'static [u8]),
    /// Some bytes, and the state of one cell.
    StateBehind(&'static [u8]),
}

/// A request, and the bodies of its reply.
#[derive(Drop)]
pub struct Row {
    pub request: &'static [u8],
    pub bodies: &'static [Body],
}

/// A row whose bodies are all bytes.
macro_rules! row {
    ($request:expr, $($body:expr),+) => {
        Row {
            request: $request,
            bodies: &[$(Body::Bytes($body)),+],
        }
    };
}

/// Counter 1 writes state 1 at the origin, and counter 2 beside it.
const DELTA_ONE: &[u8] =
    b"GLWD\x01\x04/2/3\0\0\0\x01\0\0\0\0\0\x01\0\x01\0\0\0\0\x01\x40\0\0\0\x40\0\0\0\x01";

const DELTA_TWO: &[u8] =
    b"GLWD\x01\x04/2/3\0\0\0\x01\0\0\0\0\0\x02\0\x01\0\0\0\0\x01\x40\0\0\x01\x40\0\0\0\x01";

pub const HELLO: Row = row!(&[1], b"\0\0\x01\x04/2/3");

/// Pushes of these deltas.
pub const PUSH_ONE: Row = row!(
    b"\x02GLWD\x01\x04/2/3\0\0\0\x01\0\0\0\0\0\x01\0\x01\0\0\0\0\x01\x40\0\0\0\x40\0\0\0\x01",
    &[0]
);

pub const PUSH_TWO: Row = row!(
    b"\x02GLWD\x01\x04/2/3\0\0\0\x01\0\0\0\0\0\x02\0\x01\0\0\0\0\x01\x40\0\0\x01\x40\0\0\0\x01",
    &[0]
);

/// Pushes of an edit of replica 2, of the same of counter 0, and of a state.
pub const PUSH_OTHER: Row = row!(
    b"\x02GLWD\x01\x04/2/3\0\0\0\x01\0\0\0\0\0\x01\0\x02\0\0\0\0\x01\x40\0\0\0\x40\0\0\0\x01",
    &[28]
);

pub const PUSH_UNSTAMPED: Row = row!(
    b"\x02GLWD\x01\x04/2/3\0\0\0\x01\0\0\0\0\0\0\0\x02\0\0\0\0\x01\x40\0\0\0\x40\0\0\0\x01",
    &[18]
);

pub const PUSH_STATE: Row = row!(b"\x02GLWS\x01\x04/2/3\0\0\0\0\0\0\0\0\0", &[33]);

/// Polls that hand out nothing, one edit, both, or the plane with one cell in place of more edits than are
/// kept.
pub const POLL_NONE: Row = row!(&[3], &[0, 0, 0, 0, 0]);

pub const POLL_ONE: Row = row!(&[3], &[0, 0, 0, 0, 1], DELTA_ONE);

pub const POLL_TWO: Row = row!(&[3], &[0, 0, 0, 0, 1], DELTA_TWO);

pub const POLL_BOTH: Row = row!(&[3], &[0, 0, 0, 0, 2], DELTA_ONE, DELTA_TWO);

pub const POLL_PLANE: Row = Row {
    request: &[3],
    bodies: &[
        Body::Bytes(&[0, 255, 255, 255, 255]),
        Body::StateBehind(&[]),
    ],
};

/// News that are awaited for no time, and the plane in one piece, of no edit.
pub const AWAIT: Row = row!(&[8, 0, 0, 0, 0], &[0, 0, 0, 0, 0]);

pub const PIECES: Row = Row {
    request: &[11],
    bodies: &[
        Body::Bytes(&[0, 0, 0, 0, 0, 0, 0, 0, 0, 0, 0, 0, 1]),
        Body::StateBehind(&[]),
    ],
};

pub const WHOLE: Row = Row {
    request: &[4],
    bodies: &[Body::StateBehind(&[0])],
};

/// One cell is not dead at generation 0, and dies.
pub const EXPORT: Row = row!(
    &[5, 0, 0, 0, 1],
    b"\0#CXRLE Pos=0,0 Gen=1\nx = 1, y = 1, rule = /2/3\nB!\n"
);

/// Generations 1, 2^29 + 1 and 0 of that cell, and of two.
pub const MANY: Row = row!(
    &[7, 0, 3, 0, 0, 0, 1, 32, 0, 0, 1, 0, 0, 0, 0],
    &[0, 0, 3],
    b"\0#CXRLE Pos=0,0 Gen=1\nx = 1, y = 1, rule = /2/3\nB!\n",
    &[22],
    b"\0#CXRLE Pos=0,0 Gen=0\nx = 1, y = 1, rule = /2/3\nA!\n"
);

pub const MANY_OF_TWO: Row = row!(
    &[7, 0, 3, 0, 0, 0, 1, 32, 0, 0, 1, 0, 0, 0, 0],
    &[0, 0, 3],
    b"\0#CXRLE Pos=0,-1 Gen=1\nx = 2, y = 3, rule = /2/3\n2A$2B$2A!\n",
    &[22],
    b"\0#CXRLE Pos=0,0 Gen=0\nx = 2, y = 1, rule = /2/3\n2A!\n"
);

/// The farewell, the only one behind which nothing is answered.
pub const BYE: Row = row!(&[6], &[0]);

/// What is no request.
pub const FAULTY: Row = row!(&[9], &[33]);
