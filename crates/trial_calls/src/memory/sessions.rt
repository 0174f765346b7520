//! Sessions over a hub in memory.

use crate::memory::engines::PAIR;
use crate::memory::rows::{
    AWAIT, BYE, Body, EXPORT, FAULTY, HELLO, MANY, MANY_OF_TWO, PIECES, POLL_BOTH, POLL_ONE,
    POLL_PLANE, POLL_TWO, PUSH_ONE, PUSH_OTHER, PUSH_STATE, PUSH_TWO, PUSH_UNSTAMPED, Row, WHOLE,
};
use crate::memory::{Verdict, behind, exports, planes, serving, states, tell};
use frame_service::Reply;
use generations_rule::Rule;
use memory_hub::MemoryHub;
use message_frames::Framed;
use pattern_cells::Cell;
use replica_sessions::Session;
use session_hub::Hub;
use std::alloc::Global;
use std::io;
use std::thread::Threads;

/// A live cell at the origin.
const ONE: [Cell; 1] = cells![(0, 0, 1)];

/// Requests that are answered over a plane of some cells.
static ASKED: [(&str, &[Cell], Row); 9] = [
    ("Hello", &ONE, HELLO),
    ("Whole", &ONE, WHOLE),
    ("Await", &ONE, AWAIT),
    ("Pieces", &ONE, PIECES),
    ("Export", &ONE, EXPORT),
    ("Many", &ONE, MANY),
    ("Many of two cells", &PAIR, MANY_OF_TWO),
    ("Bye", &ONE, BYE),
    ("no request", &ONE, FAULTY),
];

/// A push, and what else is pushed, which is refused; the session answers as ever then.
static PUSHED: [Row; 5] = [PUSH_ONE, PUSH_OTHER, PUSH_UNSTAMPED, PUSH_STATE, HELLO];

/// Polls behind one that found no memory.
static BOTH: [Row; 1] = [POLL_BOTH];

static PLANE_FIRST: [Row; 2] = [POLL_PLANE, POLL_TWO];

/// Requests over a hub in memory, services, and many exports.
pub fn tell_all<R: Threads + Sync + Print + Drop + Copy>(rt: R, alloc: Global) -> io::Result<()> {
    for (call, cells, row) in &ASKED {
        tell(&rt, "sessions", call, is_answered(rt, alloc, cells, row))?;
    }
    let answers = [
        ("Push", pushes(rt, alloc)),
        ("Poll of edits", polls(rt, alloc)),
        ("Poll of a plane", polls_plane(rt, alloc)),
        (
            "serve of a push",
            serving::serves(rt, alloc, &serving::PUSH),
        ),
        (
            "serve of no push",
            serving::serves(rt, alloc, &serving::ASK),
        ),
        ("export_many by one worker", exports::exports(&rt, alloc, 1)),
        ("export_many by two", exports::exports(&rt, alloc, 2)),
        ("export and cut by tiles", exports::by_tiles(alloc)),
    ];
    for (call, is_meant) in answers {
        tell(&rt, "sessions", call, is_meant)?;
    }
    Ok(())
}

/// A session of seat 1 under `/2/3` over a plane of these cells, with so many edits said to be behind it.
fn session_of<R: Threads + Sync + Drop>(
    rt: R,
    alloc: Global,
    cells: &[Cell],
    behind: u64,
) -> Option<Session<MemoryHub, R>> {
    let rule = Rule::parse(b"/2/3").ok()?;
    let plane = planes::plane(alloc, &rule, cells)?;
    Some(Session::new(rt, alloc, MemoryHub::new(alloc, rule, 1, plane, behind)))
}

/// The same of one cell.
pub fn session<R: Threads + Sync + Drop>(
    rt: R,
    alloc: Global,
    behind: u64,
) -> Option<Session<MemoryHub, R>> {
    session_of(rt, alloc, &ONE, behind)
}

fn is_body(frame: &Framed, body: &Body) -> bool {
    let bytes = frame.as_body();
    match body {
        Body::Bytes(expected) => bytes == *expected,
        Body::StateBehind(front) => match behind(bytes, front) {
            Some(state) => is_of_one_cell(state),
            None => false,
        },
    }
}

/// Whether a text is the state of the plane whose origin has state 1 by stamp 65537.
fn is_of_one_cell(text: &[u8]) -> bool {
    match behind(text, b"GLWS\x02\x04/2/3\0\0\0\x1d") {
        Some(entries) => entries == states::entries(b"\0\0\0\0\0\x01\0\x01\x01").as_slice(),
        None => false,
    }
}

/// Whether a body says that there was no memory.
fn is_want(frame: &Framed) -> bool {
    frame.as_body() == [255].as_slice()
}

/// How the frames meet the bodies, one by one.
fn met_bodies(frames: &[Framed], bodies: &[Body]) -> Verdict {
    if frames.len() != bodies.len() {
        return Verdict::Neither;
    }
    let mut met = Verdict::Meant;
    for (frame, body) in frames.iter().zip(bodies) {
        met = met.beside(is_want(frame), is_body(frame, body));
    }
    met
}

fn met(reply: &Reply, row: &Row) -> Verdict {
    let is_last = row.request == [6].as_slice();
    match reply.frames.as_slice() {
        [frame] if is_want(frame) => Verdict::Want,
        frames if reply.last == is_last => met_bodies(frames, row.bodies),
        _ => Verdict::Neither,
    }
}

/// How a request is answered once.
fn asked_once<H: Hub, R: Threads + Sync + Drop>(session: &mut Session<H, R>, row: &Row) -> Verdict {
    match session.answer(row.request) {
        Ok(reply) => met(&reply, row),
        Err(_) => Verdict::Want,
    }
}

/// Whether a request is answered by its row, at the second time where there was no memory.
fn asked<H: Hub, R: Threads + Sync + Drop>(session: &mut Session<H, R>, row: &Row) -> bool {
    match asked_once(session, row) {
        Verdict::Want => asked_once(session, row) == Verdict::Meant,
        verdict => verdict == Verdict::Meant,
    }
}

/// Whether requests of a session are answered as they are meant to be.
pub fn are_asked<H: Hub, R: Threads + Sync + Drop>(
    session: &mut Session<H, R>,
    rows: &[Row],
) -> bool {
    for row in rows {
        if !asked(session, row) {
            return false;
        }
    }
    true
}

/// Whether a request of a session of its own is answered.
fn is_answered<R: Threads + Sync + Drop>(rt: R, alloc: Global, cells: &[Cell], row: &Row) -> bool {
    match session_of(rt, alloc, cells, 0) {
        Some(mut session) => asked(&mut session, row),
        None => false,
    }
}

/// Whether pushes are answered, of which the hub took one.
fn pushes<R: Threads + Sync + Drop>(rt: R, alloc: Global) -> bool {
    let Some(mut session) = session(rt, alloc, 0) else {
        return false;
    };
    are_asked(&mut session, &PUSHED) && session.into_hub().fresh() == 1
}

/// Polls, pushes an edit and polls again: where the first poll wants memory, the second gives what both
/// would.
fn polls_by<R: Threads + Sync + Drop>(
    session: &mut Session<MemoryHub, R>,
    first: &Row,
    wanted: &[Row],
) -> bool {
    let verdict = asked_once(session, first);
    if !asked(session, &PUSH_TWO) {
        return false;
    }
    match verdict {
        Verdict::Meant => asked(session, &POLL_TWO),
        Verdict::Want => are_asked(session, wanted),
        _ => false,
    }
}

/// Pushes an edit, polls, pushes another and polls.
fn polls<R: Threads + Sync + Drop>(rt: R, alloc: Global) -> bool {
    match session(rt, alloc, 0) {
        Some(mut session) => {
            asked(&mut session, &PUSH_ONE) && polls_by(&mut session, &POLL_ONE, &BOTH)
        }
        None => false,
    }
}

/// Polls a hub that hands out its plane once: the plane comes before the edit.
fn polls_plane<R: Threads + Sync + Drop>(rt: R, alloc: Global) -> bool {
    match session(rt, alloc, 1025) {
        Some(mut session) => polls_by(&mut session, &POLL_PLANE, &PLANE_FIRST),
        None => false,
    }
}
