//! Sessions that poll late, of 1,025 edits on one board.

ghost use Rattle.std.specs.Prelude.{◌≡◌};
ghost use Rattle.std.specs.Arc.{arc_value};

use crate::boards::{Summary, begin_relaying, summed};
use crate::dialogues::answered;
use crate::seats::{SeatSession, closed, sessions};
use crate::texts::told_frame;
use delta_exchange::read;
use frame_service::Reply;
use generations_rule::Rule;
use message_frames::Framed;
use relay_board::{Naming, Opened, start};
use stamped_tree::Plane;
use std::alloc::{AllocError, Global};
use std::marker::Brand;
use std::sync::Wait;
use std::test::Fail;
use std::thread::Threads;

/// How many edits are pushed; a poll hands out the last 1,024 of them at most.
const EDITS: u16 = 1025;

/// The delta of seat 1's edit with a counter, which writes state 1 at that column of row 0.
fn delta(alloc: Global, counter: u16) -> Result<String, AllocError> {
    format!(in alloc;
        "474c574401042f322f33000000010000{counter:08x}000100000000014000{counter:04x}4000000001"
    )
}

/// Whether the edits of all counters from one to another are pushed.
fn pushed<J: Naming, R: Threads + Wait + Drop + Sync>(
    alloc: Global,
    session: &mut SeatSession<J, R>,
    first: u16,
    last: u16,
) -> Result<bool, AllocError> {
    for counter in first..last.saturating_add(1) {
        let request = format!(in alloc; "02{}", delta(alloc, counter)?)?;
        if answered(alloc, session, &request)?.as_str() != "00000001 00" {
            return Ok(false);
        }
    }
    Ok(true)
}

/// What a poll gives.
#[derive(Clone, Copy, Debug, PartialEq, Eq)]
enum Polled {
    /// Edits from this counter on, so many of them.
    Edits(u16, usize),
    /// A plane with so many cells, each of that column's edit.
    Whole(usize),
    Other,
}

/// Whether frames are the deltas of all counters from one on.
fn are_deltas(alloc: Global, frames: &[Framed], first: u16) -> Result<bool, AllocError> {
    let mut counter = first;
    for frame in frames {
        let expected = format!(in alloc; "00000024 {}", delta(alloc, counter)?)?;
        if told_frame(alloc, frame.as_frame())?.as_str() != expected.as_str() {
            return Ok(false);
        }
        counter = counter.wrapping_add(1);
    }
    Ok(true)
}

/// How many of the columns from 1 on have the write of their edit, up to the first that has not.
fn columns(plane: &Plane) -> usize {
    let mut columns = 0_usize;
    for counter in 1..EDITS + 1 {
        let write = plane.get(i32::from(counter), 0);
        if write.stamp != u64::from(counter) * 65536 + 1 || write.state != 1 {
            break;
        }
        columns = columns.wrapping_add(1);
    }
    columns
}

/// The plane of a state under `/2/3`, where it has no cells but those of its columns.
fn state_of(alloc: Global, text: &[u8]) -> Result<Polled, Fail> {
    let rule = Rule::parse(b"/2/3")?;
    let message = read(alloc, &rule, text)?;
    let Some(plane) = message.plane() else {
        return Ok(Polled::Other);
    };
    let columns = columns(plane);
    let is_all = plane.walk()?.len() == columns;
    Ok(if is_all {
        Polled::Whole(columns)
    } else {
        Polled::Other
    })
}

/// What a poll's reply gives, where its edits begin with this counter.
fn told(alloc: Global, reply: &Reply, first: u16) -> Result<Polled, Fail> {
    let Some((head, frames)) = reply.frames.as_slice().split_first() else {
        return Ok(Polled::Other);
    };
    match (head.as_body(), frames) {
        ([0, 255, 255, 255, 255], [frame]) => state_of(alloc, frame.as_body()),
        ([0, 0, 0, high, low], frames) => {
            let count = usize::from(u16::from_be_bytes([*high, *low]));
            let is_right = frames.len() == count && are_deltas(alloc, frames, first)?;
            Ok(if is_right {
                Polled::Edits(first, count)
            } else {
                Polled::Other
            })
        }
        _ => Ok(Polled::Other),
    }
}

fn poll<J: Naming, R: Threads + Wait + Drop + Sync>(
    alloc: Global,
    session: &mut SeatSession<J, R>,
    first: u16,
) -> Result<Polled, Fail> {
    let reply = session.answer(&[3])?;
    told(alloc, &reply, first)
}

/// What seat 2 gets behind the first edit and behind the last, and seat 3 behind the last, each once more.
fn polls<J: Naming, R: Threads + Wait + Drop + Sync>(
    alloc: Global,
    sessions: &mut [SeatSession<J, R>],
) -> Result<[Polled; 5], Fail> {
    let [one, two, three] = sessions else {
        return Err(Fail::from("three sessions"));
    };
    if !pushed(alloc, one, 1, 1)? {
        return Ok([Polled::Other; 5]);
    }
    let early = poll(alloc, two, 1)?;
    if !pushed(alloc, one, 2, EDITS)? {
        return Ok([Polled::Other; 5]);
    }
    Ok([
        early,
        poll(alloc, two, 2)?,
        poll(alloc, three, 1)?,
        poll(alloc, two, 0)?,
        poll(alloc, three, 0)?,
    ])
}

/// The same, and what the board comes to.
fn late<J: Naming + Send + 'static, R: Threads + Wait + Copy + Drop + Send + Sync + 'static>(
    rt: R,
    alloc: Global,
    opened: Opened<R>,
) -> Result<([Polled; 5], Summary), Fail>
    requires origin { opened.publisher.origin ≡ J.origin }
    requires inbox { (arc_value opened.drain.queue).table.shared.table_id ≡ J.inbox }
{
    let (relay, seats) = opened.named::<J>()?;
    let relaying = begin_relaying(rt, alloc, relay)?;
    let mut sessions = sessions(rt, alloc, seats)?;
    let polls = polls(alloc, &mut sessions)?;
    Ok((polls, summed(&closed(rt, alloc, relaying, sessions)?)))
}

/// All edits of seat 1, the first of which is no longer kept.
const ALL: Summary = Summary {
    before: 1,
    published: 1024,
    accepted: 1025,
    origin: (0, 0),
};

#[test]
fn who_is_1025_edits_behind_gets_a_plane(rt: HostRuntime) -> Result<(), Fail> {
    let rule = Rule::parse(b"/2/3")?;
    let opened = start(rt, rt.alloc(), rule, 3, 2)?;
    let (polls, board) = late::<Brand, _>(rt, rt.alloc(), opened)?;
    assert_eq!(rt;
        polls,
        [
            Polled::Edits(1, 1),
            Polled::Edits(2, 1024),
            Polled::Whole(1025),
            Polled::Edits(0, 0),
            Polled::Edits(0, 0),
        ]
    );
    assert_eq!(rt; board, ALL);
    Ok(())
}
