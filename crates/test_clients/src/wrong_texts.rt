//! Texts from a board that are none, or not what was announced: they end the client, and its replica holds
//! what it took before.

use crate::clients::{Guest, dot, join, told};
use crate::texts::{replica, state_by, write_cell};
use board_client::ClientFault;
use client_session::{CommandFault, Telling};
use delta_exchange::ReadFault;
use edit_stamps::Cell;
use memory_board::{MemoryBoard, Shared, WrongPoll, line_to};
use replica_core::Fault;
use std::alloc::Global;
use std::test::Fail;

/// What a poll announces, a text of which kind it hands out under which rule, and how the client ends.
struct Wrong {
    announces_plane: bool,
    is_plane: bool,
    rule: &'static [u8],
    fault: ClientFault,
}

static WRONG: [Wrong; 4] = [
    Wrong {
        announces_plane: false,
        is_plane: true,
        rule: b"/2/3",
        fault: ClientFault::NoReply,
    },
    Wrong {
        announces_plane: true,
        is_plane: false,
        rule: b"/2/3",
        fault: ClientFault::NoReply,
    },
    Wrong {
        announces_plane: true,
        is_plane: true,
        rule: b"345/2/4",
        fault: ClientFault::Text(Fault::OtherRule),
    },
    Wrong {
        announces_plane: false,
        is_plane: false,
        rule: b"345/2/4",
        fault: ClientFault::Text(Fault::OtherRule),
    },
];

/// A text of one cell.
fn text_of(alloc: Global, wrong: &Wrong) -> Result<Vec<u8>, Fail> {
    let mut replica = replica(alloc, wrong.rule)?;
    let cell = Cell {
        x: 1,
        y: 0,
        state: 1,
    };
    write_cell(alloc, &mut replica, 5, cell)?;
    if wrong.is_plane {
        Ok(replica.state()?)
    } else {
        Ok(replica.delta(0, 1)?)
    }
}

fn answer_by(board: &Shared, announces_plane: bool, text: Vec<u8>) -> Result<(), Fail> {
    let mut board = board.try_borrow_mut().ok().ok_or("board")?;
    board.wrong_poll = Some(WrongPoll {
        announces_plane,
        text,
    });
    Ok(())
}

/// Draws the origin, and polls what is wrong: how that ends, and whether the replica holds what it did.
fn polled(
    rt: &HostRuntime,
    announces_plane: bool,
    text: Vec<u8>,
) -> Result<(Result<(), CommandFault>, bool), Fail> {
    let alloc = rt.alloc();
    let board = MemoryBoard::shared(alloc, 1)?;
    let mut a = join(rt, alloc, line_to(alloc, &board, 1)?, Telling::Changes)?;
    dot(&mut a, 0, 0, 1)?;
    answer_by(&board, announces_plane, text)?;
    let ended = a.poll();
    Ok((ended, is_as_before(&mut a)?))
}

/// Whether a client holds and told the origin alone.
fn is_as_before(client: &mut Guest<'_, HostRuntime>) -> Result<bool, Fail> {
    let replica = client.replica();
    let is_held = replica.state()? == state_behind(client.alloc(), ORIGIN)?
        && replica.journal().len() == 1;
    Ok(is_held && told(client)?.as_str() == "joined 1 /2/3\ndrawn 1 1\nnow 0 0 1\n")
}

/// The edit of seat 1 that writes state 1 at the origin, as docs/FORMATS.md says.
const ORIGIN: &[u8] =
    b"GLWD\x01\x04/2/3\0\0\0\x01\0\0\0\0\0\x01\0\x01\0\0\0\0\x01\x40\0\0\0\x40\0\0\0\x01";

/// The state of a replica that took a text.
fn state_behind(alloc: Global, text: &[u8]) -> Result<Vec<u8>, Fail> {
    let mut replica = replica(alloc, b"/2/3")?;
    replica.take_bytes(text)?;
    Ok(replica.state()?)
}

#[test]
fn texts_that_were_not_announced(rt: HostRuntime) -> Result<(), Fail> {
    for wrong in &WRONG {
        let text = text_of(rt.alloc(), wrong)?;
        let (ended, is_as_before) = polled(&rt, wrong.announces_plane, text)?;
        assert_eq!(rt; ended, Err(CommandFault::Client(wrong.fault)));
        assert!(rt; is_as_before);
    }
    Ok(())
}

/// Bytes, and how a client ends that was announced an edit.
static BYTES: [(&[u8], ClientFault); 4] = [
    (b"", ClientFault::NoReply),
    (b"GLW", ClientFault::NoReply),
    (b"x = 1, y = 1\nA!", ClientFault::NoReply),
    (
        b"GLWD\x01\x04/2/3\0\0\0\x01\0\0\0\0\0\x01",
        ClientFault::Text(Fault::Read(ReadFault::Short)),
    ),
];

#[test]
fn bytes_that_are_no_text(rt: HostRuntime) -> Result<(), Fail> {
    let alloc = rt.alloc();
    for (bytes, fault) in BYTES {
        let (ended, is_as_before) = polled(&rt, false, Vec::from_slice(alloc, bytes)?)?;
        assert_eq!(rt; ended, Err(CommandFault::Client(fault)));
        assert!(rt; is_as_before);
    }
    Ok(())
}

#[test]
fn a_text_that_was_announced_goes_on(rt: HostRuntime) -> Result<(), Fail> {
    let (ended, _) = polled(&rt, true, state_by(rt.alloc(), 9, 4, 4)?)?;
    assert_eq!(rt; ended, Ok(()));
    Ok(())
}
