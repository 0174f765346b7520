//! Clients that go on at another connection.

use crate::clients::{Guest, dot, join, told};
use board_client::Server;
use client_session::{Before, Return, Telling};
use memory_board::{MemoryBoard, Shared, line_to};
use std::test::Fail;
use std::time::Clock;

/// Takes a client to a seat of a board; what it held before.
fn return_to<C: Clock>(
    client: &mut Guest<'_, C>,
    board: &Shared,
    seat: u16,
) -> Result<Before, Fail> {
    let alloc = client.alloc();
    let server = Server::new(client.clock(), alloc, line_to(alloc, board, seat)?);
    match client.return_to(server)? {
        Return::Joined(before) => Ok(before),
        Return::OtherRule => Err(Fail::from("rule")),
    }
}

/// At a board that began anew what the client held is not there, and is told so cell by cell.
#[test]
fn at_a_board_that_lost_all(rt: HostRuntime) -> Result<(), Fail> {
    let alloc = rt.alloc();
    let board = MemoryBoard::shared(alloc, 1)?;
    let mut a = join(&rt, alloc, line_to(alloc, &board, 1)?, Telling::Changes)?;
    dot(&mut a, 0, 0, 1)?;
    dot(&mut a, 1, 0, 2)?;
    told(&mut a)?;
    let other = MemoryBoard::shared(alloc, 2)?;
    let mut b = join(&rt, alloc, line_to(alloc, &other, 1)?, Telling::Edits)?;
    dot(&mut b, 1, 0, 2)?;
    let before = return_to(&mut a, &other, 2)?;
    assert!(rt; before.is_lost);
    assert_eq!(rt; told(&mut a)?.as_str(), "joined 2 /2/3\nnow 0 0 0\n");
    assert!(rt; a.replica().holds_same(b.replica())?);
    Ok(())
}

/// A client that comes late to a board of many edits is sent the plane.
#[test]
fn at_a_board_that_sends_its_plane(rt: HostRuntime) -> Result<(), Fail> {
    let alloc = rt.alloc();
    let board = MemoryBoard::shared(alloc, 2)?;
    let mut a = join(&rt, alloc, line_to(alloc, &board, 1)?, Telling::Edits)?;
    dot(&mut a, 0, 0, 1)?;
    told(&mut a)?;
    board.try_borrow_mut().ok().ok_or("board")?.most = 0;
    let before = return_to(&mut a, &board, 2)?;
    assert!(rt; !before.is_lost);
    assert_eq!(rt; told(&mut a)?.as_str(), "joined 2 /2/3\nwhole\n");
    dot(&mut a, 1, 0, 1)?;
    assert_eq!(rt; told(&mut a)?.as_str(), "drawn 2 2\n");
    Ok(())
}
