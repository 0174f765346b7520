//! A client at a board in memory.

use board_client::Server;
use client_commands::{ClientCommand, Dictation, Heard};
use client_session::{Client, CommandFault, Telling};
use keyed_hash::HashKey;
use memory_board::{Replies, Requests, Shared, line_to};
use std::alloc::Global;
use std::time::Clock;

/// A client at a board in memory.
pub type Guest<'a, C> = Client<'a, C, Replies, Requests>;

/// Joins a board at a seat, from 1.
pub fn join<'a, C: Clock>(
    clock: &'a C,
    alloc: Global,
    board: &Shared,
    number: u16,
    telling: Telling,
) -> Result<Guest<'a, C>, CommandFault> {
    let server = Server::new(clock, alloc, line_to(alloc, board, number)?);
    match Client::join(server, telling, HashKey::fixed()) {
        Ok(client) => Ok(client),
        Err(unjoined) => Err(unjoined.fault()),
    }
}

/// The command of some lines, each heard once more where memory is refused.
pub fn command_of(alloc: Global, lines: &[&[u8]]) -> Option<ClientCommand> {
    let mut dictation = Dictation::new(alloc);
    for line in lines {
        if let Heard::Command(command) = again!(_, dictation.hear(line)).ok()? {
            return Some(command);
        }
    }
    None
}
