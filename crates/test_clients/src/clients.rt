//! Clients of the board in memory.

use board_client::Server;
use client_commands::command_in;
use client_session::{Client, CommandFault, Outcome, Telling};
use client_tasks::{Done, carry_on, carry_out};
use edit_stamps::Cell;
use frame_line::Line;
use genedit_script::{Command, PatternName, PatternText, read_script};
use keyed_hash::HashKey;
use memory_board::{Replies, Requests};
use replica_events::{CellList, EditSpec};
use std::alloc::{AllocError, Global};
use std::test::Fail;
use std::time::Clock;

/// A client of the board in memory.
pub type Guest<'a, C> = Client<'a, C, Replies, Requests>;

/// The client at the end of a line.
pub fn join<'a, C: Clock>(
    clock: &'a C,
    alloc: Global,
    line: Line<Replies, Requests>,
    telling: Telling,
) -> Result<Guest<'a, C>, Fail> {
    let server = Server::new(clock, alloc, line);
    match Client::join(server, telling, HashKey::fixed()) {
        Ok(client) => Ok(client),
        Err(_) => Err(Fail::from("join")),
    }
}

/// Draws one cell.
pub fn dot<C: Clock>(
    client: &mut Guest<'_, C>,
    x: i32,
    y: i32,
    state: u8,
) -> Result<Outcome, CommandFault> {
    let spec = cell(client.alloc(), x, y, state)?;
    client.draw(0, &spec)
}

/// Gives the pattern of a script a name.
pub fn name<C: Clock>(client: &mut Guest<'_, C>, script: &str) -> Result<(), Fail> {
    let (name, text) = named(client.alloc(), script)?;
    client.name_pattern(name, &text)?;
    Ok(())
}

/// Carries out the command of a line, which is no block's.
pub fn obey<C: Clock>(client: &mut Guest<'_, C>, line: &str) -> Result<Done, Fail> {
    let command = command_in(client.alloc(), line.as_bytes())?.ok_or("command")?;
    Ok(carry_out(client, command, 5)?)
}

/// The same, once the server is gone.
pub fn obey_alone<C: Clock>(client: &mut Guest<'_, C>, line: &str) -> Result<Done, Fail> {
    let command = command_in(client.alloc(), line.as_bytes())?.ok_or("command")?;
    Ok(carry_on(client, command)?)
}

/// What was printed since this was asked last.
pub fn told<C: Clock>(client: &mut Guest<'_, C>) -> Result<String, Fail> {
    let out = Vec::from_slice(client.alloc(), client.printed())?;
    client.clear_printed();
    Ok(String::from_utf8(out).ok().ok_or("text")?)
}

/// One cell, to be drawn.
pub fn cell(alloc: Global, x: i32, y: i32, state: u8) -> Result<EditSpec, AllocError> {
    let cells = Vec::from_slice(alloc, &[Cell { x, y, state }])?;
    Ok(EditSpec::Cells(CellList::of_vec(cells)))
}

/// The first name and text in a script.
fn named(alloc: Global, script: &str) -> Result<(PatternName, PatternText), Fail> {
    let script = read_script(alloc, script.as_bytes()).ok().ok_or("script")?;
    for command in script.into_commands() {
        if let Command::Names(name, text) = command {
            return Ok((name, text));
        }
    }
    Err(Fail::from("no name"))
}
