//! Plays: what the clients of a board do, step by step, and what they print.

use crate::clients::{Guest, dot, join, name, obey, told};
use crate::refusals::{asked, refuse};
use crate::texts::Text;
use client_session::{Outcome, Telling};
use client_tasks::open;
use edit_stamps::Rect;
use memory_board::{MemoryBoard, Refusals, Shared, line_to};
use replica_events::EditSpec;
use std::alloc::Global;
use std::process::Abort;
use std::test::Fail;
use std::time::Clock;

/// The places of the clients at seats 1 and 2.
pub const A: usize = 0;

pub const B: usize = 1;

/// What a client does.
pub enum Act {
    /// It draws one cell, of this column, row and state.
    Dot(i32, i32, u8, Outcome),
    /// It clears an area.
    Clear(Rect, Outcome),
    /// It draws what a text holds.
    Open(Text, Outcome),
    /// It gives the pattern of a script a name.
    Name(&'static str),
    /// It carries out the command of a line.
    Obey(&'static str),
    Poll,
    Follow,
    /// It printed this since it was asked last.
    Told(&'static str),
}

pub enum Step {
    /// The client at a place does something.
    Does(usize, Act),
    /// The board refuses so from now on.
    Refuse(Refusals),
    /// The board hands out so many edits a poll at most from now on.
    HandOut(usize),
    /// So many polls came to the board.
    Polls(u32),
    /// So many pushes came to the board.
    Pushes(u32),
}

/// A board and its clients, in the order of their seats.
#[derive(Drop)]
pub struct Party<'a, C: Clock> {
    pub board: Shared,
    pub clients: Vec<Guest<'a, C>>,
}

/// Has the clients of a board, who tell so, take steps.
pub fn play<R: Abort + Clock>(
    rt: &R,
    alloc: Global,
    tellings: &[Telling],
    steps: &[Step],
) -> Result<(), Fail> {
    let mut party = Party::join(rt, alloc, tellings)?;
    party.play(rt, steps)
}

impl<'a, C: Clock> Party<'a, C> {
    /// A client at each seat of a board, who tells so.
    pub fn join(clock: &'a C, alloc: Global, tellings: &[Telling]) -> Result<Party<'a, C>, Fail> {
        let board = MemoryBoard::shared(alloc, u16::try_from(tellings.len())?)?;
        let mut clients = Vec::new(alloc);
        for telling in tellings {
            let seat = u16::try_from(clients.len())?.saturating_add(1);
            let line = line_to(alloc, &board, seat)?;
            clients.push(join(clock, alloc, line, *telling)?)?;
        }
        Ok(Party { board, clients })
    }
}

impl<'a, R: Abort + Clock> Party<'a, R> {
    pub fn play(&mut self, rt: &R, steps: &[Step]) -> Result<(), Fail> {
        for (number, step) in steps.iter().enumerate() {
            self.take(rt, number, step)?;
        }
        Ok(())
    }

    fn take(&mut self, rt: &R, number: usize, step: &Step) -> Result<(), Fail> {
        match step {
            Step::Does(place, act) => {
                let client = self.clients.get_mut(*place).ok_or("client")?;
                does(rt, client, number, act)?;
            }
            Step::Refuse(refusals) => refuse(&self.board, *refusals)?,
            Step::HandOut(most) => {
                self.board.try_borrow_mut().ok().ok_or("board")?.most = *most;
            }
            Step::Polls(polls) => {
                assert_eq!(rt; asked(&self.board)?.0, *polls, "step {number}");
            }
            Step::Pushes(pushes) => {
                assert_eq!(rt; asked(&self.board)?.1, *pushes, "step {number}");
            }
        }
        Ok(())
    }
}

fn does<R: Abort + Clock>(
    rt: &R,
    client: &mut Guest<'_, R>,
    number: usize,
    act: &Act,
) -> Result<(), Fail> {
    match act {
        Act::Dot(x, y, state, outcome) => {
            let drawn = dot(client, *x, *y, *state)?;
            assert_eq!(rt; drawn, *outcome, "step {number}");
        }
        Act::Clear(area, outcome) => {
            let drawn = client.draw(0, &EditSpec::Clear(*area))?;
            assert_eq!(rt; drawn, *outcome, "step {number}");
        }
        Act::Open(text, outcome) => {
            let drawn = open(client, &text.made(client.alloc())?)?;
            assert_eq!(rt; drawn, *outcome, "step {number}");
        }
        Act::Name(script) => name(client, script)?,
        Act::Obey(line) => {
            obey(client, line)?;
        }
        Act::Poll => client.poll()?,
        Act::Follow => {
            client.follow()?;
        }
        Act::Told(text) => assert_eq!(rt; told(client)?.as_str(), *text, "step {number}"),
    }
    Ok(())
}
