//! A board in memory, and a client that is at it.

use crate::memory::client::{Guest, command_of, join};
use crate::memory::steps::{Act, Left, Step};
use crate::memory::{Verdict, replicas};
use board_client::ClientFault;
use client_session::{CommandFault, Outcome, Telling};
use client_tasks::{Done, carry_out, open};
use frame_line::LineFault;
use memory_board::{MemoryBoard, Shared};
use replica_core::{Fault, Replica};
use std::alloc::Global;
use std::time::Clock;

/// A board of three seats: of the client, of one who draws, and of one who comes where memory was refused.
pub const SEATS: u16 = 3;

/// A board in memory, and a client that is at its first seat once it joined.
#[derive(Drop)]
pub struct World<'a, C: Clock> {
    pub clock: &'a C,
    pub alloc: Global,
    pub telling: Telling,
    board: Shared,
    client: Option<Guest<'a, C>>,
    /// What was saved last.
    saved: Vec<u8>,
    /// How many requests had come, and how many edits stood there, before the call.
    requests: u32,
    edits: usize,
}

impl<'a, C: Clock> World<'a, C> {
    pub fn new(clock: &'a C, alloc: Global, telling: Telling) -> Result<World<'a, C>, Fault> {
        Ok(World {
            clock,
            alloc,
            telling,
            board: MemoryBoard::shared(alloc, SEATS)?,
            client: None,
            saved: Vec::new(alloc),
            requests: 0,
            edits: 0,
        })
    }

    /// Does what comes before a call: another seat draws.
    pub fn prepare(&mut self, step: &Step) -> Option<()> {
        let mut board = self.board.try_borrow_mut().ok()?;
        board.most = step.most;
        for cell in step.draws {
            again!(_, board.publish_cell(2, *cell)).ok()?;
        }
        self.requests = board.requests;
        self.edits = board.replica().journal().len();
        Some(())
    }

    /// Makes a call.
    pub fn make(&mut self, step: &Step) -> Verdict {
        if let Some(client) = &mut self.client {
            client.clear_printed();
        }
        match self.call(step) {
            Ok(is_meant) => Verdict::of(is_meant && self.has_printed(step)),
            Err(fault) => verdict_of(fault),
        }
    }

    /// Whether the client printed what a call is meant to print.
    fn has_printed(&self, step: &Step) -> bool {
        let meant = match self.telling {
            Telling::Edits | Telling::Nothing => step.edits,
            Telling::Changes => step.cells,
        };
        match &self.client {
            Some(client) => client.printed() == meant,
            None => false,
        }
    }

    /// Makes a call; whether it leaves what it is meant to leave.
    fn call(&mut self, step: &Step) -> Result<bool, CommandFault> {
        match step.act {
            Act::Join => self.join(),
            Act::Command(lines) => self.carry_out(lines, &step.left),
            Act::Open(text) => self.open(text, &step.left),
            Act::OpenSaved => {
                let saved = std::mem::replace(&mut self.saved, Vec::new(self.alloc));
                let opened = self.open(&saved, &step.left);
                self.saved = saved;
                opened
            }
            Act::Leave => self.leave(),
        }
    }

    fn join(&mut self) -> Result<bool, CommandFault> {
        let client = join(self.clock, self.alloc, &self.board, 1, self.telling)?;
        self.client = Some(client);
        Ok(true)
    }

    fn carry_out(&mut self, lines: &[&[u8]], left: &Left) -> Result<bool, CommandFault> {
        let Some(command) = command_of(self.alloc, lines) else {
            return Ok(false);
        };
        let Some(client) = &mut self.client else {
            return Ok(false);
        };
        match carry_out(client, command, 5) {
            Ok(done) => Ok(self.leaves(done, left)),
            Err(fault) => Err(fault),
        }
    }

    fn open(&mut self, text: &[u8], left: &Left) -> Result<bool, CommandFault> {
        let Some(client) = &mut self.client else {
            return Ok(false);
        };
        match open(client, text) {
            Ok(Outcome::Drawn) => Ok(matches!(left, Left::Drawn)),
            Ok(Outcome::Refused) => Ok(matches!(left, Left::Refused)),
            Ok(Outcome::InDoubt) => Ok(false),
            Err(fault) => Err(fault),
        }
    }

    fn leave(&mut self) -> Result<bool, CommandFault> {
        let Some(client) = &mut self.client else {
            return Ok(false);
        };
        match client.leave() {
            Ok(_) => Ok(true),
            Err(fault) => Err(CommandFault::Client(fault)),
        }
    }

    /// Whether what is left is what is meant to be; what is saved is kept.
    fn leaves(&mut self, done: Done, left: &Left) -> bool {
        match (done, left) {
            (Done::Told, Left::Told) | (Done::Leave, Left::Leave) => true,
            (Done::Write(_, text), Left::Text(bytes)) => text.as_slice() == *bytes,
            (Done::Write(_, text), Left::State) => {
                self.saved = text;
                self.has_saved_the_board()
            }
            _ => false,
        }
    }

    /// Whether what was saved is the state of the board.
    fn has_saved_the_board(&self) -> bool {
        match self.board.try_borrow() {
            Ok(board) => replicas::has_state(board.replica(), &self.saved),
            Err(_) => false,
        }
    }

    /// Whether nothing was said to the board since before the call.
    pub fn is_silent(&self) -> bool {
        match self.board.try_borrow() {
            Ok(board) => board.requests == self.requests,
            Err(_) => false,
        }
    }

    /// Whether a call told, or might have told, what comes once: edits of another seat, or one of its own.
    pub fn has_news(&self, step: &Step) -> bool {
        match self.board.try_borrow() {
            Ok(board) => { !step.draws.is_empty() || board.replica().journal().len() != self.edits }
            Err(_) => true,
        }
    }

    /// Whether the client holds what the board does.
    pub fn agrees(&self) -> bool {
        match (&self.client, self.board.try_borrow()) {
            (Some(client), Ok(board)) => replicas::are_same(client.replica(), board.replica()),
            _ => false,
        }
    }

    /// Whether a call that found no memory left the board as it was, or with its one edit, and the client
    /// with nothing that the board has not; and a client that comes then holds what the board does.
    pub fn is_sound(&self) -> bool {
        let joined = join(self.clock, self.alloc, &self.board, SEATS, self.telling);
        let (Ok(other), Ok(board)) = (joined, self.board.try_borrow()) else {
            return false;
        };
        let edits = board.replica().journal().len();
        let has_one_at_most = edits == self.edits || edits == self.edits.saturating_add(1);
        has_one_at_most
            && replicas::are_same(other.replica(), board.replica())
            && self.holds_no_more_than(board.replica())
    }

    /// Whether the client holds nothing that a replica has not.
    fn holds_no_more_than(&self, replica: &Replica) -> bool {
        let Some(client) = &self.client else {
            return true;
        };
        let Ok(mut both) = Replica::new(self.alloc, replica.rule(), 1) else {
            return false;
        };
        for held in [client.replica(), replica] {
            if !takes_state(&mut both, held) {
                return false;
            }
        }
        replicas::are_same(&both, replica)
    }
}

/// Whether a replica takes the state of another.
fn takes_state(taker: &mut Replica, held: &Replica) -> bool {
    match replicas::state(held) {
        Some(state) => taker.take_bytes(&state).is_ok(),
        None => false,
    }
}

/// What comes of a call that ends with a fault.
fn verdict_of(fault: CommandFault) -> Verdict {
    match fault {
        CommandFault::Memory | CommandFault::Client(ClientFault::Memory) => Verdict::Want,
        CommandFault::Client(
            ClientFault::Line(LineFault::Memory) | ClientFault::Text(Fault::Memory),
        ) => Verdict::Lost,
        _ => Verdict::Neither,
    }
}
