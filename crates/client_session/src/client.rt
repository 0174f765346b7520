//! A client of a board.

ghost use Rattle.std.specs.Prelude.{◌≡◌, [], OnErr, OnOk};
ghost use Rattle.client_session.specs.Leaving.{LeavesBehind, LeavesBoard};
ghost use Rattle.client_session.specs.Moment.{BreaksOff, Prints};

use crate::workspace::Workspace;
use board_client::{ClientFault, Pushing, Server};
use devices::{Sink, Source};
use replica_core::Replica;
use std::alloc::{AllocError, Global};
use std::marker::Model;
use std::time::Clock;

/// A client that joined a board: the server, what the client works with, and what it printed that was not
/// cleared yet. Contracts see it as a `Moment`.
#[derive(Drop)]
pub struct Client<'a, C: Clock, S: Source + Drop, K: Sink + Drop> {
    pub(crate) server: Server<'a, C, S, K>,
    pub(crate) workspace: Workspace,
    pub(crate) out: Vec<u8>,
}

impl<'a, C: Clock, S: Source + Drop, K: Sink + Drop> Model for Client<'a, C, S, K> {
    ghost use Rattle.client_session.specs.Moment.{Moment};

    ghost Value = { Moment };

    ghost use Rattle.std.specs.Coded.{codes};
    ghost use Rattle.genedit_lib.specs.contracts.patterns.Patterns as patterns;

    ghost coded = { Prim.hlevel (codes, patterns.the_row.coded) };

    ghost view = { λ c. record { line = c.server; workspace = c.workspace; out = c.out.items } };
}

impl<'a, C: Clock, S: Source + Drop, K: Sink + Drop> Client<'a, C, S, K> {
    /// What it was handed, and what it drew.
    pub fn replica(&self) -> &Replica
        ensures { result.now ≡ self.now.workspace.replica }
    {
        &self.workspace.replica
    }

    /// The clock by which it waits.
    pub fn clock(&self) -> &'a C {
        self.server.clock()
    }

    /// Where it keeps what it prints.
    pub fn alloc(&self) -> Global {
        self.server.alloc()
    }

    /// What it printed since that was cleared.
    pub fn printed(&self) -> &[u8]
        ensures { result.now ≡ self.now.out }
    {
        &self.out
    }

    /// Clears what it printed.
    pub fn clear_printed(&mut self)
        ensures { self.new ≡ record self.old { out = [] } }
    {
        self.out.clear();
    }

    /// Prints a text.
    pub fn print(&mut self, text: &[u8]) -> Result<(), AllocError>
        ensures told { OnOk result (Prints text.now self.old self.new) }
        ensures kept { OnErr result (BreaksOff self.old self.new) }
    {
        self.out.extend_from_slice(text)
    }

    /// Says farewell, and hears the answer. Where a poll waits its reply is heard before, and taken, and nothing
    /// told of it. Nothing is said on the line after that.
    pub fn leave(&mut self) -> Result<Pushing, ClientFault>
        ensures { LeavesBoard self.old.workspace.awaited self.old self.new result }
    {
        match self.workspace.awaited {
            None => self.server.leave(),
            Some(_) => self.leave_behind(),
        }
    }

    /// The farewell where a poll waits.
    fn leave_behind(&mut self) -> Result<Pushing, ClientFault>
        ensures { LeavesBehind self.old self.new result }
    {
        match self.server.say_farewell() {
            Ok(()) => {}
            Err(fault) => return Err(fault),
        }
        self.workspace.awaited = None;
        match self.server.hear_reply(&mut self.workspace.replica) {
            Ok(_) => self.server.hear_farewell(),
            Err(fault) => Err(fault),
        }
    }
}
