//! Joining a board.

ghost use Rattle.std.specs.Prelude.{◌≡◌, ◌≤◌, IfOk};
ghost use Rattle.client_session.specs.Joining.{HasNumber, IsFresh, IsJoining, SetsUp, is_quiet};

use crate::client::Client;
use crate::fault::CommandFault;
use crate::lines::push_joined;
use crate::telling::blank;
use crate::workspace::Workspace;
use board_client::{ClientFault, Server};
use client_protocol::Greeting;
use devices::{Sink, Source};
use drawing_history::Making;
use genedit_lib::Patterns;
use generations_rule::Rule;
use keyed_hash::HashKey;
use replica_core::Replica;
use stamped_tree::Limits;
use std::alloc::{AllocError, Global};
use std::marker::Model;
use std::time::Clock;

/// How a client tells what a poll brought.
#[derive(Clone, Copy, Debug, PartialEq, Eq)]
pub enum Telling {
    /// Each edit.
    Edits,
    /// The cells that look different, behind a whole plane too: there at most 1,000 in a line, and where there are
    /// more than 100,000, how many.
    Changes,
    /// Nothing, beside that a whole plane came.
    Nothing,
}

/// A client that did not join: why, the server, and what was printed by then. Contracts see it as `NotJoined`.
#[derive(Drop)]
pub struct Unjoined<'a, C: Clock, S: Source + Drop, K: Sink + Drop> {
    pub(crate) fault: CommandFault,
    pub(crate) server: Server<'a, C, S, K>,
    pub(crate) out: Vec<u8>,
}

impl<'a, C: Clock, S: Source + Drop, K: Sink + Drop> Model for Unjoined<'a, C, S, K> {
    ghost use Rattle.client_session.specs.Joining.{NotJoined};

    ghost Value = { NotJoined };

    ghost view = { λ u. record { fault = u.fault; line = u.server; out = u.out.items } };
}

impl<'a, C: Clock, S: Source + Drop, K: Sink + Drop> Unjoined<'a, C, S, K> {
    /// Why it did not join.
    pub fn fault(&self) -> CommandFault
        ensures { result ≡ self.now.fault }
    {
        self.fault
    }

    /// What was printed by then.
    pub fn printed(&self) -> &[u8]
        ensures { result.now ≡ self.now.out }
    {
        &self.out
    }
}

impl<'a, C: Clock, S: Source + Drop, K: Sink + Drop> Client<'a, C, S, K> {
    /// Greets the server, prints `joined SEAT RULE`, polls, and tells what came. What the client holds is
    /// found by a key's hashes.
    pub fn join(
        mut server: Server<'a, C, S, K>,
        telling: Telling,
        key: HashKey,
    ) -> Result<Client<'a, C, S, K>, Unjoined<'a, C, S, K>>
        ensures { IsJoining telling server.entry result }
    {
        let alloc = server.alloc();
        let mut out = Vec::new(alloc);
        let greeting = match server.greet() {
            Ok(greeting) => greeting,
            Err(fault) => {
                let fault = CommandFault::Client(fault);
                return Err(Unjoined { fault, server, out });
            }
        };
        let workspace = match set_up(alloc, &mut out, &greeting, telling, key) {
            Ok(workspace) => workspace,
            Err(fault) => return Err(Unjoined { fault, server, out }),
        };
        let mut client = Client {
            server,
            workspace,
            out,
        };
        match client.first_poll() {
            Ok(()) => Ok(client),
            Err(fault) => Err(client.unjoined(fault)),
        }
    }

    /// The client as one that did not join, for this reason.
    fn unjoined(self, fault: CommandFault) -> Unjoined<'a, C, S, K>
        ensures { result ≡ record { fault = fault; line = self.entry.line; out = self.entry.out } }
    {
        let Client {
            server,
            workspace: _,
            out,
        } = self;
        Unjoined { fault, server, out }
    }
}

/// What a client works with at the seat that a greeting gave, which is printed.
fn set_up(
    alloc: Global,
    out: &mut Vec<u8>,
    greeting: &Greeting,
    telling: Telling,
    key: HashKey,
) -> Result<Workspace, CommandFault>
    requires { HasNumber greeting.now }
    ensures { SetsUp telling greeting.now out.old.items out.new.items result }
{
    match greeting {
        Greeting::Seat(number, rule) => {
            let workspace = fresh(alloc, *number, *rule, telling, key)?;
            push_joined(alloc, out, *number, rule)?;
            Ok(workspace)
        }
        Greeting::Refused(number) => Err(CommandFault::Refused(*number)),
        Greeting::Faulty => Err(CommandFault::Client(ClientFault::NoReply)),
    }
}

/// What a client works with that was handed nothing.
fn fresh(
    alloc: Global,
    number: u16,
    rule: Rule,
    telling: Telling,
    key: HashKey,
) -> Result<Workspace, AllocError>
    requires { 1 ≤ number }
    ensures { IfOk result (IsFresh telling number rule) }
{
    let replica = match Replica::within(alloc, rule, number, Limits::of_key(key)) {
        Ok(replica) => replica,
        Err(_) => return Err(AllocError),
    };
    let shown = match telling {
        Telling::Edits | Telling::Nothing => None,
        Telling::Changes => Some(blank(alloc, key)?),
    };
    Ok(Workspace {
        replica,
        patterns: Patterns::new(alloc),
        shown,
        counted: 0,
        awaited: None,
        closed: false,
        quiet: is_quiet(telling),
        doubt: None,
        making: Making::new(alloc),
        way: None,
    })
}

/// Whether edits that come are not told.
fn is_quiet(telling: Telling) -> bool
    ensures { result ≡ is_quiet telling }
{
    match telling {
        Telling::Edits | Telling::Changes => false,
        Telling::Nothing => true,
    }
}
