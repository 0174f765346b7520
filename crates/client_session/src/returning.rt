//! Going on at a new connection, once the server went away.

ghost use Rattle.std.specs.Prelude.{◌≡◌, ◌≤◌, ◌++◌, IfOk, OnErr, OnOk};
ghost use Rattle.std.specs.List.{list_any};
ghost use mathlib.Core.List.{IsPrefix};
ghost use Rattle.square_store.specs.Limits.{usual_room};
ghost use Rattle.edit_journal.specs.Journal.{noted};
ghost use Rattle.edit_stamps.specs.Edit.{is_edit};
ghost use Rattle.replica_core.specs.Replica.{IsNew};
ghost use Rattle.client_session.specs.Lines.{joined_line, replaced_lines};
ghost use Rattle.client_session.specs.Returning.{GivesBack, IsFound, IsReturnTold, Returns, SitsDown, TakesSeat, counted_by, doubted, found_line, known_to, making_at, news_in, news_lines, seated, tells_edits};

use crate::client::Client;
use crate::fault::CommandFault;
use crate::lines::{push_drawn, push_joined, push_replaced, push_whole};
use crate::telling::show_all;
use crate::workspace::Workspace;
use board_client::{ClientFault, Polling, Pushed, Server};
use client_protocol::Greeting;
use devices::{Sink, Source};
use drawing_history::Making;
use edit_journal::Journal;
use edit_stamps::Edit;
use genedit_lib::push_edits;
use pattern_cells::Cell;
use replica_core::Replica;
use stamped_tree::{Limits, Plane};
use std::alloc::{AllocError, Global};
use std::time::Clock;
use std::{mem, slice};
use tree_join::at_most;

/// What came of a try to go on at another connection.
#[derive(Drop)]
pub enum Return {
    /// The client has a new seat.
    Joined(Before),
    /// The board that answered has another rule: the client is as it was.
    OtherRule,
}

/// What a client held before it had its new seat.
#[derive(Drop)]
pub struct Before {
    /// Its replica, under its old seat.
    pub replica: Replica,
    /// Whether the board does not have all of that: some write is not there, nor a greater one in its place.
    pub is_lost: bool,
}

impl<'a, C: Clock, S: Source + Drop, K: Sink + Drop> Client<'a, C, S, K> {
    /// Joins the board of another server, under a new seat, where its rule is the client's: greets, polls, and
    /// prints `joined SEAT RULE`, and behind that what the poll tells and the client did not know: edits, or the
    /// cells that look otherwise than was told, or `whole`. The client holds then what the board has, and nothing
    /// else; what it held before is handed back, and where the board does not have all of that, nothing drawn before
    /// can be taken back any more. An edit in doubt is looked for: where the board has it, `drawn C R` is printed, by
    /// its old stamp, and nothing is in doubt any more; else it still is. On an error the client holds what it held.
    pub fn return_to(&mut self, mut server: Server<'a, C, S, K>) -> Result<Return, CommandFault>
        ensures { Returns server.entry self.old self.new result }
    {
        let greeting = match server.greet() {
            Ok(greeting) => greeting,
            Err(fault) => return Err(CommandFault::Client(fault)),
        };
        match greeting {
            Greeting::Seat(number, rule) => {
                if !rule.same(&self.workspace.replica.rule()) {
                    return Ok(Return::OtherRule);
                }
                self.sit_down(server, number)
            }
            Greeting::Refused(number) => Err(CommandFault::Refused(number)),
            Greeting::Faulty => Err(CommandFault::Client(ClientFault::NoReply)),
        }
    }

    /// Polls first at a seat of this number, and tells what came.
    fn sit_down(
        &mut self,
        mut server: Server<'a, C, S, K>,
        number: u16,
    ) -> Result<Return, CommandFault>
        requires { 1 ≤ number }
        ensures { SitsDown number server.entry self.old self.new result }
    {
        let Ok(mut replica) = self.workspace.empty_replica(server.alloc(), number) else {
            return Err(CommandFault::Memory);
        };
        let heard = match server.poll(&mut replica) {
            Ok(heard) => heard,
            Err(fault) => return Err(CommandFault::Client(fault)),
        };
        match heard {
            Polling::Refused(refusal) => Err(CommandFault::Refused(refusal)),
            Polling::Edits(_) => self.take_seat(server, replica, heard),
            Polling::Whole => self.take_seat(server, replica, heard),
        }
    }

    /// Tells what came at a new seat, and is at it from then on.
    fn take_seat(
        &mut self,
        server: Server<'a, C, S, K>,
        replica: Replica,
        heard: Polling,
    ) -> Result<Return, CommandFault>
        ensures { TakesSeat heard server.entry replica self.old self.new result }
    {
        match self
            .workspace
            .tell_return(server.alloc(), heard, &replica, &mut self.out)
        {
            Ok(()) => Ok(Return::Joined(self.change_seat(server, replica))),
            Err(fault) => Err(fault),
        }
    }

    /// Has another server and another replica, and gives back the one before.
    fn change_seat(&mut self, server: Server<'a, C, S, K>, replica: Replica) -> Before
        ensures moment { self.new ≡ record { line = server.entry; workspace = seated result.is_lost replica self.old.workspace; out = self.old.out } }
        ensures before { GivesBack result self.old.workspace.replica replica }
    {
        let is_lost = !at_most(self.workspace.replica.plane(), replica.plane());
        self.server = server;
        self.workspace.awaited = None;
        self.workspace.closed = false;
        let before = mem::replace(&mut self.workspace.replica, replica);
        self.workspace.forget_lost(self.server.alloc(), is_lost);
        Before {
            replica: before,
            is_lost,
        }
    }
}

/// What is told at a new seat.
#[derive(Drop)]
struct Told {
    /// What the first poll brought.
    heard: Polling,
    /// The edits that the client did not know of.
    news: Vec<Edit>,
    /// The cells that look otherwise than was told.
    cells: Vec<Cell>,
    /// Whether the edit in doubt is on the board.
    found: bool,
}

impl Workspace {
    /// Forgets what was drawn before, where the board has lost what the client held: stamps may begin anew there, and
    /// one of before be that of another's edit.
    fn forget_lost(&mut self, alloc: Global, is_lost: bool)
        ensures { self.new ≡ record self.old { making = making_at is_lost self.old.making } }
    {
        if is_lost {
            self.making = Making::new(alloc);
        }
    }

    /// A replica of another seat under the same rule, that holds nothing.
    fn empty_replica(&self, alloc: Global, number: u16) -> Result<Replica, AllocError>
        requires { 1 ≤ number }
        ensures { IfOk result (IsNew self.now.replica.rule number usual_room) }
    {
        let limits = Limits::of_key(self.replica.plane().key());
        match Replica::within(alloc, self.replica.rule(), number, limits) {
            Ok(replica) => Ok(replica),
            Err(_) => Err(AllocError),
        }
    }

    /// Tells a new seat, and what its first poll brought.
    fn tell_return(
        &mut self,
        alloc: Global,
        heard: Polling,
        replica: &Replica,
        out: &mut Vec<u8>,
    ) -> Result<(), CommandFault>
        ensures { IsReturnTold heard replica.now self.old self.new out.old.items out.new.items result }
    {
        let news = self.news_in(alloc, replica.journal())?;
        let found = is_found(alloc, heard, replica, &self.doubt)?;
        let cells = show_all(alloc, &mut self.shown, replica.plane())?;
        let told = Told {
            heard,
            news,
            cells,
            found,
        };
        self.push_return(alloc, replica, &told, out)?;
        let all = replica.journal().len();
        self.counted = counted_by(heard, all, self.others(), told.news.len());
        if found {
            self.doubt = None;
        }
        Ok(())
    }

    /// Prints what is told.
    fn push_return(
        &self,
        alloc: Global,
        replica: &Replica,
        told: &Told,
        out: &mut Vec<u8>,
    ) -> Result<(), AllocError>
        ensures told { OnOk result (out.new.items ≡ out.old.items ++ joined_line replica.now.number replica.now.rule ++ news_lines told.now.heard told.now.news.items self.now ++ replaced_lines told.now.cells.items ++ found_line told.now.found self.now.doubt) }
        ensures kept { OnErr result (IsPrefix out.old.items out.new.items) }
    {
        push_joined(alloc, out, replica.number(), &replica.rule())?;
        self.push_news(told.heard, &told.news, out)?;
        push_replaced(out, &told.cells)?;
        push_found(out, told.found, &self.doubt)?;
        Ok(())
    }

    /// Prints the edits that are news, where edits are told, or that the plane came whole.
    fn push_news(&self, heard: Polling, news: &[Edit], out: &mut Vec<u8>) -> Result<(), AllocError>
        ensures told { OnOk result (out.new.items ≡ out.old.items ++ news_lines heard news.now self.now) }
        ensures kept { OnErr result (IsPrefix out.old.items out.new.items) }
    {
        match heard {
            Polling::Edits(_) if self.tells_edits() => push_edits(out, news),
            Polling::Edits(_) | Polling::Refused(_) => Ok(()),
            Polling::Whole => push_whole(out),
        }
    }

    /// Whether edits are told each in a line.
    fn tells_edits(&self) -> bool
        ensures { result ≡ tells_edits self.now }
    {
        !self.quiet && !self.shown.is_some()
    }

    /// Copies of the edits that the client does not know of, in their order.
    fn news_in(&self, alloc: Global, edits: &[Edit]) -> Result<Vec<Edit>, AllocError>
        ensures { IfOk result (λ news. news.items ≡ news_in (known_to self.now) edits.now) }
    {
        let known = self.known_edits(alloc)?;
        unknown_edits(alloc, &known, edits)
    }

    /// The edits that the client knows of, found by their hashes.
    fn known_edits(&self, alloc: Global) -> Result<Journal, AllocError>
        ensures { IfOk result (λ known. known ≡ noted (doubted self.now.doubt) self.now.replica.journal) }
    {
        let (key0, key1) = self.replica.plane().key().pair();
        let mut known = Journal::with_key(alloc, key0, key1);
        if let Some(doubted) = &self.doubt {
            known.note(slice::from_ref(doubted.edit()))?;
        }
        known.note(self.replica.journal())?;
        Ok(known)
    }
}

/// Copies of the edits that are not in a journal, in their order.
fn unknown_edits(alloc: Global, known: &Journal, edits: &[Edit]) -> Result<Vec<Edit>, AllocError>
    ensures { IfOk result (λ news. news.items ≡ news_in known.now edits.now) }
{
    let mut news = Vec::new(alloc);
    for edit in edits {
        if !known.contains(edit) {
            news.push(edit.copy()?)?;
        }
    }
    Ok(news)
}

/// Whether an edit in doubt is on the board, by what the first poll brought.
fn is_found(
    alloc: Global,
    heard: Polling,
    replica: &Replica,
    doubt: &Option<Pushed>,
) -> Result<bool, AllocError>
    ensures { IfOk result (λ found. IsFound heard replica.now doubt.now found) }
{
    let Some(doubted) = doubt else {
        return Ok(false);
    };
    match heard {
        Polling::Edits(_) => Ok(has_edit(replica.journal(), doubted.edit())),
        Polling::Whole => {
            let key = replica.plane().key();
            let writes = Plane::of_edit_with_key(alloc, doubted.edit(), key)?;
            Ok(at_most(&writes, replica.plane()))
        }
        Polling::Refused(_) => Ok(false),
    }
}

/// Whether an edit is among others.
fn has_edit(edits: &[Edit], edit: &Edit) -> bool
    ensures { result ≡ list_any (is_edit edit.now) edits.now }
{
    edits.iter().any(|other| edit.same(other))
}

/// Prints that an edit in doubt was drawn, where it was found.
fn push_found(out: &mut Vec<u8>, found: bool, doubt: &Option<Pushed>) -> Result<(), AllocError>
    ensures told { OnOk result (out.new.items ≡ out.old.items ++ found_line found doubt.now) }
    ensures kept { OnErr result (IsPrefix out.old.items out.new.items) }
{
    match doubt {
        Some(doubted) if found => {
            let stamp = doubted.edit().stamp();
            push_drawn(out, stamp.counter(), stamp.replica())
        }
        _ => Ok(()),
    }
}

/// How many edits of so many are counted off, so that the others are those before and the news; behind a whole plane
/// all are.
fn counted_by(heard: Polling, all: usize, before: usize, news: usize) -> usize
    ensures { result ≡ counted_by heard all before news }
{
    match heard {
        Polling::Edits(_) => all.saturating_sub(before.saturating_add(news)),
        Polling::Whole | Polling::Refused(_) => all,
    }
}
