//! The keeper: what the relay is to publish is committed to a file, and only then is it published and answered.

ghost use Rattle.std.specs.Prelude.{◌≡◌, ◌≢◌, ◌≤◌, ◌<◌, ℕ, [], length, true, OnOk, MatchBool};
ghost use Rattle.board_keeper.specs.Kept.{AreMade};
ghost use Rattle.board_keeper.specs.Keeping.{IsSafe, bodies_in};
ghost use Rattle.board_keeper.specs.Steps.{AreSteps, ShowsKept};
ghost use Rattle.board_keeper.specs.Turns.{IsKeeperTurn};
ghost use Rattle.board_keeper.specs.Working.{CommitsSome, Fills, ShowsSome, turn_of};
ghost use Rattle.kept_log.specs.Kept.{Keeps};
ghost use Rattle.relay_board.specs.Same.{Same};

use crate::fault::{KeepFault, log_fault, turn_fault};
use document_bodies::edit_body;
use generations_rule::Rule;
use kept_devices::Keep;
use kept_log::{Log, LogState};
use relay_board::{Bell, MOST_READY, Naming, Readiness, Relay};
use std::alloc::{AllocError, Global};
use std::marker::Model;
use std::sync::Wait;
use std::time::Duration;

/// A relay and the file of its list. What is taken is committed before it is published, up to 64 entries by
/// one push and one sync.
#[derive(Drop)]
pub struct Keeper<J: Naming, R: Wait + Drop, K: Keep> {
    /// Who publishes.
    pub(crate) relay: Relay<J, R>,
    /// The file.
    pub(crate) log: Log<K>,
    /// The rule under which edits are written.
    pub(crate) rule: Rule,
    pub(crate) alloc: Global,
    /// The bodies of the first of the ready entries, which are to be committed.
    pub(crate) bodies: Vec<Vec<u8>>,
    /// How many of the ready entries, from the first on, stand in the file.
    pub(crate) committed: usize,
}

impl<J: Naming, R: Wait + Drop, K: Keep> Model for Keeper<J, R, K> {
    ghost use Rattle.board_keeper.specs.Keeping.{Keeping};

    ghost Value = { Keeping };

    ghost use Rattle.board_keeper.specs.Kept.{IsKeeper};

    ghost view = { λ k. record { relay = k.relay; rule = k.rule; file = K.known k.log.keep; takes = k.log.state; committed = k.committed } };

    ghost invariant = { λ k. IsKeeper (record { relay = k.relay; rule = k.rule; file = K.known k.log.keep; takes = k.log.state; committed = k.committed }) k.bodies.items };
}

/// What a turn of a keeper did.
#[derive(Clone, Copy, Debug, PartialEq, Eq)]
pub enum KeeperTurn {
    /// Nothing was kept, and the inbox was empty at one moment of the call.
    Idle,
    /// So many edits were published, which the file has.
    Published(usize),
    /// Nothing was published. What was taken is kept, and the next turn goes on with it.
    Failed(KeepFault),
}

/// Makes entries ready until 64 are, none is there, or one cannot be: what the last try came to.
fn filled<J: Naming, R: Wait + Drop>(relay: &mut Relay<J, R>) -> Readiness
    ensures { Fills relay.old result relay.new }
{
    for _ in 0..MOST_READY {
        match relay.ready() {
            Readiness::Ready => {}
            last => return last,
        }
    }
    relay.ready()
}

/// Makes the bodies of the ready entries that have none yet, in order, as far as there is memory.
fn write_bodies<J: Naming, R: Wait + Drop>(
    alloc: Global,
    rule: &Rule,
    relay: &Relay<J, R>,
    bodies: &mut Vec<Vec<u8>>,
) -> Result<(), AllocError>
    requires ready { relay.now.ready ≤ length relay.now.kept }
    requires made { AreMade rule.now relay.now.kept relay.now.ready bodies.old.items }
    ensures made { AreMade rule.now relay.now.kept relay.now.ready bodies.new.items }
    ensures all { OnOk result (length bodies.new.items ≡ relay.now.ready) }
{
    for at in bodies.len()..relay.count_ready() {
        let Some(entry) = relay.ready_at(at) else {
            unreachable!()
        };
        let body = edit_body(alloc, rule, &entry.edit)?;
        bodies.push(body)?;
    }
    Ok(())
}

/// The turn of which the last try came to this, where no entry is ready.
fn idle_turn(last: Readiness) -> KeeperTurn
    ensures { result ≡ turn_of last }
{
    match last {
        Readiness::Idle => KeeperTurn::Idle,
        // None of these leaves no entry ready.
        Readiness::Full => KeeperTurn::Idle,
        Readiness::Ready => KeeperTurn::Idle,
        Readiness::Failed(fault) => KeeperTurn::Failed(turn_fault(fault)),
    }
}

impl<J: Naming, R: Wait + Drop, K: Keep> Keeper<J, R, K> {
    /// The keeper of a relay and of the file that has the document of its list.
    pub fn new(alloc: Global, relay: Relay<J, R>, log: Log<K>, rule: Rule) -> Keeper<J, R, K>
        requires kept { relay.kept ≡ [] }
        requires open { log.state ≡ LogState.Open }
        requires file { Keeps (bodies_in rule relay.list) (K.known log.keep) }
        ensures { result ≡ record { relay = relay; rule = rule; file = K.known log.keep; takes = LogState.Open; committed = 0 } }
    {
        // For the proof alone: the call tells that what was taken is what is published, and that none is ready.
        let _all = relay.has_published_all();
        Keeper {
            relay,
            log,
            rule,
            alloc,
            bodies: Vec::new(alloc),
            committed: 0,
        }
    }

    /// Publishes what was committed and is not published yet. Where there is none, it makes entries ready,
    /// commits them by one push and one sync, and publishes them. `Idle` only if nothing was kept and the inbox
    /// was empty at one moment of the call. Where memory is wanting on the way, what was done before stays, and
    /// the next turn goes on with it.
    pub fn turn(&mut self) -> KeeperTurn
        ensures same { Same self.old.relay self.new.relay × (self.new.rule ≡ self.old.rule) }
        ensures turned { IsKeeperTurn self.old result self.new }
    {
        if self.committed > 0 {
            return self.show_turn();
        }
        let last = self.fill();
        if self.relay.count_ready() == 0 {
            return idle_turn(last);
        }
        match self.commit() {
            Ok(()) => self.show_turn(),
            Err(fault) => KeeperTurn::Failed(fault),
        }
    }

    /// Makes entries ready. The file is left alone.
    fn fill(&mut self) -> Readiness
        ensures same { Same self.old.relay self.new.relay }
        ensures filled { Fills self.old.relay result self.new.relay }
        ensures steps { (steps : ℕ) × AreSteps steps self.old self.new }
        ensures left { self.new ≡ record self.old { relay = self.new.relay } }
    {
        filled(&mut self.relay)
    }

    /// Commits the ready entries that have a body, by one push and one sync. Want of memory leaves all as it
    /// was.
    fn commit(&mut self) -> Result<(), KeepFault>
        requires none { self.old.committed ≡ 0 }
        requires ready { 0 < self.old.relay.ready }
        ensures { CommitsSome self.old result self.new }
    {
        // What has no body for want of memory is the next turn's.
        let _all = write_bodies(self.alloc, &self.rule, &self.relay, &mut self.bodies);
        if self.bodies.is_empty() {
            return Err(KeepFault::Memory);
        }
        match self.log.commit(self.alloc, self.bodies.as_slice()) {
            Ok(()) => {
                self.committed = self.bodies.len();
                self.bodies.clear();
                Ok(())
            }
            Err(fault) => Err(log_fault(fault)),
        }
    }

    /// Publishes the first entry that is ready, which was committed. Without memory nothing is done.
    fn show_one(&mut self) -> bool
        requires { 0 < self.old.committed }
        ensures { MatchBool result (ShowsKept self.old self.new × IsSafe self.new) (self.new ≡ self.old) }
    {
        match self.relay.show() {
            Ok(_) => {
                self.committed -= 1;
                true
            }
            Err(_) => false,
        }
    }

    /// Publishes those that were committed, as far as there is memory: how many.
    fn show_all(&mut self) -> usize
        ensures { ShowsSome self.old result self.new }
    {
        let count = self.committed;
        for shown in 0..count {
            if !self.show_one() {
                return shown;
            }
        }
        count
    }

    /// The turn that publishes what was committed.
    fn show_turn(&mut self) -> KeeperTurn
        ensures same { Same self.old.relay self.new.relay × (self.new.rule ≡ self.old.rule) }
        ensures turned { IsKeeperTurn self.old result self.new }
        ensures busy { result ≢ KeeperTurn.Idle }
    {
        let count = self.show_all();
        if count == 0 {
            return KeeperTurn::Failed(KeepFault::Memory);
        }
        KeeperTurn::Published(count)
    }

    /// Sleeps until a submission, a ring or a close that no rest has had yet, and for so long at most.
    pub fn rest(&mut self, most: Duration)
        ensures { self.new ≡ self.old }
    {
        self.relay.rest(most);
    }

    /// From now on new submissions are refused; one that is under way may still be accepted.
    pub fn close(&mut self)
        ensures closed { self.new ≡ record self.old { relay = record self.old.relay { closed = true } } }
    {
        self.relay.close();
    }

    /// From now on new submissions are refused, and who waits for a receipt is told that none comes. What is
    /// published can be read still.
    pub fn cease(&mut self)
        ensures closed { self.new ≡ record self.old { relay = record self.old.relay { closed = true } } }
    {
        self.relay.cease();
    }

    /// What wakes it, for another thread.
    pub fn bell(&self) -> Result<Bell, AllocError> {
        self.relay.bell()
    }

    /// The relay.
    pub fn relay(&self) -> &Relay<J, R>
        ensures { result.now ≡ self.now.relay }
    {
        &self.relay
    }

    /// The file.
    pub fn keep(&self) -> &K
        ensures value { K.known result.now ≡ self.now.file }
        ensures safe { IsSafe self.now }
    {
        &self.log.keep
    }

    /// The file, once the board is let go.
    pub fn into_log(self) -> Log<K>
        ensures file { K.known result.keep ≡ self.file }
        ensures takes { result.state ≡ self.takes }
    {
        let Self {
            relay: _,
            log,
            rule: _,
            alloc: _,
            bodies: _,
            committed: _,
        } = self;
        log
    }
}
