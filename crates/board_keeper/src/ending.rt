//! The end of a keeper: what is left is committed and published, and the account of it all is made.

ghost use Rattle.std.specs.Prelude.{◌≡◌, ℕ, [], length, true, IfErr, IfOk};
ghost use Rattle.board.specs.Origins.{list_of};
ghost use Rattle.inbox.specs.Settled.{HasAsMany};
ghost use Rattle.kept_log.specs.Kept.{Keeps};
ghost use Rattle.relay_board.specs.Closing.{AreCountable, IsWhole};
ghost use Rattle.relay_board.specs.Same.{Same};
ghost use Rattle.relay_board.specs.Seating.{mines_of, Numbered};
ghost use Rattle.board_keeper.specs.Ending.{IsEndFault};
ghost use Rattle.board_keeper.specs.Keeping.{bodies_in, Keeping};
ghost use Rattle.board_keeper.specs.Steps.{AreSteps};
ghost use Rattle.board_keeper.specs.Turns.{FailsBy};

use crate::fault::KeepFault;
use crate::keeper::{Keeper, KeeperTurn};
use kept_devices::Keep;
use kept_log::Log;
use relay_board::{Account, FinishFault, Naming, Seat};
use std::alloc::Global;
use std::sync::Wait;

/// Why a keeper did not finish. It comes back with its seats, and may be asked again.
#[derive(Clone, Copy, Debug, PartialEq, Eq)]
pub enum EndFault {
    /// A turn failed.
    Keep(KeepFault),
    /// All was published, and the account was not made.
    Finish(FinishFault),
}

/// What is left of a keeper: the account of its board, and the file.
pub type Ended<K> = (Account, Log<K>);

/// A keeper that did not finish, its seats, and why.
pub type Unended<J, R, K> = (Keeper<J, R, K>, Vec<Seat<J>>, EndFault);

impl<J: Naming, R: Wait + Drop, K: Keep> Keeper<J, R, K> {
    /// Commits and publishes what is left, makes the account, and ends the board. The file has just what was
    /// published. Where it does not finish, keeper and seats come back, what was published stays published,
    /// and it may be called again.
    pub fn finish<H: Wait>(
        mut self,
        rt: &H,
        alloc: Global,
        seats: Vec<Seat<J>>,
    ) -> Result<Ended<K>, Unended<J, R, K>>
        requires closed { self.relay.closed ≡ true }
        requires all { self.relay.made ≡ length seats.items }
        requires order { Numbered 0 seats.items }
        ensures whole { IfOk result (λ e. IsWhole self.relay.origin self.relay.list (list_of e.0.front) seats.items e.0) }
        ensures file { IfOk result (λ e. Keeps (bodies_in self.rule (list_of e.0.front)) (K.known e.1.keep)) }
        ensures drained { IfOk result (λ e. (b : Keeping) × ((steps : ℕ) × AreSteps steps self b) × (b.relay.list ≡ list_of e.0.front) × (b.file ≡ K.known e.1.keep)) }
        ensures same { IfErr result (λ e. Same self.relay e.0.relay × (e.0.rule ≡ self.rule) × (e.1.items ≡ seats.items)) }
        ensures steps { IfErr result (λ e. (steps : ℕ) × AreSteps steps self e.0) }
        ensures fault { IfErr result (λ e. IsEndFault e.2 e.0 e.1.items) }
    {
        match self.drain(rt, seats.as_slice()) {
            Ok(()) => self.end(alloc, seats),
            Err(fault) => Err((self, seats, EndFault::Keep(fault))),
        }
    }

    /// Takes turns until all that was accepted is published, or one fails.
    fn drain<H: Wait>(&mut self, rt: &H, seats: &[Seat<J>]) -> Result<(), KeepFault>
        ensures same { Same self.old.relay self.new.relay × (self.new.rule ≡ self.old.rule) }
        ensures steps { (steps : ℕ) × AreSteps steps self.old self.new }
        ensures kept { IfOk result (λ _. self.new.relay.kept ≡ []) }
        ensures done { IfOk result (λ _. HasAsMany self.new.relay.list (mines_of seats.now) × AreCountable (mines_of seats.now)) }
        ensures fault { IfErr result (λ why. FailsBy why self.new) }
    {
        for _ in rt.forever() {
            if self.relay.has_published_all() && self.relay.has_all(seats) {
                return Ok(());
            }
            if let KeeperTurn::Failed(fault) = self.turn() {
                return Err(fault);
            }
        }
        unreachable!()
    }

    /// Makes the account of a keeper that has published all that was accepted, and ends the board.
    fn end(self, alloc: Global, seats: Vec<Seat<J>>) -> Result<Ended<K>, Unended<J, R, K>>
        requires closed { self.relay.closed ≡ true }
        requires all { self.relay.made ≡ length seats.items }
        requires order { Numbered 0 seats.items }
        requires kept { self.relay.kept ≡ [] }
        requires many { HasAsMany self.relay.list (mines_of seats.items) }
        requires countable { AreCountable (mines_of seats.items) }
        ensures whole { IfOk result (λ e. IsWhole self.relay.origin self.relay.list (list_of e.0.front) seats.items e.0) }
        ensures file { IfOk result (λ e. Keeps (bodies_in self.rule (list_of e.0.front)) (K.known e.1.keep)) }
        ensures left { IfOk result (λ e. (self.relay.list ≡ list_of e.0.front) × (self.file ≡ K.known e.1.keep)) }
        ensures same { IfErr result (λ e. (e.0 ≡ self) × (e.1.items ≡ seats.items)) }
        ensures fault { IfErr result (λ e. IsEndFault e.2 e.0 e.1.items) }
    {
        let Self {
            relay,
            log,
            rule,
            alloc: own,
            bodies,
            committed,
        } = self;
        match relay.end(alloc, seats) {
            Ok(account) => Ok((account, log)),
            Err((relay, seats, fault)) => {
                let keeper = Keeper {
                    relay,
                    log,
                    rule,
                    alloc: own,
                    bodies,
                    committed,
                };
                Err((keeper, seats, EndFault::Finish(fault)))
            }
        }
    }
}
