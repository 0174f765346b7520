//! The end of a relay: what is left is published, and the account of it all is made.

ghost use Rattle.std.specs.Prelude.{◌≡◌, ◌≢◌, ◌≤◌, ◌<◌, ◌+◌, ◌-◌, ◌^◌, [], ◌++◌, length, map, true, List, IsTrue, ◌↔◌, IfOk, IfErr, IfNone, Some, slice_get, slice_index_or};
ghost use mathlib.Core.List.{IsPrefix};
ghost use Rattle.std.specs.Arc.{arc_value};
ghost use Rattle.crossbeam_queue.specs.Passes.{view};
ghost use Rattle.edit_stamps.specs.Edit.{HaveStatesBelow, greatest};
ghost use Rattle.edit_stamps.specs.PlaneMap.{HasStatesBelow};
ghost use Rattle.stamped_writes.specs.Write.{AreSame};
ghost use Rattle.stamped_tree.specs.Plane.{map_of};
ghost use Rattle.board.specs.Entries.{edits_of, last_of};
ghost use Rattle.board.specs.Origins.{origin, list_of};
ghost use Rattle.inbox.specs.Counts.{counted};
ghost use Rattle.inbox.specs.Hands.{of};
ghost use Rattle.inbox.specs.Settled.{HasAsMany, IsOf};
ghost use Rattle.relay_board.specs.Same.{Same};
ghost use Rattle.relay_board.specs.Turns.{Takes};
ghost use Rattle.relay_board.specs.Seating.{mines_of, Numbered, BeginsWithAll};
ghost use Rattle.relay_board.specs.Closing.{IsAccount, IsWhole, IsLeft, AreCountable};

use crate::fault::{FinishFault, TurnFault, finish_fault};
use crate::naming::Naming;
use crate::relay::{Relay, Turn};
use crate::seat::Seat;
use board::{Board, Front};
use edit_stamps::EditList;
use inbox::Drain;
use lists::ListOf;
use stamped_tree::Plane;
use std::alloc::{AllocError, Global};
use std::collections::VecDeque;
use std::sync::Wait;

/// What came of a board: of its published list the last edits, the number of those before them and the
/// plane, and how many submissions of each seat were accepted.
#[derive(Drop)]
pub struct Account {
    /// How many published edits came before those that are here.
    pub before: u64,
    /// The last 1,024 published edits, or all of them where there are fewer.
    pub published: EditList,
    /// The greatest write at each coordinate, of all that was published.
    pub plane: Plane,
    /// Of each seat, in the order of their numbers, how many of its submissions were accepted.
    pub accepted: ListOf<u64>,
    /// The published list, which stands in the proofs alone.
    pub front: Front,
}

/// Whether the seats stand in the order of their places.
pub fn in_order<J: Naming>(seats: &[Seat<J>]) -> bool
    ensures { IsTrue result ↔ Numbered 0 seats.now }
{
    for k in 0..seats.len() {
        if seats[k].place() != k as u64 {
            return false;
        }
    }
    true
}

/// Whether the relay may finish with these seats: it was closed, and they are all that it made, in the order of
/// their places. A test for a relay and seats that have been on other threads.
pub fn is_whole<J: Naming, R: Wait + Drop>(relay: &Relay<J, R>, seats: &[Seat<J>]) -> bool
    ensures closed { IsTrue result → relay.now.closed ≡ true }
    ensures all { IsTrue result → relay.now.made ≡ length seats.now }
    ensures order { IsTrue result → Numbered 0 seats.now }
    ensures told { relay.now.closed ≡ true → relay.now.made ≡ length seats.now → Numbered 0 seats.now → IsTrue result }
{
    if !relay.is_closed() {
        return false;
    }
    if relay.counts().len() != seats.len() {
        return false;
    }
    in_order(seats)
}

/// Whether the front begins with what each seat has seen.
fn begins_with_all<J: Naming>(front: &Front, seats: &[Seat<J>]) -> bool
    requires { origin front.now ≡ J.origin }
    ensures { IsTrue result ↔ BeginsWithAll (list_of front.now) seats.now }
{
    for k in 0..seats.len() {
        if !seats[k].is_within(front) {
            return false;
        }
    }
    true
}

/// Takes all seats in.
fn retire_all<J: Naming>(drain: &mut Drain, seats: Vec<Seat<J>>)
    requires inbox { (arc_value drain.old.queue).table.shared.table_id ≡ J.inbox }
    requires none { (view drain.old.pass).known ≡ [] }
    requires all { (view drain.old.pass).made ≡ length seats.items }
    requires seats { Numbered 0 seats.items }
    requires many { HasAsMany (view drain.old.pass).out (mines_of seats.items) }
    ensures { IsOf (view drain.old.pass).out (mines_of seats.items) }
{
    let mut left = VecDeque::from(seats);
    while let Some(seat) = left.pop_front() {
        drain.retire(seat.into_post());
    }
    drain.settle();
}

/// How many submissions of each seat were accepted.
fn accepted_of<J: Naming>(alloc: Global, seats: &[Seat<J>]) -> Result<Vec<u64>, AllocError>
    ensures { IfOk result (λ v. v.items ≡ map (λ s. counted (length s.mine)) seats.now) }
{
    let mut accepted = Vec::new(alloc);
    for seat in seats {
        accepted.push(seat.accepted())?;
    }
    Ok(accepted)
}

/// The account of the board's list.
fn account_of<J: Naming>(
    alloc: Global,
    board: &Board,
    front: Front,
    seats: &[Seat<J>],
) -> Result<Account, AllocError>
    ensures account { IfOk result (λ a. IsAccount board.now.list a × (a.front ≡ front)) }
    ensures accepted { IfOk result (λ a. a.accepted ≡ map (λ s. counted (length s.mine)) seats.now) }
{
    let published = board.last(alloc)?;
    let before = board.len() - published.as_slice().len() as u64;
    let plane = board.copy_plane()?;
    let accepted = accepted_of(alloc, seats)?;
    Ok(Account {
        before,
        published,
        plane,
        accepted: ListOf::of_vec(accepted),
        front,
    })
}

/// Publishes until the list has all that was accepted, or a turn fails.
fn drained<J: Naming, R: Wait + Drop>(
    relay: &mut Relay<J, R>,
    seats: &[Seat<J>],
) -> Option<TurnFault>
    ensures same { Same relay.old relay.new }
    ensures grows { IsPrefix relay.old.list relay.new.list }
    ensures takes { Takes relay.old result relay.new }
    ensures done { IfNone result (HasAsMany relay.new.list (mines_of seats.now) × AreCountable (mines_of seats.now) × (relay.new.kept ≡ []) × (relay.new.out ≡ relay.new.list)) }
{
    // As `forever`, whose handle is lent with the relay: no run takes so many turns.
    for _ in 0..u64::MAX {
        if relay.is_settled() && relay.has_all(seats) {
            return None;
        }
        match relay.turn() {
            Turn::Idle => {}
            Turn::Published(_) => {}
            Turn::Failed(fault) => return Some(fault),
        }
    }
    relay.stop()
}

/// The account of a relay that has nothing kept.
fn closing<J: Naming, R: Wait + Drop>(
    alloc: Global,
    relay: &Relay<J, R>,
    seats: &[Seat<J>],
) -> Result<Account, FinishFault>
    requires settled { relay.now.kept ≡ [] }
    requires countable { AreCountable (mines_of seats.now) }
    ensures list { IfOk result (λ a. list_of a.front ≡ relay.now.list) }
    ensures of { IfOk result (λ a. origin a.front ≡ relay.now.origin) }
    ensures below { IfOk result (λ a. HaveStatesBelow (origin a.front).states (edits_of (list_of a.front))) }
    ensures states { IfOk result (λ a. 0 < (origin a.front).states → HasStatesBelow (origin a.front).states (map_of a.plane)) }
    ensures seen { IfOk result (λ a. BeginsWithAll (list_of a.front) seats.now) }
    ensures account { IfOk result (λ a. IsAccount (list_of a.front) a) }
    ensures accepted { IfOk result (λ a. a.accepted ≡ map (λ s. length s.mine) seats.now) }
    ensures err { IfErr result (λ f. f ≢ FinishFault.StoreFull) }
    ensures closed { IfErr result (λ f. f ≡ FinishFault.Closed → ¬ (BeginsWithAll relay.now.list seats.now)) }
{
    let front = relay.front();
    if !begins_with_all(&front, seats) {
        return Err(FinishFault::Closed);
    }
    match account_of(alloc, relay.board(), front, seats) {
        Ok(account) => Ok(account),
        Err(_) => Err(FinishFault::Memory),
    }
}

/// Takes all seats in, and ends the board.
fn retired<J: Naming, R: Wait + Drop>(relay: Relay<J, R>, seats: Vec<Seat<J>>)
    requires all { relay.made ≡ length seats.items }
    requires order { Numbered 0 seats.items }
    requires many { HasAsMany relay.out (mines_of seats.items) }
    ensures { IsOf relay.out (mines_of seats.items) }
{
    let (mut drain, publisher, rt) = relay.into_parts();
    retire_all(&mut drain, seats);
    publisher.end(&rt);
}

impl<J: Naming, R: Wait + Drop> Relay<J, R> {
    /// Whether all that was taken is published: nothing is kept.
    pub fn has_published_all(&self) -> bool
        ensures kept { IsTrue result ↔ (self.now.kept ≡ []) }
        ensures out { self.now.out ≡ self.now.list ++ self.now.kept }
        ensures ready { self.now.ready ≤ length self.now.kept }
    {
        self.kept.is_empty()
    }

    /// Whether the published list has of each seat as many entries as were accepted of it, and a `u64` counts
    /// them.
    pub fn has_all(&self, seats: &[Seat<J>]) -> bool
        ensures all { IsTrue result → HasAsMany self.now.list (mines_of seats.now) }
        ensures countable { IsTrue result → AreCountable (mines_of seats.now) }
    {
        let counts = self.counts();
        for k in 0..seats.len() {
            if k >= counts.len() {
                return false;
            }
            let count = counts[k];
            if count == u64::MAX || count < seats[k].accepted() {
                return false;
            }
        }
        true
    }

    /// Publishes what is left, makes the account, and ends the board. Where it does not finish, relay and seats
    /// come back, what was published stays published, the rest is still queued or kept, and it may be called
    /// again; after `StoreFull` it will be refused again. `Closed` only where a seat had seen more than was
    /// published.
    pub fn finish(
        mut self,
        alloc: Global,
        seats: Vec<Seat<J>>,
    ) -> Result<Account, (Relay<J, R>, Vec<Seat<J>>, FinishFault)>
        requires closed { self.closed ≡ true }
        requires all { self.made ≡ length seats.items }
        requires order { Numbered 0 seats.items }
        ensures whole { IfOk result (λ a. IsWhole self.origin self.list (list_of a.front) seats.items a) }
        ensures err { IfErr result (λ r. (r.1.items ≡ seats.items) × Same self r.0 × IsPrefix self.list r.0.list × (r.2 ≡ FinishFault.StoreFull → r.0.stored ≡ r.0.room) × (r.2 ≡ FinishFault.Closed → ¬ (BeginsWithAll r.0.list r.1.items))) }
        ensures left { IfErr result (λ r. IsLeft r.2 self r.1.items r.0) }
    {
        if let Some(fault) = drained(&mut self, seats.as_slice()) {
            return Err((self, seats, finish_fault(fault)));
        }
        self.end(alloc, seats)
    }

    /// Makes the account of a relay that has published all that was accepted, and ends the board. Nothing is
    /// published any more; where it does not end, relay and seats come back as they were. `Closed` only where
    /// a seat had seen more than was published.
    pub fn end(
        self,
        alloc: Global,
        seats: Vec<Seat<J>>,
    ) -> Result<Account, (Relay<J, R>, Vec<Seat<J>>, FinishFault)>
        requires closed { self.closed ≡ true }
        requires all { self.made ≡ length seats.items }
        requires order { Numbered 0 seats.items }
        requires kept { self.kept ≡ [] }
        requires many { HasAsMany self.list (mines_of seats.items) }
        requires countable { AreCountable (mines_of seats.items) }
        ensures whole { IfOk result (λ a. IsWhole self.origin self.list (list_of a.front) seats.items a) }
        ensures list { IfOk result (λ a. list_of a.front ≡ self.list) }
        ensures same { IfErr result (λ r. (r.0 ≡ self) × (r.1.items ≡ seats.items)) }
        ensures fault { IfErr result (λ r. r.2 ≢ FinishFault.StoreFull) }
        ensures unseen { IfErr result (λ r. r.2 ≡ FinishFault.Closed → ¬ (BeginsWithAll self.list seats.items)) }
    {
        // For the proof alone: the call tells that what was taken is what is published.
        let _all = self.has_published_all();
        match closing(alloc, &self, seats.as_slice()) {
            Err(fault) => Err((self, seats, fault)),
            Ok(account) => {
                retired(self, seats);
                Ok(account)
            }
        }
    }
}
