//! A seat: what it has seen, and its end of the inbox, under the name of its board and its inbox.

ghost use Rattle.std.specs.Prelude.{◌≡◌, ◌⊎◌, ◌+◌, ◌++◌, ◌∷◌, ◌==◌, ◌↔◌, [], length, true, Some, IsTrue, IfOk, IfErr, IfSome};
ghost use mathlib.Core.List.{IsPrefix};
ghost use Rattle.std.specs.Arc.{arc_value};
ghost use Rattle.crossbeam_queue.specs.Passes.{view};
ghost use Rattle.edit_stamps.specs.Edit.{greatest, has_states_below, HaveStatesBelow};
ghost use Rattle.edit_stamps.specs.PlaneMap.{HasStatesBelow};
ghost use Rattle.edit_stamps.specs.Stamp.{replica_in};
ghost use Rattle.generations_rule.specs.Place.{at_place};
ghost use Rattle.generations_rule.specs.Rule.{IsRule};
ghost use Rattle.stamped_writes.specs.Write.{AreSame};
ghost use Rattle.stamped_tree.specs.Plane.{map_of};
ghost use Rattle.poll_news.specs.Below.{IsNewsBelow};
ghost use Rattle.board.specs.Entries.{edits_of};
ghost use Rattle.board.specs.Handing.{IsNews};
ghost use Rattle.board.specs.Learning.{HasLearnt};
ghost use Rattle.board.specs.Origins.{origin, list_of};
ghost use Rattle.inbox.specs.Counts.{counted};
ghost use Rattle.inbox.specs.Hands.{entry};
ghost use Rattle.relay_board.specs.Refusals.{BringRefuses, Lasts, looks_at, Passes, Refuses};
ghost use Rattle.relay_board.specs.Rising.{GoesOn, has_risen, IsRising};
ghost use Rattle.relay_board.specs.Seating.{again, IsSame, HasRead};

use crate::door::Door;
use crate::fault::{Gone, SubmitFault};
use crate::naming::Naming;
use crate::receipt::{Pending, Receipt};
use board::{BoardReader, Front, News, SeatFault};
use edit_stamps::{Edit, Write};
use generations_rule::Rule;
use inbox::{Post, Refused};
use pattern_cells::are_below;
use stamped_tree::Plane;
use std::alloc::Global;
use std::marker::{Model, PhantomData};
use std::sync::{Arc, Wait};
use std::thread::Promise;

/// Who submits edits and reads the published list. Contracts see its place, number and rule, what it put, what it
/// has seen, and how much of that it was handed.
#[derive(Drop)]
pub struct Seat<J: Naming> {
    pub(crate) alloc: Global,
    pub(crate) rule: Rule,
    pub(crate) number: u16,
    /// The counter above which those of its edits rise, where the board is kept in a file.
    pub(crate) floor: Option<u64>,
    /// The counter of the last edit that it put, or else the floor. Where there is no floor, nothing asks it.
    pub(crate) newest: u64,
    pub(crate) reader: BoardReader,
    pub(crate) post: Post,
    /// What it shares with the relay beside the inbox.
    pub(crate) door: Arc<Door, Global>,
    pub(crate) of: PhantomData<J>,
}

impl<J: Naming> Model for Seat<J> {
    ghost use Rattle.relay_board.specs.Seating.{Seating};

    ghost Value = { Seating };

    ghost use Rattle.relay_board.specs.Seats.{seating_of, IsSeatOf};

    ghost view = { seating_of };

    ghost invariant = { IsSeatOf J.origin J.inbox };
}

/// A copy of what was seen. A front that is lent out of the seat itself would leave the seat taken apart.
fn front_of(reader: &BoardReader) -> Front
    ensures { result ≡ reader.now.window.front }
{
    reader.window.front.again()
}

/// Whether an edit is of a replica.
fn is_of(edit: &Edit, number: u16) -> bool
    ensures { result ≡ (replica_in edit.now.stamp == number) }
{
    edit.stamp().replica() == number
}

/// Whether an edit's states are those of a rule.
pub(crate) fn is_under(edit: &Edit, rule: &Rule) -> bool
    ensures { result ≡ has_states_below rule.now.states edit.now }
{
    are_below(rule.states(), edit.listed_cells())
}

/// Whether an edit's counter is above the newest one; where there is no floor, any is.
fn is_newer(edit: &Edit, floor: Option<u64>, newest: u64) -> bool
    ensures { result ≡ has_risen floor newest edit.now }
{
    match floor {
        None => true,
        Some(_) => edit.stamp().counter() > newest,
    }
}

impl<J: Naming> Seat<J> {
    /// Its number: the replica whose edits it submits, from 1.
    pub fn number(&self) -> u16
        ensures { result ≡ self.now.number }
    {
        self.number
    }

    /// Its place among the seats, from 0.
    pub(crate) fn place(&self) -> u64
        ensures { result ≡ self.now.place }
    {
        self.post.seat
    }

    /// The rule that the board was started with: each state of what is published is one of its states.
    pub fn rule(&self) -> Rule
        ensures value { result ≡ self.now.rule }
        ensures below { HaveStatesBelow self.now.rule.states (edits_of self.now.seen) }
        ensures rule { IsRule self.now.rule }
    {
        // For the proof alone: the call tells that what is held is a rule.
        let _states = self.rule.states();
        self.rule
    }

    /// How many of its submissions were accepted; it stays at 2^64 - 1.
    pub fn accepted(&self) -> u64
        ensures { result ≡ counted (length self.now.mine) }
    {
        self.post.accepted()
    }

    /// From now on the counters of its edits rise from this one on: for a board that is kept in a file, which
    /// has no greater one of this seat's replica.
    pub fn keep_above(&mut self, counter: u64)
        requires { self.old.mine ≡ [] }
        ensures { self.new ≡ record self.old { floor = Some counter } }
    {
        self.floor = Some(counter);
        self.newest = counter;
    }

    /// The counter above which those of its edits rise, where they have to.
    pub fn floor(&self) -> Option<u64>
        ensures value { result ≡ self.now.floor }
        ensures rises { IsRising self.now.floor self.now.number self.now.mine }
    {
        self.floor
    }

    /// From now on nothing counts as handed out: who is seated here next is told all.
    pub fn again(&mut self)
        ensures { self.new ≡ again self.old }
    {
        self.reader.handed = 0;
    }

    /// Submits an edit. It is handed back where it is refused: in this order an edit whose stamp's replica is
    /// not this seat's number, a state that the rule does not have, on a board that is kept in a file a stamp
    /// whose counter is not above the last of the seat's, a relay that takes no submission any more, want of
    /// memory, and an inbox that was full at one moment of the call.
    pub fn submit<R: Wait>(&mut self, rt: &R, edit: Edit) -> Result<Pending<J>, (Edit, SubmitFault)>
        ensures same { IsSame self.old self.new × (self.new.seen ≡ self.old.seen) × (self.new.handed ≡ self.old.handed) }
        ensures put { IfOk result (λ p. (p ≡ entry self.old.place (counted (length self.old.mine + 1)) edit) × (self.new.mine ≡ self.old.mine ++ p ∷ []) × (self.new.full ≡ self.old.full)) }
        ensures passes { IfOk result (λ _. Passes (looks_at self.old edit)) }
        ensures denied { IfErr result (λ r. (r.0 ≡ edit) × (self.new.mine ≡ self.old.mine)) }
        ensures refused { IfErr result (λ r. Refuses r.1 (looks_at self.old edit) self.old.full self.new.full (Lasts self.old.room self.old.place self.old.mine)) }
    {
        if !is_of(&edit, self.number) {
            return Err((edit, SubmitFault::NotYours));
        }
        if !is_under(&edit, &self.rule) {
            return Err((edit, SubmitFault::StateRange));
        }
        if !is_newer(&edit, self.floor, self.newest) {
            return Err((edit, SubmitFault::OldStamp));
        }
        self.put(rt, edit)
    }

    /// Puts an edit that was looked at, where the relay takes any.
    pub(crate) fn put<R: Wait>(
        &mut self,
        rt: &R,
        edit: Edit,
    ) -> Result<Pending<J>, (Edit, SubmitFault)>
        requires below { has_states_below self.old.rule.states edit ≡ true }
        requires goes_on { GoesOn self.old.floor self.old.number self.old.mine edit }
        ensures same { IsSame self.old self.new × (self.new.seen ≡ self.old.seen) × (self.new.handed ≡ self.old.handed) }
        ensures put { IfOk result (λ p. (p ≡ entry self.old.place (counted (length self.old.mine + 1)) edit) × (self.new.mine ≡ self.old.mine ++ p ∷ []) × (self.new.full ≡ self.old.full)) }
        ensures denied { IfErr result (λ r. (r.0 ≡ edit) × (self.new.mine ≡ self.old.mine)) }
        ensures refused { IfErr result (λ r. BringRefuses r.1 true self.old.full self.new.full (Lasts self.old.room self.old.place self.old.mine)) }
    {
        if !self.door.is_open() {
            return Err((edit, SubmitFault::Closed));
        }
        let front = front_of(&self.reader);
        let last = edit.stamp().counter();
        match self.post.put(rt, self.alloc, &front, edit) {
            Ok(pending) => {
                self.newest = last;
                self.door.ring();
                Ok(Pending::new(pending))
            }
            Err((edit, fault)) => match fault {
                Refused::Full => Err((edit, SubmitFault::Full)),
                Refused::Memory => Err((edit, SubmitFault::Memory)),
            },
        }
    }

    /// Waits for the receipt of that very submission; `Gone` once the relay publishes nothing more, or was
    /// dropped, and a further try found nothing. It takes no memory.
    pub fn receive<R: Wait>(&mut self, rt: &R, mut pending: Pending<J>) -> Result<Receipt<J>, Gone>
        ensures receipt { IfOk result (λ r. r.entry ≡ pending) }
        ensures same { self.new ≡ self.old }
    {
        for _ in rt.forever() {
            let gone = self.door.has_ceased();
            if let Ok(receipt) = pending.try_receive(rt) {
                return Ok(receipt);
            }
            if gone {
                return Err(Gone);
            }
            pending.rest(rt);
        }
        unreachable!()
    }

    /// Looks once for the receipt of that very submission. The pending comes back where nothing is there; it
    /// does not where the relay published nothing more before the look.
    pub fn try_receive<R: Wait>(
        &mut self,
        rt: &R,
        mut pending: Pending<J>,
    ) -> Result<Receipt<J>, Option<Pending<J>>>
        ensures receipt { IfOk result (λ r. r.entry ≡ pending) }
        ensures back { IfErr result (λ o. IfSome o (λ p. p ≡ pending)) }
        ensures same { self.new ≡ self.old }
    {
        let gone = self.door.has_ceased();
        if let Ok(receipt) = pending.try_receive(rt) {
            return Ok(receipt);
        }
        if gone { Err(None) } else { Err(Some(pending)) }
    }

    /// Wakes the relay.
    pub fn ring(&self) {
        self.door.ring();
    }

    /// From now on it sees no less than the receipt's list. It never waits.
    pub fn learn(&mut self, receipt: &Receipt<J>)
        ensures same { HasRead self.old self.new × (self.new.handed ≡ self.old.handed) }
        ensures learnt { HasLearnt self.old.seen receipt.now.list self.new.seen }
    {
        self.reader.learn(&receipt.answer().front);
    }

    /// Hands out the edits that follow those handed out before, in order, or the whole plane where some of
    /// them are no longer among the last 1,024. It never waits.
    pub fn poll(&mut self) -> Result<News, SeatFault>
        ensures same { HasRead self.old self.new }
        ensures news { IfOk result (λ n. IsNews (edits_of self.new.seen) self.old.handed n × (self.new.handed ≡ length self.new.seen)) }
        ensures fault { IfErr result (λ f. (self.new.handed ≡ self.old.handed) × (f ≡ SeatFault.Closed → self.new.seen ≡ self.old.seen)) }
        ensures states { HaveStatesBelow self.new.rule.states (edits_of self.new.seen) }
        ensures below { IfOk result (IsNewsBelow self.new.rule.states) }
    {
        // For the proof alone: the call tells that what is held is a rule.
        let _rule = self.rule.states();
        self.reader.poll()
    }

    /// Whether more was published than this seat was handed, as far as is known, or the relay is gone, so that
    /// nothing more comes. No clause speaks of it: the relay publishes meanwhile. What a receipt came for is
    /// known. It takes no lock and no memory.
    pub fn has_news(&self) -> bool {
        self.reader.handed < self.door.published() || self.door.is_gone()
    }

    /// Hands out the plane of a list that begins with what was seen, and says how many entries that list has.
    /// The whole list is handed out then. It never waits.
    pub fn hand_out(&mut self) -> Result<(Plane, u64), SeatFault>
        ensures same { HasRead self.old self.new }
        ensures plane { IfOk result (λ p. AreSame (map_of p.0) (greatest (edits_of self.new.seen))) }
        ensures count { IfOk result (λ p. (p.1 ≡ length self.new.seen) × (self.new.handed ≡ length self.new.seen)) }
        ensures fault { IfErr result (λ f. (self.new.handed ≡ self.old.handed) × (f ≡ SeatFault.Closed → self.new.seen ≡ self.old.seen)) }
        ensures states { IfOk result (λ p. HasStatesBelow self.new.rule.states (map_of p.0)) }
    {
        // For the proof alone: the call tells that what is held is a rule.
        let _rule = self.rule.states();
        self.reader.hand_out()
    }

    /// The greatest write at a coordinate, of a list that begins with what was seen. It takes no memory, and
    /// never waits.
    pub fn view(&mut self, x: i32, y: i32) -> Result<Write, SeatFault>
        ensures same { HasRead self.old self.new × (self.new.handed ≡ self.old.handed) }
        ensures write { IfOk result (λ w. w ≡ greatest (edits_of self.new.seen) (at_place x y)) }
        ensures closed { IfErr result (λ f. (f ≡ SeatFault.Closed) × (self.new.seen ≡ self.old.seen)) }
    {
        self.reader.view(x, y)
    }

    /// The plane of a list that begins with what was seen. It never waits.
    pub fn plane(&mut self) -> Result<Plane, SeatFault>
        ensures same { HasRead self.old self.new × (self.new.handed ≡ self.old.handed) }
        ensures plane { IfOk result (λ p. AreSame (map_of p) (greatest (edits_of self.new.seen))) }
        ensures fault { IfErr result (λ f. f ≡ SeatFault.Closed → self.new.seen ≡ self.old.seen) }
        ensures states { IfOk result (λ p. HasStatesBelow self.new.rule.states (map_of p)) }
    {
        // For the proof alone: the call tells that what is held is a rule.
        let _rule = self.rule.states();
        self.reader.plane()
    }

    /// Whether what this seat has seen begins what another seat of the board has seen. Of any two seats one has
    /// seen the beginning of what the other has: there is one published list.
    pub fn begins(&self, other: &Seat<J>) -> bool
        ensures exact { IsTrue result ↔ IsPrefix self.now.seen other.now.seen }
        ensures one { IsPrefix self.now.seen other.now.seen ⊎ IsPrefix other.now.seen self.now.seen }
    {
        self.front().begins(other.front())
    }

    /// Whether this seat has seen a receipt's list. If not, what it has seen begins that list.
    pub fn has(&self, receipt: &Receipt<J>) -> bool
        ensures exact { IsTrue result ↔ IsPrefix receipt.now.list self.now.seen }
        ensures one { IsPrefix receipt.now.list self.now.seen ⊎ IsPrefix self.now.seen receipt.now.list }
    {
        receipt.answer().front.begins(self.front())
    }

    /// What this seat has seen, under the board's name.
    pub(crate) fn front(&self) -> &Front
        ensures list { list_of result.now ≡ self.now.seen }
        ensures origin { origin result.now ≡ J.origin }
    {
        &self.reader.window.front
    }

    /// Whether the front begins with what this seat has seen.
    pub(crate) fn is_within(&self, front: &Front) -> bool
        requires { origin front.now ≡ J.origin }
        ensures { IsTrue result ↔ IsPrefix self.now.seen (list_of front.now) }
    {
        self.reader.window.front.begins(front)
    }

    /// The end of the inbox alone.
    pub(crate) fn into_post(self) -> Post
        ensures place { result.seat ≡ self.place }
        ensures inbox { (arc_value result.queue).table.shared.table_id ≡ J.inbox }
        ensures put { (view result.pass).put ≡ self.mine }
    {
        let Seat {
            alloc: _,
            rule: _,
            number: _,
            floor: _,
            newest: _,
            reader: _,
            post,
            door: _,
            of: _,
        } = self;
        post
    }
}

/// The promise of a thread that it gives back the seat of this number.
#[derive(Drop)]
pub struct IsSeat(pub u16);

impl<J: Naming> Promise<Seat<J>> for IsSeat {
    ghost use Rattle.std.specs.Prelude.{◌≡◌};

    ghost kept_by = { λ p s. s.number ≡ p.0 };
}
