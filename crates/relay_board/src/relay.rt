//! The relay: it takes what seats submit and makes it ready, and publishes what is ready, one entry after another, and
//! answers it.

ghost use Rattle.std.specs.Prelude.{◌≡◌, ◌⊎◌, ◌<◌, ◌+◌, ◌++◌, ◌∷◌, [], length, take, true, false, nat_lt, if◌then◌else◌, slice_get, option_copied, Err, OnOk, OnErr, IsTrue, ◌↔◌, MatchBool, MatchResult};
ghost use mathlib.Core.List.{IsPrefix};
ghost use Rattle.std.specs.Arc.{arc_value};
ghost use Rattle.crossbeam_queue.specs.Passes.{view};
ghost use Rattle.board.specs.Origins.{origin, list_of};
ghost use Rattle.board.specs.Publishing.{Publishes};
ghost use Rattle.board.specs.Sights.{label_of};
ghost use Rattle.inbox.specs.Books.{label_in};
ghost use Rattle.receipts.specs.About.{entry_of, known_by};
ghost use Rattle.receipts.specs.Topics.{topic};
ghost use Rattle.edit_stamps.specs.Edit.{greatest};
ghost use Rattle.stamped_writes.specs.Write.{AreSame, joined};
ghost use Rattle.stamped_tree.specs.Plane.{map_of};
ghost use Rattle.relay_board.specs.Kept.{AreFor, EndsWith, IsTold, kept_of};
ghost use Rattle.relay_board.specs.Same.{Same};
ghost use Rattle.relay_board.specs.Tallies.{Tallies};
ghost use Rattle.relay_board.specs.Turns.{most_ready, FindsNone, IsFetched, Readies, Shows, ShowsFirst, Turns};

use crate::door::Door;
use crate::fault::{TurnFault, turn_fault};
use crate::naming::Naming;
use crate::seat::Seat;
use crate::tally::tally;
use board::{Board, Entry, Front, Publisher};
use circular_buffer::HeapCircularBuffer;
use core::mem::replace_with;
use edit_stamps::Stamp;
use held_plane::{Added, HeldPlane};
use inbox::{Drain, Submission};
use receipts::{Answer, Answered};
use std::alloc::{AllocError, Global};
use std::marker::{Model, PhantomData};
use std::slice;
use std::sync::{Arc, Wait};
use std::time::Duration;

/// The most entries that are ready at once.
pub const MOST_READY: usize = 64;

/// Who publishes what seats submit. It keeps the handle by which it waits, so that it may be dropped: its drop
/// ends the board, and lets who waits for a receipt know.
pub struct Relay<J: Naming, R: Wait + Drop> {
    /// The published list.
    pub(crate) publisher: Publisher,
    /// Its end of the inbox.
    pub(crate) drain: Drain,
    /// What was taken and is not published yet, the oldest first.
    pub(crate) kept: HeapCircularBuffer<Submission>,
    /// How many of these are ready, from the first on.
    pub(crate) ready: usize,
    /// Whether the first of them was announced to the publisher.
    pub(crate) told: bool,
    /// That the last published entry was answered.
    pub(crate) answered: Option<Answered>,
    /// A plane of its own, with the room that was asked for: what does not fit there is not published.
    pub(crate) tried: HeldPlane,
    /// How many entries were published of each seat.
    pub(crate) counts: Vec<u64>,
    /// What it shares with its seats beside the inbox.
    pub(crate) door: Arc<Door, Global>,
    /// Whether `close` was called.
    pub(crate) closed: bool,
    /// By which it waits.
    pub(crate) rt: R,
    pub(crate) of: PhantomData<J>,
}

impl<J: Naming, R: Wait + Drop> Model for Relay<J, R> {
    ghost use Rattle.relay_board.specs.Relaying.{Relaying};

    ghost Value = { Relaying };

    ghost use Rattle.relay_board.specs.Kept.{relaying_of, IsRelay};

    ghost view = { relaying_of };

    ghost invariant = { IsRelay J.origin J.inbox };
}

impl<J: Naming, R: Wait + Drop> Drop for Relay<J, R> {
    fn drop(self) {
        let Self {
            publisher,
            drain: _,
            kept: _,
            ready: _,
            told: _,
            answered: _,
            tried: _,
            counts: _,
            door,
            closed: _,
            rt,
            of: _,
        } = self;
        door.leave();
        publisher.end(&rt);
    }
}

/// What wakes a relay that rests. It does not keep the board.
#[derive(Drop)]
pub struct Bell {
    door: Arc<Door, Global>,
}

impl Bell {
    /// Wakes the relay, or lets its next rest end at once.
    pub fn ring(&self) {
        self.door.ring();
    }
}

/// What came of making an entry ready.
#[derive(Clone, Copy, Debug, PartialEq, Eq)]
pub enum Readiness {
    /// Nothing was kept that is not ready, and the inbox was empty at one moment of the call.
    Idle,
    /// 64 are ready. Nothing was taken.
    Full,
    /// One more is ready.
    Ready,
    /// It is kept, and the next call tries it again.
    Failed(TurnFault),
}

/// What a turn did.
#[derive(Clone, Copy, Debug, PartialEq, Eq)]
pub enum Turn {
    /// Nothing was kept, and the inbox was empty at one moment of the call.
    Idle,
    /// The edit of this stamp was published.
    Published(Stamp),
    /// What was taken is kept, and the next turn tries it again.
    Failed(TurnFault),
}

/// The answer to the last entry of a list.
fn answer_of(entry: &Entry, front: Front) -> Answer
    requires { EndsWith (list_of front) entry.now }
    ensures { (entry_of result ≡ entry.now) × (result.front ≡ front) }
{
    let at = front.len() - 1;
    Answer { at, front }
}

/// Answers what was published.
fn answered<R: Wait>(rt: &R, kept: Submission, front: Front) -> Answered
    requires list { EndsWith (list_of front) kept.entry }
    requires label { label_in kept ≡ label_of (origin front) }
    ensures { known_by result ≡ topic kept.entry (origin front) }
{
    let Submission { entry, answering } = kept;
    answering.answer(rt, answer_of(&entry, front))
}

/// Joins a kept edit into a plane.
fn joined(
    plane: &mut HeldPlane,
    kept: &HeapCircularBuffer<Submission>,
    at: usize,
) -> Result<(), TurnFault>
    requires { at < length kept.now.items }
    ensures ok { OnOk result ((e : Entry) × (slice_get (kept_of kept.now.items) at ≡ Some e) × AreSame (map_of plane.new) (joined (map_of plane.old) (greatest (e.edit ∷ [])))) }
    ensures err { OnErr result (AreSame (map_of plane.new) (map_of plane.old)) }
    ensures room { plane.new.store.room ≡ plane.old.store.room }
    ensures full { result ≡ Err TurnFault.StoreFull → length plane.new.store.squares ≡ plane.new.store.room }
{
    let Some(next) = kept.get(at) else {
        unreachable!()
    };
    match plane.join(Added::Edits(slice::from_ref(&next.entry.edit))) {
        Ok(()) => Ok(()),
        Err(fault) => Err(turn_fault(fault)),
    }
}

/// Whether the first entry that is kept is announced as one more is kept behind so many that are ready: not if
/// there are none.
fn stays_told(told: bool, ready: usize) -> bool
    ensures { result ≡ (if told then nat_lt 0 ready else false) }
{
    told && ready > 0
}

/// Announces the first entry that is kept, unless that was done.
fn announced(
    publisher: &mut Publisher,
    told: bool,
    kept: &HeapCircularBuffer<Submission>,
) -> Result<(), AllocError>
    requires some { 0 < length kept.now.items }
    requires told { IsTold told (kept_of kept.now.items) publisher.old.announced publisher.old.list }
    requires label { AreFor kept.now.items (label_of publisher.old.origin) }
    ensures same { (publisher.new.list ≡ publisher.old.list) × (publisher.new.origin ≡ publisher.old.origin) }
    ensures announced { MatchResult result (λ _. publisher.new.announced ≡ publisher.old.list ++ take 1 (kept_of kept.now.items)) (λ _. publisher.new.announced ≡ publisher.old.announced) }
{
    if told {
        return Ok(());
    }
    let Some(first) = kept.front() else {
        unreachable!()
    };
    let Ok(entry) = first.entry.copy() else {
        return Err(AllocError);
    };
    match publisher.announce(entry) {
        Ok(()) => Ok(()),
        Err(_) => Err(AllocError),
    }
}

/// Publishes what was announced.
fn shown<R: Wait>(publisher: &mut Publisher, rt: &R) -> Result<(), AllocError>
    ensures { Publishes publisher.old result publisher.new }
{
    replace_with(publisher, rt, |publisher, rt| publisher.show(rt))
}

impl<J: Naming, R: Wait + Drop> Relay<J, R> {
    /// Makes the next entry ready, the one that is kept behind those that are ready or else the next one of the
    /// inbox: it is joined into the relay's own plane, which may be full. Nothing is published. `Idle` only if
    /// nothing was kept that is not ready and the inbox was empty at one moment of the call.
    pub fn ready(&mut self) -> Readiness
        ensures same { Same self.old self.new }
        ensures readied { Readies self.old result self.new }
    {
        if self.ready >= MOST_READY {
            return Readiness::Full;
        }
        if !self.fetch() {
            return Readiness::Idle;
        }
        match self.prepare() {
            Ok(()) => Readiness::Ready,
            Err(fault) => Readiness::Failed(fault),
        }
    }

    /// Publishes the first entry that is ready, and then sends its receipt. Without memory nothing is published,
    /// and it stays the first.
    // The publisher holds one entry at a time, so it is announced no sooner than here.
    pub fn show(&mut self) -> Result<Stamp, AllocError>
        requires { 0 < self.old.ready }
        ensures same { Same self.old self.new }
        ensures shown { Shows self.old result self.new }
    {
        match announced(&mut self.publisher, self.told, &self.kept) {
            Err(_) => return Err(AllocError),
            Ok(()) => {}
        }
        self.told = true;
        match shown(&mut self.publisher, &self.rt) {
            Err(_) => Err(AllocError),
            Ok(()) => {
                let Some(first) = self.kept.pop_front() else {
                    unreachable!()
                };
                let (seat, stamp) = (first.entry.seat, first.entry.edit.stamp());
                let front = self.publisher.front();
                self.door.publish(front.len());
                self.answered = Some(answered(&self.rt, first, front));
                self.ready -= 1;
                self.told = false;
                tally(self.counts.as_mut_slice(), seat);
                Ok(stamp)
            }
        }
    }

    /// Publishes the first entry that is ready, and makes one ready before where none is. `Idle` only if nothing
    /// was kept and the inbox was empty at one moment of the call. Where it failed, the entry is kept.
    pub fn turn(&mut self) -> Turn
        ensures same { Same self.old self.new }
        ensures turned { Turns self.old result self.new }
    {
        if self.ready > 0 {
            return self.show_first();
        }
        match self.ready() {
            Readiness::Idle => Turn::Idle,
            Readiness::Full => unreachable!(),
            Readiness::Ready => self.show_first(),
            Readiness::Failed(fault) => Turn::Failed(fault),
        }
    }

    /// How many entries are ready to be published.
    pub fn count_ready(&self) -> usize
        ensures { result ≡ self.now.ready }
    {
        self.ready
    }

    /// The entry at a place among those that are ready, the first to be published at 0.
    pub fn ready_at(&self, at: usize) -> Option<&Entry>
        ensures { option_copied result ≡ slice_get (take self.now.ready self.now.kept) at }
    {
        if at >= self.ready {
            return None;
        }
        match self.kept.get(at) {
            None => None,
            Some(submission) => Some(&submission.entry),
        }
    }

    /// Takes a submission in, where all that is kept is ready. False where there is none.
    fn fetch(&mut self) -> bool
        requires { self.old.ready < most_ready }
        ensures same { Same self.old self.new }
        ensures fetched { MatchBool result (IsFetched self.old self.new) (FindsNone self.old self.new) }
    {
        if self.ready < self.kept.len() {
            return true;
        }
        match self.drain.take(&self.rt) {
            None => false,
            Some(submission) => {
                self.told = stays_told(self.told, self.ready);
                // There is room: as many are kept as are ready, fewer than 64.
                let Ok(()) = self.kept.try_push_back(submission) else {
                    unreachable!()
                };
                true
            }
        }
    }

    /// Joins the edit that is kept behind those that are ready into the relay's own plane: then it is ready.
    fn prepare(&mut self) -> Result<(), TurnFault>
        requires most { self.old.ready < most_ready }
        requires one { self.old.ready < length self.old.kept }
        ensures prepared { self.new ≡ record self.old { ready = self.new.ready; stored = self.new.stored } }
        ensures ready { MatchResult result (λ _. self.new.ready ≡ self.old.ready + 1) (λ _. self.new.ready ≡ self.old.ready) }
        ensures full { result ≡ Err TurnFault.StoreFull → self.new.stored ≡ self.new.room }
    {
        match joined(&mut self.tried, &self.kept, self.ready) {
            Err(fault) => Err(fault),
            Ok(()) => {
                self.ready += 1;
                Ok(())
            }
        }
    }

    /// A turn that finds an entry ready.
    fn show_first(&mut self) -> Turn
        requires { 0 < self.old.ready }
        ensures same { Same self.old self.new }
        ensures turned { ShowsFirst self.old result self.new }
    {
        match self.show() {
            Ok(stamp) => Turn::Published(stamp),
            Err(_) => Turn::Failed(TurnFault::Memory),
        }
    }

    /// Sleeps until a submission, a ring or a close that no rest has had yet, and for so long at most.
    pub fn rest(&mut self, most: Duration)
        ensures { self.new ≡ self.old }
    {
        self.door.rest(&self.rt, most);
    }

    /// What wakes it, for another thread.
    pub fn bell(&self) -> Result<Bell, AllocError> {
        let door = Arc::try_clone(&self.door)?;
        Ok(Bell { door })
    }

    /// Whether the published list begins what a seat of the board has seen. If not, what the seat has seen begins
    /// the published list.
    pub fn begins(&self, seat: &Seat<J>) -> bool
        ensures exact { IsTrue result ↔ IsPrefix self.now.list seat.now.seen }
        ensures one { IsPrefix self.now.list seat.now.seen ⊎ IsPrefix seat.now.seen self.now.list }
    {
        self.publisher.begins(seat.front())
    }

    /// From now on new submissions are refused; one that is under way may still be accepted.
    pub fn close(&mut self)
        ensures closed { self.new ≡ record self.old { closed = true } }
    {
        self.door.close();
        self.closed = true;
    }

    /// From now on new submissions are refused, and who waits for a receipt is told that none comes: for a
    /// relay that is to take no more turns. What is published can be read still.
    pub fn cease(&mut self)
        ensures closed { self.new ≡ record self.old { closed = true } }
    {
        self.door.cease();
        self.closed = true;
    }

    /// Whether nothing is kept.
    pub(crate) fn is_settled(&self) -> bool
        ensures kept { IsTrue result ↔ (self.now.kept ≡ []) }
        ensures out { IsTrue result → self.now.out ≡ self.now.list }
    {
        self.kept.is_empty()
    }

    /// How many entries were published of each seat.
    pub(crate) fn counts(&self) -> &[u64]
        ensures tallies { Tallies result.now self.now.list }
        ensures made { length result.now ≡ self.now.made }
    {
        self.counts.as_slice()
    }

    /// Whether `close` was called.
    pub(crate) fn is_closed(&self) -> bool
        ensures { result ≡ self.now.closed }
    {
        self.closed
    }

    /// The board as readers see it.
    pub(crate) fn board(&self) -> &Board
        ensures { result.now.list ≡ self.now.list }
    {
        self.publisher.board()
    }

    /// The published list, where nothing is kept.
    pub(crate) fn front(&self) -> Front
        requires { self.now.kept ≡ [] }
        ensures list { list_of result ≡ self.now.list }
        ensures origin { (origin result ≡ self.now.origin) × (origin result ≡ J.origin) }
    {
        self.publisher.front()
    }

    /// Never returns: what `forever` comes to after its last turn.
    pub(crate) fn stop(&self) -> ! {
        for _ in self.rt.forever() {}
        unreachable!()
    }

    /// Its end of the inbox, its publisher and the handle. The board goes on.
    pub(crate) fn into_parts(self) -> (Drain, Publisher, R)
        ensures inbox { (arc_value result.0.queue).table.shared.table_id ≡ J.inbox }
        ensures out { (view result.0.pass).out ≡ self.out }
        ensures made { (view result.0.pass).made ≡ self.made }
        ensures known { (view result.0.pass).known ≡ [] }
    {
        let Self {
            publisher,
            drain,
            kept: _,
            ready: _,
            told: _,
            answered: _,
            tried: _,
            counts: _,
            door: _,
            closed: _,
            rt,
            of: _,
        } = self;
        (drain, publisher, rt)
    }
}
