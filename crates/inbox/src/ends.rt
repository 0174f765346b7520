//! The two kinds of end of an inbox: a post for each seat, and the one drain.

ghost use Rattle.std.specs.Prelude.{◌≡◌, ◌+◌, ◌<◌, ◌++◌, ◌∷◌, true, [], List, length, IfOk, IfErr, IfNone, OnErr, MatchOption, MatchResult};
ghost use Rattle.std.specs.Arc.{arc_value};
ghost use Rattle.crossbeam_queue.specs.Passes.{view, IsPassOf, ruled_capacity};
ghost use Rattle.crossbeam_channel.specs.Claims.{view as claim};
ghost use Rattle.edit_stamps.specs.Edit.{has_states_below};
ghost use Rattle.board.specs.Origins.{origin};
ghost use Rattle.board.specs.Sights.{label_of};
ghost use Rattle.receipts.specs.About.{known_by};
ghost use Rattle.receipts.specs.Ends.{channel_of};
ghost use Rattle.receipts.specs.Topics.{topic};
ghost use Rattle.inbox.specs.Books.{label_in};
ghost use Rattle.inbox.specs.Counts.{counted, Risen, WasFull, Denies};
ghost use Rattle.inbox.specs.declared.submission.Submission.{Submission};
ghost use Rattle.inbox.specs.Hands.{receiver, IsSender, IsReceiver, after_bind, after_retire, after_take, entries_of, entry, IsAll};

use crate::rule::{Binds, Booked, Closing, Hand, Hires, InboxRule, Puts, Retires, Takes};
use crate::submission::Submission;
use board::{Entry, Front};
use crossbeam_queue::{Pass, RuledArrayQueue};
use edit_stamps::Edit;
use receipts::{Pending, open};
use std::alloc::{AllocError, Global};
use std::marker::Brand;
use std::sync::{Arc, Wait};

/// The queue under the inbox's rule.
pub type Queue = RuledArrayQueue<Submission, Hand, InboxRule>;

/// A seat's end.
#[derive(Drop)]
pub struct Post {
    pub queue: Arc<Queue, Global>,
    pub pass: Pass<Submission, Hand>,
    /// The seat's place, from 0.
    pub seat: u64,
    /// How many of its submissions were accepted; it stays at 2^64 - 1.
    accepted: u64,
    /// How often it found the inbox full; it stays at 2^64 - 1.
    pub full: u64,
    pub ghost of: { IsPassOf (arc_value queue) pass },
    pub ghost sends: { IsSender seat (view pass) },
    pub ghost told: { accepted ≡ counted (length (view pass).put) },
}

/// The relay's end.
#[derive(Drop)]
pub struct Drain {
    pub queue: Arc<Queue, Global>,
    pub pass: Pass<Submission, Hand>,
    /// How often it found the inbox empty; it stays at 2^64 - 1.
    pub empties: u64,
    pub ghost of: { IsPassOf (arc_value queue) pass },
    pub ghost gets: { IsReceiver (view pass) },
}

/// Why an edit was not put.
#[derive(Clone, Copy, Debug, PartialEq, Eq)]
pub enum Refused {
    /// The inbox was full at one moment of the call.
    Full,
    /// Out of memory. Nothing changed.
    Memory,
}

impl Post {
    /// How many of its submissions were accepted, up to 2^64 - 1.
    pub fn accepted(&self) -> u64
        ensures { result ≡ counted (length (view self.now.pass).put) }
    {
        self.accepted
    }

    /// Puts an edit as the next entry of this seat, for the board of a front, which is the inbox's, and gives the
    /// end at which it will be answered: of the very channel that goes along with the entry. Entries are numbered from 1; the number stays at 2^64 - 1. A refusal
    /// hands the edit back, and nothing was put: `Full` only where the inbox was full at one moment of the call.
    pub fn put<R: Wait>(
        &mut self,
        rt: &R,
        alloc: Global,
        front: &Front,
        edit: Edit,
    ) -> Result<Pending, (Edit, Refused)>
        requires label { label_of (origin front.now) ≡ (view self.old.pass).label }
        requires below { has_states_below front.now.states edit ≡ true }
        ensures same { (self.new.queue ≡ self.old.queue) × (self.new.seat ≡ self.old.seat)
            × ((view self.new.pass).label ≡ (view self.old.pass).label) }
        ensures pending { IfOk result (λ p. known_by (claim p.pass)
            ≡ topic (entry self.old.seat (counted (length (view self.old.pass).put + 1)) edit) (origin front.now)) }
        ensures put { IfOk result (λ p. (view self.new.pass).put
            ≡ (view self.old.pass).put ++ (claim p.pass).entry ∷ []) }
        ensures channel { IfOk result (λ p. (view self.new.pass).channels
            ≡ (view self.old.pass).channels ++ channel_of p ∷ []) }
        ensures refused { IfErr result (λ r. (r.0 ≡ edit) × (view self.new.pass ≡ view self.old.pass)) }
        ensures full { MatchResult result (λ _. self.new.full ≡ self.old.full)
            (λ r. Denies r.1 self.old.full self.new.full
            (WasFull (ruled_capacity (arc_value self.old.queue)) (view self.old.pass))) }
    {
        let entry = Entry {
            seat: self.seat,
            number: self.accepted.saturating_add(1),
            edit,
        };
        let Ok((answering, pending)) = open(alloc, &entry, front) else {
            return Err((entry.edit, Refused::Memory));
        };
        let next = Submission { entry, answering };
        match self.queue.push_as::<Puts, R>(rt, &mut self.pass, next) {
            Ok(()) => {
                self.accepted = self.accepted.saturating_add(1);
                Ok(pending)
            }
            Err(back) => {
                self.full = self.full.saturating_add(1);
                Err((back.into_edit(), Refused::Full))
            }
        }
    }
}

impl Drain {
    /// An empty inbox for the board of a front, with room for so many submissions. It has no post yet. Only memory
    /// may be wanting; none is enough for 2^60 submissions.
    pub fn new(alloc: Global, room: usize, front: &Front) -> Result<Drain, AllocError>
        requires { 0 < room }
        ensures room { IfOk result (λ d. ruled_capacity (arc_value d.queue) ≡ room) }
        ensures fresh { IfOk result (λ d. (d.empties ≡ 0)
            × (view d.pass ≡ after_bind (label_of (origin front.now)) (receiver [] 0 []))) }
    {
        Drain::bound::<Brand>(alloc, room, front)
    }

    /// The same, for the board that the type names.
    fn bound<J: Booked>(alloc: Global, room: usize, front: &Front) -> Result<Drain, AllocError>
        requires room { 0 < room }
        requires label { J.label ≡ label_of (origin front.now) }
        ensures room { IfOk result (λ d. ruled_capacity (arc_value d.queue) ≡ room) }
        ensures fresh { IfOk result (λ d. (d.empties ≡ 0)
            × (view d.pass ≡ after_bind (label_of (origin front.now)) (receiver [] 0 []))) }
    {
        let (queue, mut pass) = Queue::ruled(alloc, room)?;
        let _ = queue.another::<Binds<J>>(&mut pass);
        Ok(Drain {
            queue: Arc::new(alloc, queue)?,
            pass,
            empties: 0,
        })
    }

    /// Makes the post of the next seat: seats are made in the order of their places, from 0. Out of memory,
    /// nothing changes.
    pub fn post(&mut self, seat: u64) -> Result<Post, AllocError>
        requires seat { seat ≡ (view self.old.pass).made }
        ensures same { self.new.queue ≡ self.old.queue }
        ensures made { IfOk result (λ p. (p.seat ≡ seat) × ((view p.pass).put ≡ []) × ((view p.pass).channels ≡ [])
            × ((view p.pass).label ≡ (view self.old.pass).label)
            × (arc_value p.queue ≡ arc_value self.old.queue)
            × (p.full ≡ 0) × ((view self.new.pass).made ≡ seat + 1)) }
        ensures kept { (self.new.empties ≡ self.old.empties)
            × ((view self.new.pass).out ≡ (view self.old.pass).out)
            × ((view self.new.pass).known ≡ (view self.old.pass).known)
            × ((view self.new.pass).label ≡ (view self.old.pass).label) }
        ensures err { OnErr result (view self.new.pass ≡ view self.old.pass) }
    {
        let queue = Arc::try_clone(&self.queue)?;
        let pass = self.queue.another::<Hires>(&mut self.pass);
        Ok(Post {
            queue,
            pass,
            seat,
            accepted: 0,
            full: 0,
        })
    }

    /// Takes the oldest entry. `None` only where the inbox was empty at one moment of the call; then what was taken
    /// of each seat whose post was taken in is all that it put.
    pub fn take<R: Wait>(&mut self, rt: &R) -> Option<Submission>
        ensures same { self.new.queue ≡ self.old.queue }
        ensures empties { MatchOption result (Risen self.old.empties self.new.empties)
            (λ _. self.new.empties ≡ self.old.empties) }
        ensures taken { MatchOption result (view self.new.pass ≡ view self.old.pass)
            (λ x. (view self.new.pass ≡ after_take (view self.old.pass) x.entry)
            × (label_in x ≡ (view self.old.pass).label)) }
        ensures none { IfNone result (IsAll (view self.old.pass) []) }
    {
        let taken = self.queue.pop_as::<Takes, R>(rt, &mut self.pass);
        if taken.is_none() {
            self.empties = self.empties.saturating_add(1);
        }
        taken
    }

    /// Takes in the post of the next seat, in the order in which they were made.
    pub fn retire(&mut self, post: Post)
        requires queue { (arc_value post.queue).table.shared.table_id ≡ (arc_value self.old.queue).table.shared.table_id }
        requires next { post.seat ≡ length (view self.old.pass).known }
        ensures same { self.new.queue ≡ self.old.queue }
        ensures known { view self.new.pass ≡ after_retire (view self.old.pass) (view post.pass) }
        ensures empties { self.new.empties ≡ self.old.empties }
    {
        self.queue.absorb::<Retires>(&mut self.pass, post.pass);
    }

    /// A look, which changes nothing: of each seat whose post was taken in, what was taken and then what is left is
    /// what it put, in its order, and of a seat that was never made there is nothing.
    pub fn settle(&mut self)
        ensures same { (self.new.queue ≡ self.old.queue) × (view self.new.pass ≡ view self.old.pass) }
        ensures all { (items : List Submission) × IsAll (view self.new.pass) (entries_of items) }
        ensures empties { self.new.empties ≡ self.old.empties }
    {
        self.queue.learn_as::<Closing>(&mut self.pass);
    }
}
