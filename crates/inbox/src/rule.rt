//! The rule of the inbox, and what each step tells who takes it.

use crate::submission::Submission;
use board::{Entry, Label};
use crossbeam_queue::protocol::{Join, Lesson, Outcome, Protocol, Split};
use std::collections::LinkedList;
use std::marker::{Brand, PhantomData};

/// What a pass knows. A sender, which puts: its seat, what it put, and by which channel each of these is to be
/// answered. The receiver, which takes: what it took, how many senders it made, and what each of those put that
/// it has taken in. Once bound, which board the inbox is for. No value of it is made.
pub struct Hand {
    pub sends: bool,
    pub seat: u64,
    pub put: LinkedList<Entry>,
    pub channels: LinkedList<u64>,
    pub gets: bool,
    pub out: LinkedList<Entry>,
    pub made: u64,
    pub known: LinkedList<LinkedList<Entry>>,
    pub bound: bool,
    pub label: Label,
}

/// What holds of the inbox at each moment: of each seat, what was taken and then what the inbox holds is what
/// that seat put; and all of it is for one board.
pub struct InboxRule;

impl Protocol<Submission, Hand> for InboxRule {
    ghost use Rattle.std.specs.Prelude.{[]};
    ghost use Rattle.inbox.specs.Hands.{receiver};
    ghost use Rattle.inbox.specs.Books.{Holds};

    ghost holds = { Holds };

    ghost first = { receiver [] 0 [] };
}

/// A put: the submission's entry, to be answered by its channel. Where the inbox is full, it tells that of this
/// seat the inbox has the last entries that it put.
pub struct Puts;

impl Outcome<Submission, Hand> for Puts {
    ghost use Rattle.std.specs.Prelude.{◌≡◌};
    ghost use Rattle.receipts.specs.Ends.{channel_to};
    ghost use Rattle.inbox.specs.Hands.{after_put};

    ghost then = { λ v x w. w ≡ after_put v x.entry (channel_to x.answering) };
}

impl Lesson<Submission, Hand> for Puts {
    ghost use Rattle.inbox.specs.Counts.{HasLast};
    ghost use Rattle.inbox.specs.Hands.{entries_of};

    ghost fact = { λ v items. HasLast v (entries_of items) };
}

/// A take. Where the inbox is empty, it tells what `Closing` does.
pub struct Takes;

impl Outcome<Submission, Hand> for Takes {
    ghost use Rattle.std.specs.Prelude.{◌≡◌};
    ghost use Rattle.inbox.specs.Hands.{after_take};
    ghost use Rattle.inbox.specs.Books.{label_in};

    ghost then = { λ v x w. (w ≡ after_take v x.entry) × (label_in x ≡ v.label) };
}

impl Lesson<Submission, Hand> for Takes {
    ghost use Rattle.inbox.specs.Hands.{entries_of, IsAll};

    ghost fact = { λ v items. IsAll v (entries_of items) };
}

/// The receiver makes the next sender.
pub struct Hires;

impl Split<Hand> for Hires {
    ghost use Rattle.inbox.specs.Hands.{after_hire, sender};

    ghost left = { after_hire };

    ghost right = { λ v. sender v.label v.made };
}

/// The receiver takes in the sender that is next.
pub struct Retires;

impl Join<Hand> for Retires {
    ghost use Rattle.inbox.specs.Hands.{after_retire, nobody};

    ghost both = { after_retire };

    ghost spent = { nobody };
}

/// A look of the receiver: of the senders that it has taken in, and of those that it never made, what it took and
/// what is left is all that they put.
pub struct Closing;

impl Lesson<Submission, Hand> for Closing {
    ghost use Rattle.inbox.specs.Hands.{entries_of, IsAll};

    ghost fact = { λ v items. IsAll v (entries_of items) };
}

/// The board that an inbox is for. The call that makes the inbox picks it.
pub trait Booked {
    ghost use Rattle.board.specs.declared.rule.Label.{Label};

    ghost label: { Label };
}

impl Booked for Brand {
    ghost use Rattle.board.specs.Sights.{label_of, no_origin};

    ghost label = { label_of no_origin };
}

/// The step that binds the first pass of an inbox, the receiver's, to a board. The pass that it makes is nobody's.
pub struct Binds<J> {
    of: PhantomData<J>,
}

impl<J: Booked> Split<Hand> for Binds<J> {
    ghost use Rattle.inbox.specs.Hands.{after_bind, nobody};

    ghost left = { after_bind J.label };

    ghost right = { λ v. nobody };
}
