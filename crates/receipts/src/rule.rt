//! What goes through a channel of answers, and the channel's rule: each answer is of the one entry that the
//! channel was opened for.

ghost use Rattle.std.specs.Prelude.{◌<◌, length};
ghost use Rattle.board.specs.Origins.{list_of};

use atomic_table::Split;
use board::{Entry, Front, Label};
use crossbeam_channel::protocol::{Lesson, Outcome, Protocol};
use std::marker::{Brand, PhantomData};

/// That an entry was published: a list that has it, and its place there.
#[derive(Drop)]
pub struct Answer {
    /// The entry's place in the list, from 0.
    pub at: u64,
    /// The list, which begins the published one.
    pub front: Front,
    pub ghost within: { at < length (list_of front) },
}

/// What a pass of a channel knows: the entry that the channel is for, and which board that entry is for; and
/// how many answers were sent and received by it. Before the pass is bound it knows nothing. No value of it is
/// made.
pub struct About {
    pub bound: bool,
    pub entry: Entry,
    pub label: Label,
    pub sent: u64,
    pub received: u64,
}

/// What holds of a channel at each moment: its answers are of the entry and the board that each bound pass
/// knows.
pub struct ReceiptRule;

impl Protocol<Answer, About> for ReceiptRule {
    ghost use Rattle.receipts.specs.About.{IsOfOne, unbound};

    ghost holds = { IsOfOne };

    ghost first = { unbound };
}

/// The entry and the board that a channel is opened for. The call that opens it picks them.
pub trait Submitted {
    ghost use Rattle.receipts.specs.Topics.{Topic};

    ghost topic: { Topic };
}

impl Submitted for Brand {
    ghost use Rattle.receipts.specs.Topics.{no_topic};

    ghost topic = { no_topic };
}

/// The step that binds a channel's first pass, and makes the second one.
pub struct Binds<J> {
    of: PhantomData<J>,
}

impl<J: Submitted> Split<About> for Binds<J> {
    ghost use Rattle.receipts.specs.About.{about};

    ghost left = { λ v. about J.topic };

    ghost right = { λ v. about J.topic };
}

/// A send: the answer is of what the pass knows, and one more was sent.
pub struct Sends;

impl Outcome<Answer, About> for Sends {
    ghost use Rattle.std.specs.Prelude.{◌≡◌};
    ghost use Rattle.receipts.specs.About.{told_by, known_by, after_sending};

    ghost then = { λ v x w. (w ≡ after_sending v) × (told_by x ≡ known_by v) };
}

impl Lesson<Answer, About> for Sends {
    ghost fact = { λ v items. Unit {0} };
}

/// A receive: the answer is of what the pass knows, and one more was received.
pub struct Receives;

impl Outcome<Answer, About> for Receives {
    ghost use Rattle.std.specs.Prelude.{◌≡◌};
    ghost use Rattle.receipts.specs.About.{told_by, known_by, after_receipt};

    ghost then = { λ v x w. (w ≡ after_receipt v) × (told_by x ≡ known_by v) };
}

impl Lesson<Answer, About> for Receives {
    ghost fact = { λ v items. Unit {0} };
}
