//! The two ends of a channel of answers.

ghost use Rattle.std.specs.Prelude.{◌≡◌, ◌⊎◌, true, IfOk, MatchResult};
ghost use Rattle.crossbeam_channel.specs.Claims.{view, IsSeatAt};
ghost use Rattle.crossbeam_channel.specs.Ends.{sends_on, receives_on};
ghost use Rattle.receipts.specs.About.{told_by, known_by, after_sending, after_receipt};

use crate::bell::Bell;
use crate::rule::{About, Answer, ReceiptRule, Receives, Sends};
use crossbeam_channel::{Pass, RuledReceiver, RuledSender};
use std::marker::Model;
use std::sync::Wait;

/// The relay's end: through it one submission is answered, once.
#[derive(Drop)]
pub struct Answering {
    pub(crate) sender: RuledSender<Answer, About, ReceiptRule>,
    pub pass: Pass<Answer, About>,
    pub(crate) bell: Bell,
    pub ghost at: { IsSeatAt (sends_on sender) pass },
    pub ghost bound: { (view pass).bound ≡ true },
}

/// The seat's end: through it the answer of one submission comes.
#[derive(Drop)]
pub struct Pending {
    pub(crate) receiver: RuledReceiver<Answer, About, ReceiptRule>,
    pub pass: Pass<Answer, About>,
    pub(crate) bell: Bell,
    pub ghost at: { IsSeatAt (receives_on receiver) pass },
    pub ghost bound: { (view pass).bound ≡ true },
}

/// That a submission was answered. Contracts see what its end of the channel knows then: of which entry the
/// answer was, and how many were sent. Only `Answering::answer` makes one.
#[derive(Drop)]
pub struct Answered {
    pass: Pass<Answer, About>,
}

impl Model for Answered {
    ghost use Rattle.receipts.specs.declared.rule.About.{About};

    ghost Value = { About };

    ghost use Rattle.crossbeam_channel.specs.Claims.{view as claim};

    ghost view = { λ a. claim a.pass };
}

/// There is no answer yet, or there will be none.
#[derive(Clone, Copy, Debug, PartialEq, Eq)]
pub struct NoAnswer;

impl Answering {
    /// Sends the answer, and wakes who rests on the other end. Where that end is gone, the answer is
    /// dropped, and none was sent.
    pub fn answer<R: Wait>(self, rt: &R, answer: Answer) -> Answered
        requires { told_by answer ≡ known_by (view self.pass) }
        ensures about { known_by result ≡ known_by (view self.pass) }
        ensures sent { (result ≡ after_sending (view self.pass)) ⊎ (result ≡ view self.pass) }
    {
        let Answering {
            sender,
            mut pass,
            bell,
        } = self;
        let _ = sender.try_send_as::<Sends, R>(rt, &mut pass, answer);
        bell.ring();
        Answered { pass }
    }
}

impl Pending {
    /// Looks once for the answer. It takes no memory: the place in which the answer lies was made with the
    /// channel.
    pub fn try_receive<R: Wait>(&mut self, rt: &R) -> Result<Answer, NoAnswer>
        ensures answer { IfOk result (λ a. told_by a ≡ known_by (view self.old.pass)) }
        ensures received { MatchResult result (λ _. view self.new.pass ≡ after_receipt (view self.old.pass))
            (λ _. view self.new.pass ≡ view self.old.pass) }
    {
        match self.receiver.try_recv_as::<Receives, R>(rt, &mut self.pass) {
            Ok(answer) => Ok(answer),
            Err(_) => Err(NoAnswer),
        }
    }

    /// Sleeps until the answer was sent, and for a millisecond at most: who waits looks now and then whether
    /// the relay is gone, which wakes nobody. It takes no memory.
    pub fn rest<R: Wait>(&self, rt: &R) {
        self.bell.rest(rt);
    }
}
