//! Pushes.

ghost use Rattle.std.specs.Prelude.{IsTrue, ◌↔◌, []};
ghost use Rattle.board_client.specs.Pushing.{IsAnswerIn, IsAnswering, IsPush, IsPushEnd, IsPushOnce, IsPushRefusedForAMoment, IsPushWithin};

use crate::fault::ClientFault;
use crate::server::Server;
use crate::tries::{TRIES_AGAIN, pause};
use client_protocol::{Answer, answer_in};
use devices::{Sink, Source};
use message_frames::Framed;
use std::time::Clock;

/// What came of a push.
#[derive(Clone, Copy, Debug, PartialEq, Eq)]
pub enum Pushing {
    /// The board has the edit.
    Done,
    /// The push was refused, by a number of the table of faults that is not 0.
    Refused(u8),
}

impl<'a, C: Clock, S: Source + Drop, K: Sink + Drop> Server<'a, C, S, K> {
    /// Pushes a request. Where the board's inbox is full, or memory was wanted, so that the board does not
    /// have the edit, the same bytes are pushed again some milliseconds later, ten times in all.
    pub fn push(&mut self, request: &Framed) -> Result<Pushing, ClientFault>
        ensures { IsPush request.now self.old self.new result }
    {
        match self.say(request) {
            Ok(()) => self.end_push(request),
            Err(fault) => Err(fault),
        }
    }

    /// Hears the answer to a push that was said, and tries the same bytes again where it was refused for a
    /// moment, ten times in all.
    pub(crate) fn end_push(&mut self, request: &Framed) -> Result<Pushing, ClientFault>
        ensures { IsPushEnd request.now self.old self.new result }
    {
        let first = match self.hear_answer() {
            Ok(first) => first,
            Err(fault) => return Err(fault),
        };
        if !is_brief(first) {
            return Ok(first);
        }
        pause(self.clock);
        self.push_again(request)
    }

    /// Pushes a request that was refused for a moment, nine times in all.
    fn push_again(&mut self, request: &Framed) -> Result<Pushing, ClientFault>
        ensures { IsPushWithin 8 request.now self.old self.new result }
    {
        for _tried in 0..TRIES_AGAIN {
            let pushing = match self.push_once(request) {
                Ok(pushing) => pushing,
                Err(fault) => return Err(fault),
            };
            if !is_brief(pushing) {
                return Ok(pushing);
            }
            pause(self.clock);
        }
        self.push_once(request)
    }

    /// Says a request whose answer is one byte, and hears it.
    pub(crate) fn push_once(&mut self, request: &Framed) -> Result<Pushing, ClientFault>
        ensures { IsPushOnce request.now self.old self.new result }
    {
        match self.ask(request) {
            Ok(reply) => pushing_in(&reply),
            Err(fault) => Err(fault),
        }
    }

    /// Hears the answer, of one byte, to a push that was said. Nothing is said: one that was refused for a moment is
    /// not pushed again. `NoReply` where what comes is no answer.
    pub fn hear_answer(&mut self) -> Result<Pushing, ClientFault>
        ensures { IsAnswering [] self.old self.new result }
    {
        match self.hear() {
            Ok(reply) => pushing_in(&reply),
            Err(fault) => Err(fault),
        }
    }
}

/// What an answer of one byte says.
fn pushing_in(reply: &[u8]) -> Result<Pushing, ClientFault>
    ensures { IsAnswerIn reply.now result }
{
    match answer_in(reply) {
        Answer::Done => Ok(Pushing::Done),
        Answer::Refused(number) => Ok(Pushing::Refused(number)),
        Answer::Faulty => Err(ClientFault::NoReply),
    }
}

/// Whether a push was refused for a moment: 29 where the inbox is full, 255 where memory was wanted.
fn is_brief(pushing: Pushing) -> bool
    ensures { IsTrue result ↔ IsPushRefusedForAMoment pushing }
{
    match pushing {
        Pushing::Refused(number) => number == 29 || number == 255,
        Pushing::Done => false,
    }
}
