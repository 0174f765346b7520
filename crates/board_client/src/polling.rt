//! Polls.

ghost use Rattle.std.specs.Prelude.{IsTrue, ◌↔◌, ◌≡◌, [], ◌∷◌};
ghost use Rattle.board_client.specs.Polling.{IsPoll, IsPollOnce, IsFallenBack, IsReplyBehind, IsReplyTaken};
ghost use Rattle.board_client.specs.Refusal.{IsPollRefusedForAMoment};

use crate::fault::ClientFault;
use crate::hearing::Announced;
use crate::server::Server;
use crate::tries::{TRIES_MORE, pause};
use client_protocol::{Asking, Polled, polled_in, request_body};
use devices::{Sink, Source};
use message_frames::Framed;
use replica_core::Replica;
use std::time::Clock;

/// The number by which a poll is refused whose reply is too long for a frame.
const TOO_LONG: u8 = 21;

/// What came of a poll.
#[derive(Clone, Copy, Debug, PartialEq, Eq)]
pub enum Polling {
    /// So many edits came, and were taken.
    Edits(u32),
    /// The board's whole plane came, and was taken.
    Whole,
    /// The poll was refused, by a number of the table of faults that is not 0. After 21 what the board had to
    /// hand out is lost, but where the plane in pieces is fetched then.
    Refused(u8),
}

impl<'a, C: Clock, S: Source + Drop, K: Sink + Drop> Server<'a, C, S, K> {
    /// Polls, and has a replica take what comes. Where the board is closed to reads for a moment, or has no
    /// memory for its reply, it is tried again some milliseconds later, ten times in all. Where what there is to
    /// hand out is too long for a frame, the plane is fetched in pieces; `Refused(21)` says that those are refused
    /// too.
    pub fn poll(&mut self, replica: &mut Replica) -> Result<Polling, ClientFault>
        ensures { IsPoll self.old self.new replica.old replica.new result }
    {
        for _tried in 0..TRIES_MORE {
            let polling = match self.poll_once(replica) {
                Ok(polling) => polling,
                Err(fault) => return Err(fault),
            };
            if !is_brief(polling) {
                return Ok(polling);
            }
            pause(self.clock);
        }
        self.poll_once(replica)
    }

    /// Polls once, and takes what comes. After a fault the line is of no further use.
    fn poll_once(&mut self, replica: &mut Replica) -> Result<Polling, ClientFault>
        ensures { IsPollOnce self.old self.new replica.old replica.new result }
    {
        let Ok(request) = request_body(self.alloc, Asking::Poll) else {
            return Err(ClientFault::Memory);
        };
        let polling = match self.ask_for_news(&request, replica) {
            Ok(polling) => polling,
            Err(fault) => return Err(fault),
        };
        if is_too_long(polling) {
            return self.fall_back(replica);
        }
        Ok(polling)
    }

    /// Says a poll's request, hears the reply, and takes what comes.
    fn ask_for_news(
        &mut self,
        request: &Framed,
        replica: &mut Replica,
    ) -> Result<Polling, ClientFault>
        ensures { IsReplyTaken (request.now ∷ []) self.old self.new replica.old replica.new result }
    {
        match self.ask(request) {
            Ok(first) => self.take_reply(replica, &first),
            Err(fault) => Err(fault),
        }
    }

    /// Fetches in pieces the plane that is too long for a frame, as `fetch_plane` does, behind a poll that was
    /// refused by 21. Where that is refused too, by whatever number, it is `Refused(21)`: what the board had to hand
    /// out is lost.
    pub fn fall_back(&mut self, replica: &mut Replica) -> Result<Polling, ClientFault>
        ensures { IsFallenBack self.old self.new replica.old replica.new result }
    {
        match self.fetch_plane(replica) {
            Ok(Polling::Refused(_)) => Ok(Polling::Refused(TOO_LONG)),
            Ok(Polling::Whole) => Ok(Polling::Whole),
            Ok(Polling::Edits(count)) => Ok(Polling::Edits(count)),
            Err(fault) => Err(fault),
        }
    }

    /// Takes what comes behind the first body of a poll's reply.
    pub(crate) fn take_reply(
        &mut self,
        replica: &mut Replica,
        first: &[u8],
    ) -> Result<Polling, ClientFault>
        ensures { IsReplyBehind first.now self.old self.new replica.old replica.new result }
    {
        match polled_in(first) {
            Polled::Refused(number) => Ok(Polling::Refused(number)),
            Polled::Faulty => Err(ClientFault::NoReply),
            Polled::Whole => match self.hear_text(replica, Announced::Plane) {
                Ok(()) => Ok(Polling::Whole),
                Err(fault) => Err(fault),
            },
            Polled::Edits(count) => match self.hear_texts(replica, count) {
                Ok(()) => Ok(Polling::Edits(count)),
                Err(fault) => Err(fault),
            },
        }
    }
}

/// Whether what there is to hand out is too long for a frame.
pub(crate) fn is_too_long(polling: Polling) -> bool
    ensures { IsTrue result ↔ (polling ≡ Polling.Refused 21) }
{
    match polling {
        Polling::Refused(number) => number == TOO_LONG,
        Polling::Edits(_) | Polling::Whole => false,
    }
}

/// Whether a poll was refused for a moment: 30 where reads are closed, 255 where memory was wanted.
pub(crate) fn is_brief(polling: Polling) -> bool
    ensures { IsTrue result ↔ IsPollRefusedForAMoment polling }
{
    match polling {
        Polling::Refused(number) => number == 30 || number == 255,
        Polling::Edits(_) | Polling::Whole => false,
    }
}
