//! Polls that wait at the server.

ghost use Rattle.std.specs.Prelude.{◌≡◌, [], IfErr, IfOk, OnOk};
ghost use Rattle.board_client.specs.Awaiting.{await_request};
ghost use Rattle.board_client.specs.Hearing.{IsSaidOrWanting};
ghost use Rattle.board_client.specs.Polling.{IsNewsHeard, IsReplyTaken, poll_request};

use crate::fault::ClientFault;
use crate::polling::{Polling, is_too_long};
use crate::server::Server;
use client_protocol::{Asking, request_body};
use devices::{Sink, Source};
use message_frames::Framed;
use replica_core::Replica;
use std::alloc::Global;
use std::time::Clock;

impl<'a, C: Clock, S: Source + Drop, K: Sink + Drop> Server<'a, C, S, K> {
    /// Says a poll that waits: it is answered once there are news, so many milliseconds are over, or the client
    /// said more. Nothing is heard. At most 60,000 milliseconds are waited; of more the request is refused by 33.
    pub fn await_news(&mut self, milliseconds: u32) -> Result<(), ClientFault>
        ensures { IsSaidOrWanting (await_request milliseconds) self.old self.new result }
    {
        match awaiting(self.alloc, milliseconds) {
            Ok(request) => self.say(&request),
            Err(fault) => Err(fault),
        }
    }

    /// Hears the reply to a poll that was said, and has a replica take what comes, where nothing else was said
    /// behind it. Where it is too long for a frame, the plane is fetched in pieces, as in `poll`. A refusal that
    /// may pass in a moment is the answer.
    pub fn hear_awaited(&mut self, replica: &mut Replica) -> Result<Polling, ClientFault>
        ensures { IsNewsHeard [] self.old self.new replica.old replica.new result }
    {
        let polling = match self.hear_reply(replica) {
            Ok(polling) => polling,
            Err(fault) => return Err(fault),
        };
        if is_too_long(polling) {
            return self.fall_back(replica);
        }
        Ok(polling)
    }

    /// Hears the reply to a poll that was said, and has a replica take what comes, where more was said behind it,
    /// whose answer comes next. The replica stays of its rule. Nothing is said: behind `Refused(21)` the plane is to
    /// be fetched once that answer was heard.
    pub fn hear_reply(&mut self, replica: &mut Replica) -> Result<Polling, ClientFault>
        ensures taken { IsReplyTaken [] self.old self.new replica.old replica.new result }
        ensures rule { OnOk result (replica.new.rule ≡ replica.old.rule) }
    {
        match self.hear() {
            Ok(first) => self.take_reply(replica, &first),
            Err(fault) => Err(fault),
        }
    }

    /// Says a poll. Nothing is heard.
    pub fn say_poll(&mut self) -> Result<(), ClientFault>
        ensures { IsSaidOrWanting poll_request self.old self.new result }
    {
        match request_body(self.alloc, Asking::Poll) {
            Ok(request) => self.say(&request),
            Err(_) => Err(ClientFault::Memory),
        }
    }
}

/// The request of a poll that waits. The only error is want of memory.
fn awaiting(alloc: Global, milliseconds: u32) -> Result<Framed, ClientFault>
    ensures ok { IfOk result (λ request. request ≡ await_request milliseconds) }
    ensures err { IfErr result (λ fault. fault ≡ ClientFault.Memory) }
{
    match request_body(alloc, Asking::Await(milliseconds)) {
        Ok(request) => Ok(request),
        Err(_) => Err(ClientFault::Memory),
    }
}
