//! Requests and the first body of their replies; texts that are heard and taken.

ghost use Rattle.std.specs.Prelude.{◌≡◌, ◌↔◌, IsTrue, Ok};
ghost use Rattle.delta_exchange.specs.MessageReading.{begins_as_delta};
ghost use Rattle.std.specs.Prelude.{[], ◌∷◌};
ghost use Rattle.board_client.specs.Hearing.{AreTextsHeard, IsAsked, IsHeard, IsSaid, IsTextHeard, is_of_edits};

use crate::fault::ClientFault;
use crate::server::Server;
use delta_exchange::is_delta;
use devices::{Sink, Source};
use message_frames::Framed;
use replica_core::Replica;
use std::time::Clock;

/// What a poll's reply announced.
#[derive(Clone, Copy, Debug, PartialEq, Eq)]
pub(crate) enum Announced {
    /// Texts of edits.
    Edits,
    /// The text of a plane.
    Plane,
}

/// Whether a text begins as one that was announced.
pub(crate) fn is_announced(announced: Announced, text: &[u8]) -> bool
    ensures { IsTrue result ↔ (begins_as_delta text.now ≡ Ok (is_of_edits announced)) }
{
    match (announced, is_delta(text)) {
        (Announced::Edits, Ok(delta)) => delta,
        (Announced::Plane, Ok(delta)) => !delta,
        (_, Err(_)) => false,
    }
}

impl<'a, C: Clock, S: Source + Drop, K: Sink + Drop> Server<'a, C, S, K> {
    /// Hears a text that was announced, and takes what it tells. `NoReply` where it is of the other kind. An edit
    /// of the client's own that comes back is not read again.
    pub(crate) fn hear_text(
        &mut self,
        replica: &mut Replica,
        announced: Announced,
    ) -> Result<(), ClientFault>
        ensures { IsTextHeard announced self.old self.new replica.old replica.new result }
    {
        let text = match self.hear() {
            Ok(text) => text,
            Err(fault) => return Err(fault),
        };
        let bytes: &[u8] = &text;
        if !is_announced(announced, bytes) {
            return Err(ClientFault::NoReply);
        }
        if self.is_own(replica, bytes) {
            self.forget_own();
            return Ok(());
        }
        match replica.take_bytes(bytes) {
            Ok(()) => {}
            Err(fault) => return Err(ClientFault::Text(fault)),
        }
        if announced == Announced::Plane {
            self.forget_all_own();
        }
        Ok(())
    }

    /// Hears so many texts of edits, and takes what each tells before the next is heard.
    pub(crate) fn hear_texts(
        &mut self,
        replica: &mut Replica,
        count: u32,
    ) -> Result<(), ClientFault>
        ensures { AreTextsHeard count self.old self.new replica.old replica.new result }
    {
        for _text in 0..count {
            match self.hear_text(replica, Announced::Edits) {
                Ok(()) => {}
                Err(fault) => return Err(fault),
            }
        }
        Ok(())
    }

    /// Says a request.
    pub(crate) fn say(&mut self, request: &Framed) -> Result<(), ClientFault>
        ensures { IsSaid request.now self.old self.new result }
    {
        match self.line.say(request) {
            Ok(()) => Ok(()),
            Err(fault) => Err(ClientFault::Line(fault)),
        }
    }

    /// Hears the next body.
    pub(crate) fn hear(&mut self) -> Result<Vec<u8>, ClientFault>
        ensures { IsHeard (λ body. body.items) self.old self.new result }
    {
        match self.line.hear() {
            Ok(body) => Ok(body),
            Err(fault) => Err(ClientFault::Line(fault)),
        }
    }

    /// Says a request, and hears the first body of its reply.
    pub(crate) fn ask(&mut self, request: &Framed) -> Result<Vec<u8>, ClientFault>
        ensures { IsAsked (λ body. body.items) (request.now ∷ []) self.old self.new result }
    {
        match self.say(request) {
            Ok(()) => self.hear(),
            Err(fault) => Err(fault),
        }
    }
}
