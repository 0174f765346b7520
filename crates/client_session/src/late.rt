//! Answers to pushes that are heard late.

ghost use Rattle.std.specs.Prelude.{◌≡◌, is_some, true};
ghost use Rattle.client_session.specs.Late.{HearsAnswer, HearsLate};

use crate::client::Client;
use crate::fault::CommandFault;
use board_client::Pushing;
use devices::{Sink, Source};
use std::time::Clock;

impl<'a, C: Clock, S: Source + Drop, K: Sink + Drop> Client<'a, C, S, K> {
    /// Whether a poll that waits was said, and is not answered yet.
    pub fn is_awaiting(&self) -> bool
        ensures { result ≡ is_some self.now.workspace.awaited }
    {
        self.workspace.awaited.is_some()
    }

    /// Hears the answer to a drawing's push, where the hearing was broken off before anything came. Where the push
    /// was said behind a poll that waits, `awaited`, the reply to that is heard and told first; refused by 21 it ends
    /// the client. Nothing is told of the answer, and the replica does not take the edit: where the board has it, it
    /// comes with a poll. Nothing is in doubt any more.
    pub fn hear_late(&mut self, awaited: bool) -> Result<Pushing, CommandFault>
        ensures { HearsLate awaited self.old self.new result }
    {
        if awaited {
            return self.hear_behind();
        }
        self.hear_answer()
    }

    /// The same behind a reply that is still to come.
    fn hear_behind(&mut self) -> Result<Pushing, CommandFault>
        ensures { HearsLate true self.old self.new result }
    {
        match self.told_reply() {
            Ok(_) => self.hear_answer(),
            Err(fault) => Err(fault),
        }
    }

    /// Hears the answer to a push, by which nothing is in doubt any more.
    fn hear_answer(&mut self) -> Result<Pushing, CommandFault>
        ensures { HearsAnswer self.old self.new result }
    {
        match self.server.hear_answer() {
            Ok(answer) => {
                self.workspace.doubt = None;
                Ok(answer)
            }
            Err(fault) => Err(CommandFault::Client(fault)),
        }
    }
}
