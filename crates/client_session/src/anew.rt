//! Edits in doubt.

ghost use Rattle.std.specs.Prelude.{◌≡◌, IsTrue, is_some};
ghost use Rattle.client_session.specs.Drawing.{DrawsAnew, PushesAnew};

use crate::client::Client;
use crate::fault::CommandFault;
use crate::outcome::Outcome;
use board_client::Saying;
use devices::{Sink, Source};
use std::time::Clock;

impl<'a, C: Clock, S: Source + Drop, K: Sink + Drop> Client<'a, C, S, K> {
    /// Whether an edit is in doubt: its push was said, and no answer came before the line ended. So it is until the
    /// board is seen to have it, or it is drawn anew.
    pub fn is_in_doubt(&self) -> bool
        ensures { result ≡ is_some self.now.workspace.doubt }
    {
        self.workspace.doubt.is_some()
    }

    /// Draws the edit in doubt anew, which the board does not have, with a stamp above all that is held, and prints
    /// `drawn anew C R`, or a refusal; no poll waits then. It is in doubt no longer, unless the line fails: then
    /// what was pushed last is. The drawing that was being made is ended by it.
    pub fn draw_anew(&mut self) -> Result<Outcome, CommandFault>
        requires { IsTrue (is_some self.old.workspace.doubt) }
        ensures { DrawsAnew self.old self.new result }
    {
        let outcome = self.push_anew();
        self.workspace.making.end();
        outcome
    }

    /// Pushes it.
    fn push_anew(&mut self) -> Result<Outcome, CommandFault>
        requires { IsTrue (is_some self.old.workspace.doubt) }
        ensures { PushesAnew self.old self.new result }
    {
        let Some(doubted) = &self.workspace.doubt else {
            unreachable!()
        };
        match self.server.say_anew(&self.workspace.replica, doubted) {
            Ok(Saying::Said(pushed)) => self.end_drawn(pushed),
            Ok(Saying::Refused(fault)) => {
                self.workspace.doubt = None;
                self.tell_refused(fault)
            }
            Err(fault) => Err(CommandFault::Client(fault)),
        }
    }
}
