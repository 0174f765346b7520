//! Drawings behind a poll that waits.

ghost use Rattle.std.specs.Prelude.{◌≡◌, false};
ghost use Rattle.client_session.specs.Drawing.{DrawsWaiting, EndsAndFetches, FetchesPlane, HearsDrawing};
ghost use Rattle.client_session.specs.News.{answered};

use crate::client::Client;
use crate::fault::CommandFault;
use crate::outcome::Outcome;
use board_client::{Pushed, Saying};
use devices::{Sink, Source};
use replica_events::EditSpec;
use std::time::Clock;

impl<'a, C: Clock, S: Source + Drop, K: Sink + Drop> Client<'a, C, S, K> {
    /// The drawing where a poll waits.
    pub(crate) fn draw_waiting(
        &mut self,
        after: u64,
        spec: &EditSpec,
    ) -> Result<Outcome, CommandFault>
        ensures { DrawsWaiting self.old.workspace.closed after spec.now self.old self.new result }
    {
        if self.is_closed() {
            return self.tell_closed();
        }
        self.draw_in_one(after, spec)
    }

    /// The same of a client to which the board is not closed: the push is said behind the poll that waits, so that
    /// both are answered at once.
    fn draw_in_one(&mut self, after: u64, spec: &EditSpec) -> Result<Outcome, CommandFault>
        ensures { DrawsWaiting false after spec.now self.old self.new result }
    {
        match self
            .server
            .say_drawing(&self.workspace.replica, after, spec)
        {
            Ok(Saying::Said(pushed)) => self.hear_drawing(pushed),
            Ok(Saying::Refused(fault)) => self.tell_refused(fault),
            Err(fault) => Err(CommandFault::Client(fault)),
        }
    }

    /// Hears and tells the reply to the poll that waits, and what comes of a drawing whose push was said behind it.
    /// Where that reply does not come the edit is in doubt.
    fn hear_drawing(&mut self, pushed: Pushed) -> Result<Outcome, CommandFault>
        requires { pushed.rule ≡ self.old.workspace.replica.rule }
        ensures { HearsDrawing pushed (answered self.old.line self.old) self.new result }
    {
        self.workspace.awaited = None;
        match self.told_reply() {
            Ok(_) => self.end_drawn(pushed),
            Err(fault) => match fault {
                CommandFault::Refused(_) => self.end_and_fetch(pushed),
                ending => {
                    self.workspace.doubt = Some(pushed);
                    Err(ending)
                }
            },
        }
    }

    /// Hears what comes of such a drawing, and tells it, and behind it the plane, where the reply to the poll was too long for a frame.
    fn end_and_fetch(&mut self, pushed: Pushed) -> Result<Outcome, CommandFault>
        requires { pushed.rule ≡ self.old.workspace.replica.rule }
        ensures { EndsAndFetches pushed self.old self.new result }
    {
        let outcome = match self.end_drawn(pushed) {
            Ok(outcome) => outcome,
            Err(fault) => return Err(fault),
        };
        match self.told_plane() {
            Ok(()) => Ok(outcome),
            Err(fault) => Err(fault),
        }
    }

    /// Fetches the plane in pieces, and tells it.
    fn told_plane(&mut self) -> Result<(), CommandFault>
        ensures { FetchesPlane self.old self.new result }
    {
        let alloc = self.server.alloc();
        let known = self.workspace.replica.journal().len();
        let polling = match self.server.fall_back(&mut self.workspace.replica) {
            Ok(polling) => polling,
            Err(fault) => return Err(CommandFault::Client(fault)),
        };
        match self.workspace.tell(alloc, polling, known, &mut self.out) {
            Ok(()) => Ok(()),
            Err(fault) => Err(fault),
        }
    }
}
