//! Drawings that are taken back.

ghost use Rattle.std.specs.Prelude.{None};
ghost use Rattle.drawing_history.specs.Makings.{DropsLastMade, EndsDrawing, EndsTakingBack};
ghost use Rattle.client_session.specs.Undoing.{DrawsBack, DrawsHere, FindsFrom, IsFindCommand, IsFoundHere, KeepsAllButMaking};

use crate::client::Client;
use crate::fault::CommandFault;
use crate::outcome::Outcome;
use crate::polling::News;
use devices::{Sink, Source};
use drawing_history::{Found, Way};
use replica_events::EditSpec;
use std::time::Clock;

impl<'a, C: Clock, S: Source + Drop, K: Sink + Drop> Client<'a, C, S, K> {
    /// Polls, tells what came, and finds what can be taken back of what the client drew, at what its replica
    /// holds then; `None` where the poll was refused, which is printed. Where a poll waits none is said, and it is
    /// found at what the replica holds already. `Memory` also where memory is wanting for the cells.
    pub fn find_back(&mut self, way: Way) -> Result<Option<Found>, CommandFault>
        ensures { IsFindCommand way self.old self.new result }
    {
        match self.workspace.awaited {
            Some(_) => self.find_here(way),
            None => self.find_polled(way),
        }
    }

    /// The same where no poll waits.
    fn find_polled(&mut self, way: Way) -> Result<Option<Found>, CommandFault>
        ensures { FindsFrom None way self.old self.new result }
    {
        match self.news() {
            Ok(News::Refused) => Ok(None),
            Ok(News::Edits | News::Whole) => self.find_here(way),
            Err(fault) => Err(fault),
        }
    }

    /// Finds it at what the replica holds.
    fn find_here(&self, way: Way) -> Result<Option<Found>, CommandFault>
        ensures { IsFoundHere way self.now self.now result }
    {
        let plane = self.workspace.replica.plane();
        match self
            .workspace
            .making
            .history()
            .found(self.server.alloc(), way, plane)
        {
            Ok(found) => Ok(Some(found)),
            Err(_) => Err(CommandFault::Memory),
        }
    }

    /// Draws an edit that takes something back, at what the replica holds: `undone C R` or `redone C R`, and else
    /// what `draw` prints. No poll is said; where one waits the push is said behind it, as by `draw`. It is a part
    /// of the drawing that is being made, which `end_back` ends.
    pub fn draw_back(&mut self, way: Way, spec: &EditSpec) -> Result<Outcome, CommandFault>
        ensures { DrawsBack way spec.now self.old self.new result }
    {
        self.workspace.way = Some(way);
        let outcome = self.draw_here(spec);
        self.workspace.way = None;
        outcome
    }

    /// The drawing of such an edit.
    fn draw_here(&mut self, spec: &EditSpec) -> Result<Outcome, CommandFault>
        ensures { DrawsHere self.old.workspace.awaited 0 spec.now self.old self.new result }
    {
        match self.workspace.awaited {
            Some(_) => self.draw_waiting(0, spec),
            None => self.draw_now(0, spec),
        }
    }

    /// Ends the drawing that is being made: if it has an edit that the board has, it is the last one then that can
    /// be taken back, and what was taken back before cannot be drawn again any more. Where memory was refused for
    /// it, or is, nothing that was drawn before can be taken back.
    pub fn end_drawing(&mut self)
        ensures ends { EndsDrawing self.old.workspace.making self.new.workspace.making }
        ensures rest { KeepsAllButMaking self.old self.new }
    {
        self.workspace.making.end();
    }

    /// The same of a drawing that took something back: what it took back is the last no more, and it is the last
    /// one of the other way.
    pub fn end_back(&mut self, way: Way)
        ensures ends { EndsTakingBack way self.old.workspace.making self.new.workspace.making }
        ensures rest { KeepsAllButMaking self.old self.new }
    {
        self.workspace.making.end_back(way);
    }

    /// Drops the last drawing that can be taken back this way, if there is one, so that the one before it can
    /// be.
    pub fn drop_last(&mut self, way: Way)
        ensures drops { DropsLastMade way self.old.workspace.making self.new.workspace.making }
        ensures rest { KeepsAllButMaking self.old self.new }
    {
        self.workspace.making.drop_last(way);
    }
}
