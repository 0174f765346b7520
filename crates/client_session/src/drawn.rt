//! Drawings, and what is told of them.

ghost use Rattle.std.specs.Prelude.{[], ◌∷◌, ◌≡◌, ◌++◌, drop, false, is_some, IfErr, IfSome, OnErr, OnOk};
ghost use Rattle.cell_changes.specs.Changes.{WatchesJoin};
ghost use Rattle.edit_stamps.specs.Edit.{greatest};
ghost use Rattle.stamped_tree.specs.Plane.{map_of};
ghost use Rattle.client_session.specs.Drawing.{AddsDrawing, DrawingFindsNoRoom, DrawsAs, DrawsFrom, IsDrawCommand, IsDrawingTold, TellsDrawing, TellsDrawn};
ghost use Rattle.client_session.specs.Lines.{drawn_as, refusal_line};
ghost use Rattle.client_session.specs.declared.outcome.Outcome.TheVariants.{Refused};
ghost use Rattle.genedit_lib.specs.Output.{reply_line};
ghost use Rattle.replica_core.specs.declared.event.Reply.TheVariants as reply;
ghost use Rattle.client_session.specs.Moment.{IsCutShort, IsPrinted, IsWant};
ghost use Rattle.client_session.specs.Telling.{CameFindsNoRoom};

use crate::client::Client;
use crate::fault::CommandFault;
use crate::lines::{push_drawn_as, push_refusal};
use crate::outcome::{CLOSED, Outcome, outcome_of};
use crate::polling::News;
use crate::telling::tell_own;
use crate::workspace::{Workspace, behind};
use board_client::{Drawing, Pushed, Saying};
use cell_changes::Watched;
use devices::{Sink, Source};
use drawing_history::watch;
use edit_stamps::Stamp;
use genedit_lib::push_line;
use replica_core::{Fault, Reply};
use replica_events::EditSpec;
use std::alloc::Global;
use std::time::Clock;

impl<'a, C: Clock, S: Source + Drop, K: Sink + Drop> Client<'a, C, S, K> {
    /// Polls, tells what came, and draws an edit with a counter above a given one too, 0 where none is:
    /// `drawn C R`, and where cells that look different are told those behind it; or a refusal of the edit,
    /// of the poll or of the push. Once a push was refused by 30 it is `refused 30 Closed`, and nothing is
    /// pushed. Where a poll waits none is said: the push is said behind it, and its reply told first, of a refusal
    /// nothing. Where there is nothing to push the poll waits on.
    pub fn draw(&mut self, after: u64, spec: &EditSpec) -> Result<Outcome, CommandFault>
        ensures { IsDrawCommand after spec.now self.old self.new result }
    {
        match self.workspace.awaited {
            Some(_) => self.draw_waiting(after, spec),
            None => self.draw_polled(after, spec),
        }
    }

    /// The drawing where no poll waits.
    fn draw_polled(&mut self, after: u64, spec: &EditSpec) -> Result<Outcome, CommandFault>
        ensures { DrawsFrom None after spec.now self.old self.new result }
    {
        match self.news() {
            Ok(News::Refused) => Ok(Outcome::Refused),
            Ok(News::Edits | News::Whole) => self.draw_now(after, spec),
            Err(fault) => Err(fault),
        }
    }

    /// The drawing behind its poll, or at what the replica holds.
    pub(crate) fn draw_now(&mut self, after: u64, spec: &EditSpec) -> Result<Outcome, CommandFault>
        ensures { DrawsAs self.old.workspace.closed after spec.now self.old self.new result }
    {
        if self.is_closed() {
            return self.tell_closed();
        }
        self.draw_open(after, spec)
    }

    /// Whether a push was refused by 30.
    pub(crate) fn is_closed(&self) -> bool
        ensures { result ≡ self.now.workspace.closed }
    {
        self.workspace.closed
    }

    /// Tells that the board is closed to it.
    pub(crate) fn tell_closed(&mut self) -> Result<Outcome, CommandFault>
        ensures { IsPrinted Refused (refusal_line 30) self.old self.new result }
    {
        match push_refusal(self.server.alloc(), &mut self.out, CLOSED) {
            Ok(()) => Ok(Outcome::Refused),
            Err(_) => Err(CommandFault::Memory),
        }
    }

    /// The drawing of a client to which the board is not closed.
    fn draw_open(&mut self, after: u64, spec: &EditSpec) -> Result<Outcome, CommandFault>
        ensures { DrawsAs false after spec.now self.old self.new result }
    {
        match self
            .server
            .say_drawing(&self.workspace.replica, after, spec)
        {
            Ok(Saying::Said(pushed)) => self.end_drawn(pushed),
            Ok(Saying::Refused(fault)) => self.tell_refused(fault),
            Err(fault) => Err(CommandFault::Client(fault)),
        }
    }

    /// Tells that there is no such edit.
    pub(crate) fn tell_refused(&mut self, fault: Fault) -> Result<Outcome, CommandFault>
        ensures { IsPrinted Refused (reply_line (reply.Refused fault)) self.old self.new result }
    {
        match push_line(self.server.alloc(), &mut self.out, &Reply::Refused(fault)) {
            Ok(()) => Ok(Outcome::Refused),
            Err(_) => Err(CommandFault::Memory),
        }
    }

    /// Hears what comes of a drawing whose push was said, tells it, and notes it. Where no answer comes the edit
    /// is in doubt.
    pub(crate) fn end_drawn(&mut self, pushed: Pushed) -> Result<Outcome, CommandFault>
        requires { pushed.rule ≡ self.old.workspace.replica.rule }
        ensures { IsDrawingTold pushed self.old self.new result }
    {
        let alloc = self.server.alloc();
        let known = self.workspace.replica.journal().len();
        let watched = self.watch_push(&pushed);
        let stamp = pushed.edit().stamp();
        let drawing = match self.server.end_or_doubt(
            &mut self.workspace.replica,
            &mut self.workspace.doubt,
            pushed,
        ) {
            Ok(drawing) => drawing,
            Err(fault) => return Err(CommandFault::Client(fault)),
        };
        match self
            .workspace
            .tell_drawing(alloc, drawing, known, &mut self.out)
        {
            Ok(()) => {}
            Err(fault) => return Err(fault),
        }
        self.workspace.note_drawing(alloc, drawing, watched, stamp);
        Ok(outcome_of(drawing))
    }

    /// What an edit whose push was said may change of what the replica holds; `None` where memory is refused.
    fn watch_push(&self, pushed: &Pushed) -> Option<Watched>
        ensures { IfSome result (λ watched. WatchesJoin watched (map_of self.now.workspace.replica.plane) (greatest (pushed.now.edit ∷ []))) }
    {
        let plane = self.workspace.replica.plane();
        watch(self.server.alloc(), plane, pushed.edit())
    }
}

impl Workspace {
    /// Tells what came of a drawing, behind so many edits of the journal.
    pub(crate) fn tell_drawing(
        &mut self,
        alloc: Global,
        drawing: Drawing,
        known: usize,
        out: &mut Vec<u8>,
    ) -> Result<(), CommandFault>
        ensures told { OnOk result (TellsDrawing drawing known self.old self.new out.old.items out.new.items) }
        ensures want { IfErr result (IsWant (DrawingFindsNoRoom drawing known self.old self.new out.old.items out.new.items)) }
        ensures cut { OnErr result (IsCutShort self.old self.new out.old.items out.new.items) }
        ensures replica { self.new.replica ≡ self.old.replica }
        ensures making { self.new.making ≡ self.old.making }
    {
        match drawing {
            Drawing::Drawn(counter) => self.tell_drawn(alloc, counter, known, out),
            Drawing::Refused(fault) => {
                push_line(alloc, out, &Reply::Refused(fault))?;
                Ok(())
            }
            Drawing::Unpublished(number) => {
                push_refusal(alloc, out, number)?;
                self.closed = number == CLOSED;
                self.doubt = None;
                Ok(())
            }
        }
    }

    /// Notes an edit of this stamp that was drawn, by what was watched before, so that it can be taken back; of
    /// one that was not drawn, nothing.
    fn note_drawing(
        &mut self,
        alloc: Global,
        drawing: Drawing,
        watched: Option<Watched>,
        stamp: Stamp,
    )
        ensures noted { AddsDrawing drawing watched stamp (map_of self.old.replica.plane) self.old.making self.new.making }
        ensures kept { self.new ≡ record self.old { making = self.new.making } }
    {
        match drawing {
            Drawing::Drawn(_) => {
                let plane = self.replica.plane();
                self.making.stroke(alloc, watched.as_ref(), stamp, plane);
            }
            Drawing::Refused(_) | Drawing::Unpublished(_) => {}
        }
    }

    /// Tells that an edit was drawn, and the cells that look different by it; anew, where one was in doubt, and
    /// what it took back, where it did.
    fn tell_drawn(
        &mut self,
        alloc: Global,
        counter: u64,
        known: usize,
        out: &mut Vec<u8>,
    ) -> Result<(), CommandFault>
        ensures told { OnOk result (TellsDrawn counter known self.old self.new out.old.items out.new.items) }
        ensures want { IfErr result (IsWant (CameFindsNoRoom (drop known self.old.replica.journal) self.old.shown self.new.shown (out.old.items ++ drawn_as self.old.way (is_some self.old.doubt) counter self.old.replica.number) out.new.items)) }
        ensures cut { OnErr result (IsCutShort self.old self.new out.old.items out.new.items) }
        ensures replica { self.new.replica ≡ self.old.replica }
        ensures making { self.new.making ≡ self.old.making }
    {
        let anew = self.doubt.is_some();
        push_drawn_as(out, self.way, anew, counter, self.replica.number())?;
        let own = behind(self.replica.journal(), known);
        tell_own(alloc, &mut self.shown, out, own)?;
        self.counted = self.counted_behind(known);
        self.doubt = None;
        Ok(())
    }
}
