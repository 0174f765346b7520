//! Edits that are drawn in a document.

ghost use Rattle.std.specs.Prelude.{◌≡◌, ◌++◌, [], IsTrue, List, None, OnErr, OnOk, ℕ};
ghost use mathlib.Core.List.{IsPrefix};
ghost use Rattle.edit_stamps.specs.Edit.{has_states_below};
ghost use Rattle.genedit_lib.specs.Output.{no_patterns, reply_line};
ghost use Rattle.genedit_lib.specs.Patterns.{pattern_in};
ghost use Rattle.replica_core.specs.declared.event.Reply.TheVariants as reply;
ghost use Rattle.document_pen.specs.declared.pen.Outcome.TheVariants.{Refused};
ghost use Rattle.document_pen.specs.Drawing.{DrawsAndEnds, IsDrawn, IsEditDrawn, IsKept, IsTaken, done_line};
ghost use Rattle.drawing_history.specs.Makings.{nothing_made};
ghost use Rattle.document_pen.specs.Pen.{IsPrinted};

use crate::fault::PenFault;
use document_bodies::edit_body;
use drawing_history::{Making, Way, watch};
use edit_stamps::{Edit, Stamp};
use genedit_lib::{Patterns, push_line, push_taken_back};
use kept_devices::Keep;
use kept_log::{Log, LogFault};
use replica_core::{Fault, Replica, Reply};
use replica_events::EditSpec;
use std::alloc::{AllocError, Global};
use std::marker::Model;
use std::slice;

/// What came of a drawing.
#[derive(Clone, Copy, Debug, PartialEq, Eq)]
pub enum Outcome {
    /// The file has the edit.
    Drawn,
    /// It was refused, which is printed.
    Refused,
}

/// What one draws a document with: the log of its file, a replica that holds it, what was drawn and can be
/// taken back, what pattern each name stands for, and what was printed and not cleared yet. Contracts see it
/// as a `PenState`.
#[derive(Drop)]
pub struct Pen<K: Keep> {
    pub(crate) alloc: Global,
    pub(crate) log: Log<K>,
    pub(crate) replica: Replica,
    pub(crate) making: Making,
    /// Which way something is being taken back.
    pub(crate) way: Option<Way>,
    pub(crate) patterns: Patterns,
    pub(crate) out: Vec<u8>,
}

impl<K: Keep> Model for Pen<K> {
    ghost use Rattle.document_pen.specs.Pen.{PenState};

    ghost Value = { PenState };

    ghost use Rattle.std.specs.Coded.{codes};
    ghost use Rattle.genedit_lib.specs.contracts.patterns.Patterns as named;

    ghost coded = { Prim.hlevel (codes, named.the_row.coded) };

    ghost view = { λ p. record { file = K.known p.log.keep; takes = p.log.state; replica = p.replica; making = p.making; way = p.way; patterns = p.patterns; out = p.out.items } };
}

impl<K: Keep> Pen<K> {
    /// A pen for the document of a file, by its log and a replica that took its edits. No name stands for a
    /// pattern yet.
    pub fn of(alloc: Global, log: Log<K>, replica: Replica) -> Pen<K>
        ensures file { (result.file ≡ K.known log.keep) × (result.takes ≡ log.state) }
        ensures replica { result.replica ≡ replica }
        ensures nothing { (result.making ≡ nothing_made) × (result.way ≡ None) }
        ensures names { (name : List ℕ) → pattern_in result.patterns name ≡ no_patterns name }
        ensures out { result.out ≡ [] }
    {
        Pen {
            alloc,
            log,
            replica,
            making: Making::new(alloc),
            way: None,
            patterns: Patterns::new(alloc),
            out: Vec::new(alloc),
        }
    }

    /// Where it keeps what it prints.
    pub fn alloc(&self) -> Global {
        self.alloc
    }

    /// The file.
    pub fn keep(&self) -> &K
        ensures { K.known result.now ≡ self.now.file }
    {
        &self.log.keep
    }

    /// What holds the document.
    pub fn replica(&self) -> &Replica
        ensures { result.now ≡ self.now.replica }
    {
        &self.replica
    }

    /// What it printed since that was cleared.
    pub fn printed(&self) -> &[u8]
        ensures { result.now ≡ self.now.out }
    {
        &self.out
    }

    /// Clears what it printed.
    pub fn clear_printed(&mut self)
        ensures { self.new ≡ record self.old { out = [] } }
    {
        self.out.clear();
    }

    /// Prints a text; where memory is wanting nothing is printed.
    pub fn print(&mut self, text: &[u8]) -> Result<(), PenFault>
        ensures { IsPrinted tt text.now self.old self.new result }
    {
        let before = self.out.len();
        match self.out.extend_from_slice(text) {
            Ok(()) => Ok(()),
            Err(_) => {
                self.out.truncate(before);
                Err(PenFault::Memory)
            }
        }
    }

    /// Draws an edit: its stamp is one more than the greatest counter that the document has, or than a given
    /// one where that is greater, with the replica's number. At `Drawn` the file has its record, on the disk,
    /// and its line `drawn C R` is printed; a crash at any moment leaves the document with it or without. A
    /// refusal, as a replica's, is printed, and the file is left alone. Behind a fault nothing is printed; of
    /// `Memory` and `StoreFull` the file is as it was. Behind `Memory` the replica may hold an edit that the
    /// file lacks, so that the pen is not to draw again.
    pub fn draw(&mut self, after: u64, spec: &EditSpec) -> Result<Outcome, PenFault>
        ensures { DrawsAndEnds (IsDrawn after spec.now) self.old self.new result }
    {
        let outcome = self.draw_stroke(after, spec);
        self.making.end();
        outcome
    }

    /// `draw` of an edit of the drawing that is being made.
    pub(crate) fn draw_stroke(&mut self, after: u64, spec: &EditSpec) -> Result<Outcome, PenFault>
        ensures { IsDrawn after spec.now self.old self.new result }
    {
        match self.replica.edit_of(after, spec) {
            Ok(edit) => self.draw_edit(&edit),
            Err(Fault::Memory) => Err(PenFault::Memory),
            Err(fault) => self.refuse(fault),
        }
    }

    /// Prints a refusal as a replica's.
    pub(crate) fn refuse(&mut self, fault: Fault) -> Result<Outcome, PenFault>
        ensures { IsPrinted Refused (reply_line (reply.Refused fault)) self.old self.new result }
    {
        self.print_reply(&Reply::Refused(fault))?;
        Ok(Outcome::Refused)
    }

    /// Prints the line of a reply; where memory is wanting nothing is printed.
    pub(crate) fn print_reply(&mut self, reply: &Reply) -> Result<(), PenFault>
        ensures { IsPrinted tt (reply_line reply.now) self.old self.new result }
    {
        let before = self.out.len();
        match push_line(self.alloc, &mut self.out, reply) {
            Ok(()) => Ok(()),
            Err(_) => {
                self.out.truncate(before);
                Err(PenFault::Memory)
            }
        }
    }

    /// Draws an edit that was made.
    fn draw_edit(&mut self, edit: &Edit) -> Result<Outcome, PenFault>
        requires { IsTrue (has_states_below self.old.replica.rule.states edit.now) }
        ensures { IsEditDrawn edit.now self.old self.new result }
    {
        let watched = watch(self.alloc, self.replica.plane(), edit);
        self.take(edit)?;
        self.making.stroke(
            self.alloc,
            watched.as_ref(),
            edit.stamp(),
            self.replica.plane(),
        );
        let before = self.out.len();
        match self.keep_edit(edit) {
            Ok(()) => Ok(Outcome::Drawn),
            Err(fault) => {
                self.out.truncate(before);
                Err(fault)
            }
        }
    }

    /// Has the replica hold an edit.
    fn take(&mut self, edit: &Edit) -> Result<(), PenFault>
        requires { IsTrue (has_states_below self.old.replica.rule.states edit.now) }
        ensures taken { IsTaken edit.now self.old.replica self.new.replica result }
        ensures left { self.new ≡ record self.old { replica = self.new.replica } }
    {
        match self.replica.take_edits(slice::from_ref(edit)) {
            Ok(()) => Ok(()),
            Err(Fault::StoreFull) => Err(PenFault::StoreFull),
            Err(_) => Err(PenFault::Memory),
        }
    }

    /// Puts the line of an edit behind what was printed: that it was drawn, or what it took back.
    fn push_done(&mut self, stamp: Stamp) -> Result<(), AllocError>
        ensures told { OnOk result (self.new.out ≡ self.old.out ++ done_line self.old.way stamp) }
        ensures printed { OnErr result (IsPrefix self.old.out self.new.out) }
        ensures left { self.new ≡ record self.old { out = self.new.out } }
    {
        match self.way {
            None => push_line(self.alloc, &mut self.out, &Reply::Drawn(stamp)),
            Some(way) => push_taken_back(&mut self.out, way.done(), stamp),
        }
    }

    /// Puts the line of an edit behind what was printed, and its record into the file. Where it fails, a part
    /// of the line may stand there.
    fn keep_edit(&mut self, edit: &Edit) -> Result<(), PenFault>
        ensures kept { IsKept edit.now self.old self.new result }
        ensures told { OnOk result (self.new.out ≡ self.old.out ++ done_line self.old.way edit.now.stamp) }
        ensures printed { OnErr result (IsPrefix self.old.out self.new.out) }
        ensures left { (self.new.replica ≡ self.old.replica) × (self.new.patterns ≡ self.old.patterns) × (self.new.making ≡ self.old.making) × (self.new.way ≡ self.old.way) }
    {
        let body = edit_body(self.alloc, &self.replica.rule(), edit)?;
        self.push_done(edit.stamp())?;
        match self.log.commit(self.alloc, slice::from_ref(&body)) {
            Ok(()) => Ok(()),
            Err(LogFault::Memory) => Err(PenFault::Memory),
            Err(_) => Err(PenFault::Write),
        }
    }
}
