//! The drawing that is being made.

ghost use Rattle.std.specs.Prelude.{◌≡◌, [], Some, IfSome, option_copied};
ghost use Rattle.stamped_tree.specs.Plane.{map_of};
ghost use Rattle.drawing_history.specs.Drawings.{forgotten};
ghost use Rattle.drawing_history.specs.Ways.{DropsLast};
ghost use Rattle.drawing_history.specs.Makings.{AddsStroke, EndsDrawing, EndsTakingBack, IsLonger, strokes_of};

use crate::history::History;
use crate::stroke::{Stroke, stroke_of};
use crate::way::Way;
use cell_changes::Watched;
use edit_stamps::Stamp;
use stamped_tree::Plane;
use std::alloc::Global;
use std::marker::Model;
use std::mem;

/// A history, and the strokes of the drawing that is being made: of one edit, or of many, as when a saved
/// board is opened.
#[derive(Drop)]
pub struct Making {
    alloc: Global,
    history: History,
    // `None` where memory was refused for one of them.
    strokes: Option<Vec<Stroke>>,
}

impl Model for Making {
    ghost use Rattle.drawing_history.specs.Makings.{MakingState, strokes_of};

    ghost Value = { MakingState };

    ghost view = { λ m. record { history = m.history; strokes = strokes_of m.strokes } };
}

impl Making {
    /// Nothing was drawn, and no drawing has begun.
    pub fn new(alloc: Global) -> Making
        ensures { result ≡ record { history = forgotten; strokes = Some [] } }
    {
        Making {
            alloc,
            history: History::new(alloc),
            strokes: Some(Vec::new(alloc)),
        }
    }

    /// The history, of the drawings that have ended.
    pub fn history(&self) -> &History
        ensures { result.now ≡ self.now.history }
    {
        &self.history
    }

    /// Takes an edit of this stamp, which was just drawn on the plane, into the drawing that is being made.
    /// What it may change was watched before it was drawn; `None` where memory was refused for that. Where
    /// memory is refused, all strokes of the drawing are lost.
    pub fn stroke(&mut self, alloc: Global, watched: Option<&Watched>, stamp: Stamp, now: &Plane)
        ensures { AddsStroke (option_copied watched.entry) stamp (map_of now.now) self.old self.new }
    {
        let strokes = self.strokes.take();
        self.strokes = with_stroke(alloc, strokes, watched, stamp, now);
    }

    /// The drawing ends, and is noted in the history, if it has strokes. Where memory is refused for that, or
    /// was for one of the strokes, all that was drawn is forgotten.
    pub fn end(&mut self)
        ensures { EndsDrawing self.old self.new }
    {
        match self.taken() {
            None => self.history.forget(),
            Some(strokes) if strokes.is_empty() => {}
            Some(strokes) => self.history.note(strokes),
        }
    }

    /// The same of a drawing that took something back.
    pub fn end_back(&mut self, way: Way)
        ensures { EndsTakingBack way self.old self.new }
    {
        match self.taken() {
            None => self.history.forget(),
            Some(strokes) if strokes.is_empty() => {}
            Some(strokes) => self.history.take_back(way, strokes),
        }
    }

    /// Drops the last drawing of the history that can be taken back this way, if there is one.
    pub fn drop_last(&mut self, way: Way)
        ensures history { DropsLast way self.old.history self.new.history }
        ensures strokes { self.new.strokes ≡ self.old.strokes }
    {
        self.history.drop_last(way);
    }

    /// Takes the strokes out: the next drawing has none yet.
    fn taken(&mut self) -> Option<Vec<Stroke>>
        ensures strokes { strokes_of result ≡ self.old.strokes }
        ensures rest { self.new ≡ record self.old { strokes = Some [] } }
    {
        mem::replace(&mut self.strokes, Some(Vec::new(self.alloc)))
    }
}

/// Some strokes, and behind them one more; `None` where memory is or was refused for one of them.
fn with_stroke(
    alloc: Global,
    strokes: Option<Vec<Stroke>>,
    watched: Option<&Watched>,
    stamp: Stamp,
    now: &Plane,
) -> Option<Vec<Stroke>>
    ensures { IfSome result (λ more. IsLonger (option_copied watched.entry) stamp (map_of now.now) (strokes_of strokes) more.items) }
{
    let mut strokes = strokes?;
    let watched = watched?;
    let stroke = stroke_of(alloc, watched, stamp, now).ok()?;
    strokes.push(stroke).ok()?;
    Some(strokes)
}
