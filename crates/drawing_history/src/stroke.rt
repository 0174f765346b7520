//! Strokes: the edits of a drawing, with what they covered.

ghost use Rattle.std.specs.Prelude.{◌≡◌, ◌-◌, ◌^◌, min, IfOk};
ghost use Rattle.cell_changes.specs.Changes.{AreChanges, Watches};
ghost use Rattle.drawing_history.specs.Strokes.{cells_in};
ghost use Rattle.stamped_tree.specs.Plane.{map_of};
ghost use Rattle.stamped_writes.specs.Write.{Writes};

use cell_changes::Watched;
use edit_stamps::Stamp;
use pattern_cells::Cell;
use stamped_tree::Plane;
use std::alloc::{AllocError, Global};

/// An edit of a drawing, by what takes it back.
#[derive(Drop)]
pub struct Stroke {
    /// The edit's stamp.
    pub stamp: Stamp,
    /// The cells that looked different by the edit, with the states that they had before, by `y`, then `x`.
    pub earlier: Vec<Cell>,
}

/// The stroke of an edit that was just drawn on a plane: of its stamp, and of what was watched before it was
/// drawn. The only error is want of memory.
pub fn stroke_of(
    alloc: Global,
    watched: &Watched,
    stamp: Stamp,
    now: &Plane,
) -> Result<Stroke, AllocError>
    ensures stamp { IfOk result (λ stroke. stroke.stamp ≡ stamp) }
    ensures earlier { IfOk result (λ stroke. (before : Writes) → Watches watched.now before (map_of now.now) → AreChanges (map_of now.now) before stroke.earlier.items) }
{
    let earlier = watched.earlier(alloc, now)?;
    Ok(Stroke { stamp, earlier })
}

/// How many cells some strokes have; the greatest number where they have more.
pub(crate) fn count_cells(strokes: &[Stroke]) -> usize
    ensures { result ≡ min (cells_in strokes.now) (2 ^ 64 - 1) }
{
    let mut count: usize = 0;
    for stroke in strokes {
        count = count.saturating_add(stroke.earlier.len());
    }
    count
}
