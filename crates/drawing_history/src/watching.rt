//! What is watched before an edit is drawn.

ghost use Rattle.std.specs.Prelude.{[], ◌∷◌, IfSome};
ghost use Rattle.edit_stamps.specs.Edit.{greatest};
ghost use Rattle.stamped_tree.specs.Plane.{map_of};
ghost use Rattle.cell_changes.specs.Changes.{WatchesJoin};

use cell_changes::Watched;
use edit_stamps::Edit;
use stamped_tree::Plane;
use std::alloc::Global;
use std::slice;

/// What an edit that is about to be drawn on a plane may change; `None` where memory is refused. It is meant
/// for `Making::stroke`, once the edit is drawn.
pub fn watch(alloc: Global, plane: &Plane, edit: &Edit) -> Option<Watched>
    ensures { IfSome result (λ watched. WatchesJoin watched (map_of plane.now) (greatest (edit.now ∷ []))) }
{
    Watched::of_edits(alloc, plane, slice::from_ref(edit)).ok()
}
