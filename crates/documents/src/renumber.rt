//! Edits that are taken as another replica's.

ghost use Rattle.std.specs.Prelude.{◌≡◌, ◌≤◌, IfOk};
ghost use Rattle.documents.specs.Renumber.{is_another, renumbered, renumbered_by};
ghost use Rattle.documents.specs.Sets.{IsAscending};

use crate::put::has_another;
use edit_stamps::{Edit, Stamp};
use std::alloc::{AllocError, Global};

/// Some edits, of which each whose stamp stands for another edit in a set has the number of a replica, its counter kept.
pub(crate) fn renumbered(
    alloc: Global,
    taken: &[Edit],
    edits: &[Edit],
    number: u16,
) -> Result<Vec<Edit>, AllocError>
    requires number { 1 ≤ number }
    requires taken { IsAscending taken.now }
    ensures { IfOk result (λ others. others.items ≡ renumbered number taken.now edits.now) }
{
    let mut others = Vec::new(alloc);
    for edit in edits {
        let other = renumbered_by(alloc, taken, edit, number)?;
        others.push(other)?;
    }
    Ok(others)
}

/// An edit, with the number of a replica where its stamp stands for another one in a set.
fn renumbered_by(
    alloc: Global,
    taken: &[Edit],
    edit: &Edit,
    number: u16,
) -> Result<Edit, AllocError>
    requires number { 1 ≤ number }
    requires taken { IsAscending taken.now }
    ensures { IfOk result (λ other. other ≡ renumbered_by number taken.now edit.now) }
{
    if !has_another(taken, edit) {
        return edit.copy();
    }
    let Some(stamp) = Stamp::new(edit.stamp().counter(), number) else {
        unreachable!()
    };
    // For the proof alone: the call tells that the stamp is one.
    let _in_range = stamp.number();
    let cells = edit.listed_cells().to_vec(alloc)?;
    Ok(Edit::of_parts(stamp, edit.area(), cells))
}
