//! The union of two sets of edits.

ghost use Rattle.std.specs.Prelude.{IfOk};
ghost use Rattle.documents.specs.Results.{IsUnited};
ghost use Rattle.documents.specs.Sets.{Agree, IsAscending};

use crate::walk::next_step;
use edit_stamps::Edit;
use std::alloc::{AllocError, Global};

/// The edits of both lists in order, each stamp once.
pub(crate) fn union_of(
    alloc: Global,
    first: &[Edit],
    second: &[Edit],
) -> Result<Vec<Edit>, AllocError>
    requires first { IsAscending first.now }
    requires second { IsAscending second.now }
    requires agree { Agree first.now second.now }
    ensures { IfOk result (λ all. IsUnited first.now second.now all.items) }
{
    let mut all = Vec::new(alloc);
    let mut left = first;
    let mut right = second;
    while let Some(step) = next_step(left, right) {
        all.push(step.next.edit().copy()?)?;
        left = step.left;
        right = step.right;
    }
    Ok(all)
}
