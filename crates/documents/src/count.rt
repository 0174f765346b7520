//! How many edits of one set are not in another.

ghost use Rattle.std.specs.Prelude.{◌≡◌};
ghost use Rattle.documents.specs.Documents.{count_of_new};
ghost use Rattle.documents.specs.Sets.{IsAscending};
ghost use Rattle.documents.specs.Walk.{is_new_next};

use crate::walk::{Next, next_step};
use edit_stamps::Edit;

/// How many edits of the second list are not in the first.
pub(crate) fn count_new(first: &[Edit], second: &[Edit]) -> usize
    requires first { IsAscending first.now }
    requires second { IsAscending second.now }
    ensures { result ≡ count_of_new first.now second.now }
{
    let mut count = 0;
    let mut left = first;
    let mut right = second;
    while let Some(step) = next_step(left, right) {
        if is_new(step.next) {
            count += 1;
        }
        left = step.left;
        right = step.right;
    }
    count
}

/// Whether what stands first in two lists is an edit of the right one that is not in the left one.
fn is_new(next: Next<'_>) -> bool
    ensures { result ≡ is_new_next next.entry }
{
    match next {
        Next::Left(_) => false,
        Next::Right(_) => true,
        Next::Both(one, other) => !one.same(other),
    }
}
