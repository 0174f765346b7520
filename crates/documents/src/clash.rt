//! Where two sets of edits differ.

ghost use Rattle.std.specs.Prelude.{◌≡◌, None, IfSome};
ghost use Rattle.documents.specs.Sets.{Agree, Clashes, IsAscending};
ghost use Rattle.documents.specs.Walk.{AreTwo, IsOneEdit};

use crate::walk::{Next, next_step};
use edit_stamps::{Edit, Stamp};

/// The least stamp at which both lists have an edit, and not the same.
pub(crate) fn clash_of(first: &[Edit], second: &[Edit]) -> Option<Stamp>
    requires first { IsAscending first.now }
    requires second { IsAscending second.now }
    ensures some { IfSome result (Clashes first.now second.now) }
    ensures none { result ≡ None → Agree first.now second.now }
{
    let mut left = first;
    let mut right = second;
    while let Some(step) = next_step(left, right) {
        if let Some(stamp) = stamp_of_two(step.next) {
            return Some(stamp);
        }
        left = step.left;
        right = step.right;
    }
    None
}

/// The stamp of what stands first in two lists, where these are two different edits.
fn stamp_of_two(next: Next<'_>) -> Option<Stamp>
    ensures some { IfSome result (AreTwo next.entry) }
    ensures none { result ≡ None → IsOneEdit next.entry }
{
    match next {
        Next::Left(_) => None,
        Next::Right(_) => None,
        Next::Both(one, other) => {
            if one.same(other) {
                None
            } else {
                Some(one.stamp())
            }
        }
    }
}
