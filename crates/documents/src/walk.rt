//! Two lists of edits, walked over together.

ghost use Rattle.std.specs.Prelude.{◌≡◌, [], None, IfSome};
ghost use Rattle.documents.specs.Walk.{IsNext};

use edit_stamps::Edit;
use std::cmp::Ordering;

/// What stands first in two lists of edits in the order of stamps.
#[derive(Clone, Copy)]
pub(crate) enum Next<'a> {
    /// An edit of the left list; the right one has none of this stamp.
    Left(&'a Edit),
    /// An edit of the right list; the left one has none of this stamp.
    Right(&'a Edit),
    /// One of each, with one stamp.
    Both(&'a Edit, &'a Edit),
}

impl<'a> Next<'a> {
    ghost use Rattle.documents.specs.Walk.{IsFirstEdit};

    /// The edit, and of two that of the left list.
    pub(crate) fn edit(self) -> &'a Edit
        ensures { IsFirstEdit self.entry result.now }
    {
        match self {
            Next::Left(edit) => edit,
            Next::Right(edit) => edit,
            Next::Both(edit, _) => edit,
        }
    }
}

/// What stands first in two lists, and what is left of them behind it.
#[derive(Clone, Copy)]
pub(crate) struct Step<'a> {
    pub next: Next<'a>,
    pub left: &'a [Edit],
    pub right: &'a [Edit],
}

/// The next step over two lists, or nothing where both are at their end.
pub(crate) fn next_step<'a>(left: &'a [Edit], right: &'a [Edit]) -> Option<Step<'a>>
    ensures some { IfSome result (λ s. IsNext left.now right.now s.next s.left.now s.right.now) }
    ensures none { result ≡ None → (left.now ≡ []) × (right.now ≡ []) }
{
    match (left.split_first(), right.split_first()) {
        (None, None) => None,
        (Some((edit, rest)), None) => Some(Step {
            next: Next::Left(edit),
            left: rest,
            right,
        }),
        (None, Some((edit, rest))) => Some(Step {
            next: Next::Right(edit),
            left,
            right: rest,
        }),
        (Some((one, after)), Some((other, behind))) => match one.stamp().cmp(&other.stamp()) {
            Ordering::Less => Some(Step {
                next: Next::Left(one),
                left: after,
                right,
            }),
            Ordering::Greater => Some(Step {
                next: Next::Right(other),
                left,
                right: behind,
            }),
            Ordering::Equal => Some(Step {
                next: Next::Both(one, other),
                left: after,
                right: behind,
            }),
        },
    }
}
