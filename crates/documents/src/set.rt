//! Edits in any order, as a set.

ghost use Rattle.std.specs.Prelude.{◌≡◌, true, false, [], ◌∷◌, None, IfSome, MatchResult};
ghost use Rattle.std.specs.List.Sorted.{IsNonDecreasingBy};
ghost use Rattle.document_bodies.specs.Bodies.{AreEditsUnder};
ghost use Rattle.edit_stamps.specs.Edit.{has_states_below};
ghost use Rattle.delta_exchange.specs.Delta.{AreTellable};
ghost use Rattle.documents.specs.Results.{HasStateAbove, IsAnotherNext, IsSetOf};
ghost use Rattle.documents.specs.Sets.{ClashesWithin, HasNoTwo};

use edit_stamps::{Edit, Stamp};
use generations_rule::Rule;
use pattern_cells::are_below;

/// The edits in the order of their stamps, each once; or the least stamp that two different ones have.
pub(crate) fn set_of(edits: Vec<Edit>) -> Result<Vec<Edit>, Stamp>
    ensures { MatchResult result (λ set. IsSetOf edits.items set.items) (ClashesWithin edits.items) }
{
    let mut sorted = edits;
    sorted.sort_unstable_by_key(|edit| edit.stamp());
    match clash_within(&sorted) {
        Some(stamp) => Err(stamp),
        None => {
            sorted.dedup_by_key(|edit| edit.stamp());
            Ok(sorted)
        }
    }
}

/// The least stamp that two different edits of sorted ones have.
fn clash_within(sorted: &[Edit]) -> Option<Stamp>
    requires { IsNonDecreasingBy (λ e. e.stamp) sorted.now }
    ensures some { IfSome result (ClashesWithin sorted.now) }
    ensures none { result ≡ None → HasNoTwo sorted.now }
{
    let mut left = sorted;
    while let Some((edit, behind)) = left.split_first() {
        if is_another_next(edit, behind) {
            return Some(edit.stamp());
        }
        left = behind;
    }
    None
}

/// Whether another edit with the stamp of an edit stands next behind it.
fn is_another_next(edit: &Edit, behind: &[Edit]) -> bool
    ensures is { result ≡ true → IsAnotherNext edit.now behind.now }
    ensures none { result ≡ false → ¬ IsAnotherNext edit.now behind.now }
{
    match behind.first() {
        Some(next) => next.stamp() == edit.stamp() && !next.same(edit),
        None => false,
    }
}

/// Whether the states of each edit are below the rule's number of states.
pub(crate) fn are_under(rule: &Rule, edits: &[Edit]) -> bool
    ensures under { result ≡ true → AreEditsUnder rule.now edits.now }
    ensures above { result ≡ false → HasStateAbove rule.now.states edits.now }
{
    for edit in edits {
        if !is_under(rule, edit) {
            return false;
        }
    }
    true
}

/// Whether the states of an edit are below the rule's number of states.
pub(crate) fn is_under(rule: &Rule, edit: &Edit) -> bool
    ensures under { result ≡ true → AreTellable rule.now.states (edit.now ∷ []) }
    ensures is { result ≡ has_states_below rule.now.states edit.now }
{
    are_below(rule.states(), edit.listed_cells())
}
