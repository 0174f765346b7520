//! Which lists of cells can be written.

ghost use Rattle.std.specs.Prelude.{◌≡◌, ◌∷◌};
ghost use Rattle.generations_rule.specs.Place.{is_before};
ghost use Rattle.multistate_rle.specs.Cells.{may_be_written};
ghost use Rattle.pattern_cells.specs.Cells.{place_of, is_sorted, are_nonzero, are_states_below};

use generations_rule::Rule;
use pattern_cells::{Cell, are_below};

/// Whether `write` takes these cells under this rule: sorted by `y`, then `x`, each coordinate once,
/// none in state 0, and all below the rule's number of states.
pub fn are_writable(rule: &Rule, cells: &[Cell]) -> bool
    ensures { result ≡ may_be_written rule.now.states cells.now }
{
    are_sorted(cells) && are_alive(cells) && are_below(rule.states(), cells)
}

fn are_sorted(cells: &[Cell]) -> bool
    ensures { result ≡ is_sorted cells.now }
{
    match cells.split_first() {
        Some((first, rest)) => are_sorted_behind(first, rest),
        None => true,
    }
}

fn are_sorted_behind(first: &Cell, rest: &[Cell]) -> bool
    ensures { result ≡ is_sorted (first.now ∷ rest.now) }
{
    let mut last = *first;
    for cell in rest {
        if !precedes(last, *cell) {
            return false;
        }
        last = *cell;
    }
    true
}

fn precedes(a: Cell, b: Cell) -> bool
    ensures { result ≡ is_before (place_of a) (place_of b) }
{
    a.y < b.y || (a.y == b.y && a.x < b.x)
}

fn are_alive(cells: &[Cell]) -> bool
    ensures { result ≡ are_nonzero cells.now }
{
    cells.iter().all(|cell| cell.state != 0)
}
