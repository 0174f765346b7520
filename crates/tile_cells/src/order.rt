//! Whether cells are in the order in which they are listed.

ghost use Rattle.std.specs.Prelude.{◌≡◌, ◌∷◌, ◌&&◌};
ghost use Rattle.generations_rule.specs.Place.{is_before};
ghost use Rattle.pattern_cells.specs.Cells.{are_nonzero, is_sorted, place_of};

use pattern_cells::Cell;

/// Whether cells are sorted by `y`, then `x`, each coordinate once, and none is dead.
pub(crate) fn are_in_order(cells: &[Cell]) -> bool
    ensures { result ≡ (is_sorted cells.now && are_nonzero cells.now) }
{
    are_sorted(cells) && are_alive(cells)
}

fn are_sorted(cells: &[Cell]) -> bool
    ensures { result ≡ is_sorted cells.now }
{
    match cells.split_first() {
        Some((first, rest)) => are_sorted_behind(first, rest),
        None => true,
    }
}

fn are_sorted_behind(first: &Cell, rest: &[Cell]) -> bool
    ensures { result ≡ is_sorted (first.now ∷ rest.now) }
{
    let mut last = *first;
    for cell in rest {
        if !precedes(last, *cell) {
            return false;
        }
        last = *cell;
    }
    true
}

fn precedes(a: Cell, b: Cell) -> bool
    ensures { result ≡ is_before (place_of a) (place_of b) }
{
    a.y < b.y || (a.y == b.y && a.x < b.x)
}

fn are_alive(cells: &[Cell]) -> bool
    ensures { result ≡ are_nonzero cells.now }
{
    cells.iter().all(|cell| cell.state != 0)
}
