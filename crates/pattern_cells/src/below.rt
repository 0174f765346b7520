//! States below a rule's number of them.

ghost use Rattle.std.specs.Prelude.{◌≡◌};
ghost use Rattle.pattern_cells.specs.Cells.{are_states_below};

use crate::cell::Cell;

/// Whether all states are below a number of states.
pub fn are_below(states: u16, cells: &[Cell]) -> bool
    ensures { result ≡ are_states_below states cells.now }
{
    cells.iter().all(|cell| u16::from(cell.state) < states)
}
