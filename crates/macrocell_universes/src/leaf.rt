//! Leaves one row further down.

ghost use Rattle.std.specs.Prelude.{◌≡◌, ◌≤◌, ◌<◌, ◌%◌, ◌/◌, ℕ, true, slice_index};
ghost use Rattle.macrocell_text.specs.Macrocells.{AreLevelled, AreSquares, are_entries, squares_of};
ghost use Rattle.macrocell_universes.specs.Lowered.{grid_of, lowered};
ghost use Rattle.macrocell_universes.specs.Numbered.{IsNumbered, square_of};

use crate::quarters::Numbered;
use crate::state::state_of;
use macrocell_text::Entry;

/// The states of a pair of squares of level 3, one row further down, row by row.
pub(crate) fn lowered_states(entries: &[Entry], upper: Numbered, lower: Numbered) -> [u8; 64]
    requires squares { AreSquares (squares_of entries.now) }
    requires levels { AreLevelled entries.now }
    requires entries { are_entries entries.now ≡ true }
    requires upper { IsNumbered entries.now upper }
    requires lower { IsNumbered entries.now lower }
    requires upper_level { upper.level ≡ 3 }
    requires lower_level { lower.level ≡ 3 }
    ensures { (i : ℕ) → i < 64 → slice_index result i ≡ (lowered 8 (grid_of (square_of entries.now upper)) (grid_of (square_of entries.now lower)) (i % 8) (i / 8)).state }
{
    let mut states = [0; 64];
    for i in 0..64u32 {
        states[i as usize] = lowered_state(entries, upper, lower, i);
    }
    states
}

/// The state at a place of them.
fn lowered_state(entries: &[Entry], upper: Numbered, lower: Numbered, i: u32) -> u8
    requires squares { AreSquares (squares_of entries.now) }
    requires levels { AreLevelled entries.now }
    requires entries { are_entries entries.now ≡ true }
    requires upper { IsNumbered entries.now upper }
    requires lower { IsNumbered entries.now lower }
    requires upper_level { upper.level ≡ 3 }
    requires lower_level { lower.level ≡ 3 }
    requires place { i < 64 }
    ensures { result ≡ (lowered 8 (grid_of (square_of entries.now upper)) (grid_of (square_of entries.now lower)) (i % 8) (i / 8)).state }
{
    if i < 8 {
        state_of(entries, upper, i, 7)
    } else {
        state_of(entries, lower, i % 8, i / 8 - 1)
    }
}
