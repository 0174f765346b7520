//! The rule and the cells of a file: a pattern's, or a macrocell.

ghost use Rattle.std.specs.Prelude.{◌≡◌, ◌⊎◌, IfErr, IfOk, option_map, false};
ghost use Rattle.cell_pictures.specs.Shown.{state_at};
ghost use Rattle.genedit_view.specs.Cells.{ArePatternCells};
ghost use Rattle.genedit_view.specs.Fault.{memory_wanted};
ghost use Rattle.genedit_view.specs.Reading.{IsReadAs, IsRefusedFile, begins_as_state, bounds_told, generation_told};

use crate::fault::ViewFault;
use crate::macrocell::{begins_as_macrocell, macrocell_cells};
use crate::pattern::pattern_cells;
use crate::seen::SeenCells;
use generations_rule::Rule;
use std::alloc::Global;

/// What is seen of a text that is no state: a rule, the cells of its map, its generation and its bounds; or the first
/// refusal. Where the cells are to be run, they lie in the plane of edits.
pub fn file_cells(
    alloc: Global,
    given: Option<Rule>,
    is_run: bool,
    text: &[u8],
) -> Result<SeenCells, ViewFault>
    requires { begins_as_state text.now ≡ false }
    ensures read { IfOk result (λ seen. IsReadAs is_run given text.now seen.rule (state_at seen.cells.items)) }
    ensures cells { IfOk result (λ seen. ArePatternCells is_run seen.rule seen.cells.items) }
    ensures generation { IfOk result (λ seen. seen.generation ≡ generation_told text.now) }
    ensures bounds { IfOk result (λ seen. option_map (λ bounds. bounds.items) seen.bounds ≡ bounds_told text.now) }
    ensures fault { IfErr result (λ fault. IsRefusedFile is_run given text.now fault ⊎ (fault ≡ memory_wanted)) }
{
    if begins_as_macrocell(text) {
        macrocell_cells(alloc, given, is_run, text)
    } else {
        pattern_cells(alloc, given, is_run, text)
    }
}
