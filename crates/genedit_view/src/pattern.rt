//! The rule and the cells of a pattern's file: RLE, MCell's or plaintext.

ghost use Rattle.std.specs.Prelude.{◌≡◌, ◌+ℤ◌, pos, IfErr, IfOk, Ok, Err, ◌⊎◌, option_map};
ghost use Rattle.edit_stamps.specs.Plane.{is_coordinate_in_plane};
ghost use Rattle.cell_files.specs.Files.{file_bounds_told, file_parsed};
ghost use Rattle.genedit_view.specs.Fault.{memory_wanted};
ghost use Rattle.genedit_view.specs.Reading.{cells_or_fault, generation_of_pattern, is_outside, pattern_fault, pattern_seen};
ghost use Rattle.genedit_view.specs.Cells.{ArePatternCells, are_in_plane_at};

use crate::fault::ViewFault;
use crate::places::is_in_plane;
use crate::rule::pattern_rule;
use crate::seen::SeenCells;
use cell_files::{file_bounds, read_cells};
use edit_stamps::{Corner, are_placeable, have_states_below, placed_cells};
use generations_rule::Rule;
use pattern_cells::{Cell, Pattern, PatternCell};
use std::alloc::Global;

/// The rule and the cells of a text, each moved by the text's position, and its bounds; or the first refusal: what
/// is wrong with the text, a rule that is not told, a coordinate outside the plane, a state that the rule
/// does not have. Where the pattern is to be run, the plane is that of edits.
pub fn pattern_cells(
    alloc: Global,
    given: Option<Rule>,
    is_run: bool,
    text: &[u8],
) -> Result<SeenCells, ViewFault>
    ensures seen { IfOk result (λ seen. pattern_seen is_run given text.now ≡ Ok (seen.rule, seen.cells.items)) }
    ensures cells { IfOk result (λ seen. ArePatternCells is_run seen.rule seen.cells.items) }
    ensures generation { IfOk result (λ seen. seen.generation ≡ generation_of_pattern (file_parsed text.now)) }
    ensures bounds { IfOk result (λ seen. option_map (λ bounds. bounds.items) seen.bounds ≡ file_bounds_told text.now) }
    ensures fault { IfErr result (λ fault. (pattern_seen is_run given text.now ≡ Err fault) ⊎ (fault ≡ memory_wanted)) }
{
    let pattern = read_cells(alloc, text)?;
    let rule = pattern_rule(given, text)?;
    let cells = placed(alloc, is_run, &rule, &pattern)?;
    let bounds = file_bounds(alloc, text)?;
    Ok(SeenCells {
        rule,
        generation: pattern.generation(),
        cells,
        bounds,
    })
}

/// The cells of a pattern that was read; it is looked at for refusals before memory is taken.
fn placed(
    alloc: Global,
    is_run: bool,
    rule: &Rule,
    pattern: &Pattern,
) -> Result<Vec<Cell>, ViewFault>
    ensures seen { IfOk result (λ cells. cells_or_fault is_run rule.now pattern.now ≡ Ok (rule.now, cells.items)) }
    ensures cells { IfOk result (λ cells. ArePatternCells is_run rule.now cells.items) }
    ensures fault { IfErr result (λ fault. (cells_or_fault is_run rule.now pattern.now ≡ Err fault) ⊎ (fault ≡ memory_wanted)) }
{
    if let Some(fault) = fault_of(is_run, rule, pattern) {
        return Err(fault);
    }
    // For the proof alone: the call tells that it is a rule.
    let _states = rule.states();
    let cells = placed_cells(alloc, pattern.cells(), position_of(pattern))?;
    Ok(cells)
}

/// The first refusal of a pattern that was read.
fn fault_of(is_run: bool, rule: &Rule, pattern: &Pattern) -> Option<ViewFault>
    ensures { result ≡ pattern_fault is_run rule.now.states pattern.now }
{
    if is_outside(is_run, pattern) {
        Some(ViewFault::out_of_plane())
    } else if !have_states_below(rule.states(), pattern.cells()) {
        Some(ViewFault::state_range())
    } else {
        None
    }
}

/// Whether a coordinate of a cell has not 32 bits with its sign, or, where the pattern is to be run, lies
/// outside the plane of edits.
fn is_outside(is_run: bool, pattern: &Pattern) -> bool
    ensures { result ≡ is_outside is_run pattern.now }
{
    let cells = pattern.cells();
    let position = position_of(pattern);
    !are_placeable(cells, position) || (is_run && !are_in_plane(cells, position))
}

/// Where the text says that its box's upper left corner was.
fn position_of(pattern: &Pattern) -> Corner
    ensures { result ≡ record { x = pattern.now.pos.0; y = pattern.now.pos.1 } }
{
    let (x, y) = pattern.pos();
    Corner::at(x, y)
}

/// Whether each cell, moved there, lies in the plane of edits.
fn are_in_plane(cells: &[PatternCell], at: Corner) -> bool
    ensures { result ≡ are_in_plane_at at.x at.y cells.now }
{
    cells.iter().all(|cell| is_moved_in_plane(at.x, cell.column)
        && is_moved_in_plane(at.y, cell.row))
}

/// Whether a moved coordinate lies in the plane of edits.
fn is_moved_in_plane(n: i32, by: u32) -> bool
    ensures { result ≡ is_coordinate_in_plane (n +ℤ pos by) }
{
    is_in_plane(i64::from(n) + i64::from(by))
}
