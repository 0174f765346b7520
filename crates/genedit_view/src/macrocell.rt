//! The rule and the cells of a macrocell.

ghost use Rattle.std.specs.Prelude.{◌≡◌, ◌⊎◌, IfErr, IfOk, OnOk, None, Some, option_map, false, true};
ghost use Rattle.pattern_cells.specs.Cells.{are_states_below};
ghost use Rattle.edit_stamps.specs.Making.{are_in_plane};
ghost use Rattle.generations_rule.specs.Rule.{IsRule};
ghost use Rattle.cell_files.specs.Files.{header_bounds};
ghost use Rattle.cell_pictures.specs.Shown.{state_at};
ghost use Rattle.macrocell_text.specs.Finding.{AreListed};
ghost use Rattle.macrocell_text.specs.Readings.{macrocell_told};
ghost use Rattle.macrocell_text.specs.Texts.{macrocell_read};
ghost use Rattle.genedit_view.specs.Cells.{ArePatternCells};
ghost use Rattle.genedit_view.specs.Fault.{memory_wanted};
ghost use Rattle.genedit_view.specs.Macrocells.{begins_as_macrocell, bounds_of_macrocell, cells_fault, generation_of_macrocell, macrocell_seen, rule_at_place, squares_fault};
ghost use Rattle.genedit_view.specs.Reading.{IsReadAs, begins_as_state};

use crate::fault::ViewFault;
use crate::places::is_in_plane;
use crate::rule::given_or_told;
use crate::seen::SeenCells;
use cell_files::CellFormat;
use generations_rule::Rule;
use header_rules::{HeaderRule, part_at, rule_standing};
use macrocell_text::{Macrocell, RulePlace, map_laws, read_macrocell};
use pattern_cells::Cell;
use std::alloc::{AllocError, Global};

/// Whether a text is taken for a macrocell: by its first bytes, whatever its name.
pub fn begins_as_macrocell(text: &[u8]) -> bool
    ensures { result ≡ begins_as_macrocell text.now }
{
    matches!(CellFormat::of(text), CellFormat::Macrocell)
}

/// The rule and the cells of a text, its generation and its bounds; or the first refusal: what is wrong with the text,
/// a rule that is not told, more than 2^24 cells, which are counted before any is listed, a coordinate outside the
/// plane, a state that the rule does not have. Where the cells are to be run, the plane is that of edits.
pub fn macrocell_cells(
    alloc: Global,
    given: Option<Rule>,
    is_run: bool,
    text: &[u8],
) -> Result<SeenCells, ViewFault>
    requires no_state { begins_as_state text.now ≡ false }
    requires macrocell { begins_as_macrocell text.now ≡ true }
    ensures read { IfOk result (λ seen. IsReadAs is_run given text.now seen.rule (state_at seen.cells.items)) }
    ensures cells { IfOk result (λ seen. ArePatternCells is_run seen.rule seen.cells.items) }
    ensures generation { IfOk result (λ seen. seen.generation ≡ generation_of_macrocell (macrocell_read text.now)) }
    ensures bounds { IfOk result (λ seen. option_map (λ bounds. bounds.items) seen.bounds ≡ bounds_of_macrocell text.now (macrocell_read text.now)) }
    ensures fault { IfErr result (λ fault. (macrocell_seen is_run given text.now ≡ Err fault) ⊎ (fault ≡ memory_wanted)) }
{
    // For the proof alone: the call tells what the cells are that are listed of a text.
    map_laws();
    let macrocell = read_macrocell(alloc, text)?;
    let place = macrocell.rule();
    let rule = given_or_told(given, rule_at_place(text, place))?;
    let cells = listed_under(alloc, is_run, &rule, &macrocell)?;
    let bounds = bounds_behind(alloc, text, &rule_at_place(text, place))?;
    Ok(SeenCells {
        rule,
        generation: macrocell.generation(),
        cells,
        bounds,
    })
}

/// The rule that stands at a place, with its bounds.
fn rule_at_place(text: &[u8], place: Option<RulePlace>) -> Option<HeaderRule>
    ensures { result ≡ rule_at_place text.now place }
{
    let RulePlace { place, length } = place?;
    rule_standing(text, place, length)
}

/// The bounds behind a rule.
fn bounds_behind(
    alloc: Global,
    text: &[u8],
    told: &Option<HeaderRule>,
) -> Result<Option<Vec<u8>>, AllocError>
    ensures { IfOk result (λ bounds. option_map (λ bounds. bounds.items) bounds ≡ header_bounds text.now told.now) }
{
    let Some(told) = told else {
        return Ok(None);
    };
    let Some(bounds) = told.bounds else {
        return Ok(None);
    };
    let bounds = part_at(text, bounds.place, bounds.length).to_vec(alloc)?;
    Ok(Some(bounds))
}

/// The cells of a macrocell's map, under a rule; or the first refusal.
fn listed_under(
    alloc: Global,
    is_run: bool,
    rule: &Rule,
    macrocell: &Macrocell,
) -> Result<Vec<Cell>, ViewFault>
    ensures listed { IfOk result (λ cells. AreListed (macrocell_told macrocell.now).squares cells.items) }
    ensures allowed { OnOk result (squares_fault is_run rule.now.states (macrocell_told macrocell.now).squares ≡ None) }
    ensures rule { OnOk result (IsRule rule.now) }
    ensures fault { IfErr result (λ fault. (squares_fault is_run rule.now.states (macrocell_told macrocell.now).squares ≡ Some fault) ⊎ (fault ≡ memory_wanted)) }
{
    let states = rule.states();
    let cells = macrocell.cells(alloc)?;
    match cells_fault(is_run, states, &cells) {
        Some(fault) => Err(fault),
        None => Ok(cells),
    }
}

/// The first refusal of cells that are listed, under a rule of so many states.
fn cells_fault(is_run: bool, states: u16, cells: &[Cell]) -> Option<ViewFault>
    ensures { result ≡ cells_fault is_run states cells.now }
{
    if is_run && !are_in_plane(cells) {
        Some(ViewFault::out_of_plane())
    } else if !are_states_below(states, cells) {
        Some(ViewFault::state_range())
    } else {
        None
    }
}

fn are_in_plane(cells: &[Cell]) -> bool
    ensures { result ≡ are_in_plane cells.now }
{
    cells.iter().all(|cell| is_in_plane(i64::from(cell.x)) && is_in_plane(i64::from(cell.y)))
}

fn are_states_below(states: u16, cells: &[Cell]) -> bool
    ensures { result ≡ are_states_below states cells.now }
{
    cells.iter().all(|cell| u16::from(cell.state) < states)
}
