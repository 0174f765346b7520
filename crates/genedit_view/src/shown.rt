//! The cells that are shown of a text.

ghost use Rattle.std.specs.Prelude.{◌≡◌, ◌⊎◌, IfErr, IfOk, Some, true, false, option_map};
ghost use Rattle.pattern_cells.specs.Cells.{are_states_below};
ghost use Rattle.edit_stamps.specs.PlaneMap.{HasStatesBelow};
ghost use Rattle.stamped_tree.specs.Plane.{map_of};
ghost use Rattle.generation_engine.specs.Universe.{states_in_writes};
ghost use Rattle.cell_pictures.specs.Shown.{state_at};
ghost use Rattle.genedit_view.specs.Cells.{ArePatternCells};
ghost use Rattle.genedit_view.specs.Fault.{IsViewWant};
ghost use Rattle.genedit_view.specs.Reading.{begins_as_state, bounds_told, generation_told};
ghost use Rattle.genedit_io.specs.declared.fault.RunFault.TheVariants.{StoreFull};
ghost use Rattle.genedit_view.specs.declared.fault.ViewFault.TheVariants.{Run};
ghost use Rattle.genedit_view.specs.Seeing.{AreCellsAt, AreSeen, IsFullAt, IsLateFull, IsLateRefused, IsNotSeen, IsRefusedAt, IsWantAt};

use crate::drawn::plane_of;
use crate::fault::ViewFault;
use crate::file::file_cells;
use crate::later::{cells_at, in_range};
use crate::options::ViewOptions;
use crate::rule::{begins_as_state, state_rule};
use crate::seen::SeenCells;
use delta_exchange::read;
use generations_rule::Rule;
use pattern_cells::Cell;
use stamped_tree::Plane;
use std::alloc::Global;

/// The cells that are shown of a text, and the rule; or why nothing is.
pub fn see(alloc: Global, options: &ViewOptions, text: &[u8]) -> Result<SeenCells, ViewFault>
    ensures seen { IfOk result (λ seen. AreSeen options.now text.now seen.rule seen.cells.items) }
    ensures below { IfOk result (λ seen. are_states_below seen.rule.states seen.cells.items ≡ true) }
    ensures generation { IfOk result (λ seen. seen.generation ≡ generation_told text.now) }
    ensures bounds { IfOk result (λ seen. option_map (λ bounds. bounds.items) seen.bounds ≡ bounds_told text.now) }
    ensures fault { IfErr result (λ fault. IsNotSeen options.now text.now fault ⊎ IsWantAt options.now text.now fault) }
{
    if begins_as_state(text) {
        see_state(alloc, options, text)
    } else {
        see_file(alloc, options, text)
    }
}

fn see_file(alloc: Global, options: &ViewOptions, text: &[u8]) -> Result<SeenCells, ViewFault>
    requires { begins_as_state text.now ≡ false }
    ensures seen { IfOk result (λ seen. AreSeen options.now text.now seen.rule seen.cells.items) }
    ensures below { IfOk result (λ seen. are_states_below seen.rule.states seen.cells.items ≡ true) }
    ensures generation { IfOk result (λ seen. seen.generation ≡ generation_told text.now) }
    ensures bounds { IfOk result (λ seen. option_map (λ bounds. bounds.items) seen.bounds ≡ bounds_told text.now) }
    ensures fault { IfErr result (λ fault. IsNotSeen options.now text.now fault ⊎ IsWantAt options.now text.now fault) }
{
    let is_run = options.generation.is_some();
    let seen = file_cells(alloc, options.rule, is_run, text)?;
    let Some(generation) = options.generation else {
        return Ok(seen);
    };
    let cells = run_cells(alloc, &seen.rule, &seen.cells, generation)?;
    Ok(SeenCells {
        rule: seen.rule,
        generation: seen.generation,
        cells,
        bounds: seen.bounds,
    })
}

fn see_state(alloc: Global, options: &ViewOptions, text: &[u8]) -> Result<SeenCells, ViewFault>
    requires { begins_as_state text.now ≡ true }
    ensures seen { IfOk result (λ seen. AreSeen options.now text.now seen.rule seen.cells.items) }
    ensures below { IfOk result (λ seen. are_states_below seen.rule.states seen.cells.items ≡ true) }
    ensures generation { IfOk result (λ seen. seen.generation ≡ generation_told text.now) }
    ensures bounds { IfOk result (λ seen. option_map (λ bounds. bounds.items) seen.bounds ≡ bounds_told text.now) }
    ensures fault { IfErr result (λ fault. IsNotSeen options.now text.now fault ⊎ IsWantAt options.now text.now fault) }
{
    let Some(rule) = state_rule(options.rule, text) else {
        return Err(ViewFault::NoRule);
    };
    let message = read(alloc, &rule, text)?;
    let Some(plane) = message.plane() else {
        unreachable!()
    };
    let cells = plane_cells(alloc, &rule, plane, options.generation)?;
    Ok(SeenCells {
        rule,
        generation: 0,
        cells,
        bounds: None,
    })
}

/// A file's cells some generations later.
fn run_cells(
    alloc: Global,
    rule: &Rule,
    cells: &[Cell],
    generation: u32,
) -> Result<Vec<Cell>, ViewFault>
    requires { ArePatternCells true rule.now cells.now }
    ensures cells { IfOk result (λ later. AreCellsAt rule.now (state_at cells.now) (Some generation) later.items) }
    ensures below { IfOk result (λ later. are_states_below rule.now.states later.items ≡ true) }
    ensures fault { IfErr result (λ fault. IsLateRefused rule.now (state_at cells.now) generation fault ⊎ IsViewWant fault) }
    ensures full { IfErr result (λ fault. fault ≡ Run StoreFull → IsLateFull rule.now (state_at cells.now) generation) }
{
    in_range(generation)?;
    let plane = plane_of(alloc, rule, cells)?;
    let later = cells_at(alloc, rule, &plane, generation)?;
    Ok(later)
}

/// A plane's cells, or those some generations later.
fn plane_cells(
    alloc: Global,
    rule: &Rule,
    plane: &Plane,
    generation: Option<u32>,
) -> Result<Vec<Cell>, ViewFault>
    requires { HasStatesBelow rule.now.states (map_of plane.now) }
    ensures cells { IfOk result (λ cells. AreCellsAt rule.now (states_in_writes (map_of plane.now)) generation cells.items) }
    ensures below { IfOk result (λ cells. are_states_below rule.now.states cells.items ≡ true) }
    ensures fault { IfErr result (λ fault. IsRefusedAt rule.now (states_in_writes (map_of plane.now)) generation fault ⊎ IsViewWant fault) }
    ensures full { IfErr result (λ fault. fault ≡ Run StoreFull → IsFullAt rule.now (states_in_writes (map_of plane.now)) generation) }
{
    // For the proof alone: the call tells that it is a rule.
    let _states = rule.states();
    let Some(generation) = generation else {
        return Ok(plane.walk()?);
    };
    in_range(generation)?;
    let later = cells_at(alloc, rule, plane, generation)?;
    Ok(later)
}
