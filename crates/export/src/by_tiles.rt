//! Cells of a generation by tiles, which are quicker than a universe where cells live and die in no order.

ghost use Rattle.std.specs.Prelude.{◌≡◌, ◌≤◌, ◌^◌, true, IfSome, IsTrue};
ghost use Rattle.std.specs.List.{list_all};
ghost use Rattle.edit_stamps.specs.PlaneMap.{HasStatesBelow};
ghost use Rattle.pattern_cells.specs.Cells.{place_of};
ghost use Rattle.stamped_tree.specs.Plane.{map_of};
ghost use Rattle.generation_engine.specs.Universe.{states_in_writes};
ghost use Rattle.generation_engine.specs.Walk.{is_in_middle};
ghost use Rattle.export.specs.Export.{AreCounted};
ghost use Rattle.export.specs.Kept.{IsListedOf};

use crate::counting::has_few_cells;
use crate::exporting::LAST_GENERATION;
use generations_rule::Rule;
use pattern_cells::Cell;
use stamped_tree::Plane;
use std::alloc::Global;
use tile_cells::{Means, cells_later};

/// How many windows may be made for any cells.
const LEAST_WINDOWS: u64 = 0x4000;

/// The cells of a plane that are not dead so many generations later. A caller keeps them from one export of the plane to the
/// next.
#[derive(Drop)]
pub struct Listed {
    pub(crate) generation: u32,
    pub(crate) cells: Vec<Cell>,
}

/// The cells of a plane that are not dead some generations later, by tiles: from those that are given on, where they are
/// no later ones. None where that is farther than is tried, where it takes too many tiles or windows, or where the system
/// refuses memory: a universe is run to it then.
pub(crate) fn listed_at(
    alloc: Global,
    rule: &Rule,
    plane: &Plane,
    generation: u32,
    given: Option<Listed>,
) -> Option<Listed>
    requires states { HasStatesBelow rule.now.states (map_of plane.now) }
    requires given { IfSome given (IsListedOf rule.now (states_in_writes (map_of plane.now))) }
    ensures counted { IfSome result (λ listed. AreCounted rule.now (states_in_writes (map_of plane.now)) generation listed.cells.items) }
    ensures inside { IfSome result (λ listed. list_all (λ cell. is_in_middle (place_of cell)) listed.cells.items ≡ true) }
    ensures at { IfSome result (λ listed. listed.generation ≡ generation) }
    ensures generation { IfSome result (λ _. generation ≤ 2 ^ 29) }
{
    if generation > LAST_GENERATION {
        return None;
    }
    let begun = begun(rule, plane, generation, given)?;
    let later = later(alloc, rule, plane, generation, begun)?;
    if are_in_middle(&later.cells) {
        Some(later)
    } else {
        None
    }
}

/// The cells from which a generation is tried: those that are given, or the plane's.
fn begun(rule: &Rule, plane: &Plane, generation: u32, given: Option<Listed>) -> Option<Listed>
    requires { IfSome given (IsListedOf rule.now (states_in_writes (map_of plane.now))) }
    ensures listed { IfSome result (IsListedOf rule.now (states_in_writes (map_of plane.now))) }
    ensures before { IfSome result (λ listed. listed.generation ≤ generation) }
{
    let farthest = farthest_tried(rule);
    match given {
        Some(listed) if is_near(listed.generation, generation, farthest) => Some(listed),
        _other if generation <= farthest => listed_first(rule, plane),
        _other => None,
    }
}

/// Whether a generation is no earlier than another one, and at most so many later.
fn is_near(first: u32, generation: u32, farthest: u32) -> bool
    ensures { IsTrue result → first ≤ generation }
{
    first <= generation && generation - first <= farthest
}

/// How many generations are tried. Under a rule of more states a window takes three to five times as long, and a universe
/// is the quicker one sooner.
fn farthest_tried(rule: &Rule) -> u32 {
    if rule.states() == 2 { 1_024 } else { 512 }
}

/// The cells of the plane itself. None where they are many, so that they are counted by a universe and not listed, or
/// where the system refuses memory.
fn listed_first(rule: &Rule, plane: &Plane) -> Option<Listed>
    ensures listed { IfSome result (IsListedOf rule.now (states_in_writes (map_of plane.now))) }
    ensures at { IfSome result (λ listed. listed.generation ≡ 0) }
{
    if !has_few_cells(plane) {
        return None;
    }
    match plane.walk() {
        Ok(cells) => Some(Listed {
            generation: 0,
            cells,
        }),
        Err(_) => None,
    }
}

/// Those at a later generation. None where it takes too many tiles or windows, or where the system refuses memory.
fn later(
    alloc: Global,
    rule: &Rule,
    plane: &Plane,
    generation: u32,
    listed: Listed,
) -> Option<Listed>
    requires states { HasStatesBelow rule.now.states (map_of plane.now) }
    requires listed { IsListedOf rule.now (states_in_writes (map_of plane.now)) listed }
    requires before { listed.generation ≤ generation }
    ensures listed { IfSome result (IsListedOf rule.now (states_in_writes (map_of plane.now))) }
    ensures at { IfSome result (λ later. later.generation ≡ generation) }
{
    // For the proof alone: the call tells that what is held is a rule.
    let _states = rule.states();
    let steps = generation - listed.generation;
    if steps == 0 {
        return Some(listed);
    }
    let means = Means {
        key: plane.key(),
        windows: windows_for(listed.cells.len(), steps),
    };
    match cells_later(alloc, rule, &listed.cells, steps, means) {
        Ok(cells) => Some(Listed { generation, cells }),
        Err(_) => None,
    }
}

/// How many windows may be made for so many cells. Those of a soup, which fill their tiles, get there with so many; a pattern that
/// grows out of few cells is left to a universe early.
fn windows_for(cells: usize, generations: u32) -> u64 {
    let steps = u64::from(generations / 16).saturating_add(1);
    LEAST_WINDOWS.saturating_add((cells as u64 / 32).saturating_mul(steps))
}

/// Whether all cells lie where they are counted, as all do whose coordinates have 32 bits.
pub(crate) fn are_in_middle(cells: &[Cell]) -> bool
    ensures { result ≡ list_all (λ cell. is_in_middle (place_of cell)) cells.now }
{
    cells.iter().all(|cell| is_in_middle(cell))
}

fn is_in_middle(cell: &Cell) -> bool
    ensures { result ≡ is_in_middle (place_of cell.now) }
{
    let _place = (cell.x, cell.y);
    true
}
