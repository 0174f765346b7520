//! Exports.

ghost use Rattle.std.specs.Prelude.{◌≡◌, ◌^◌, ◌<◌, ◌≤◌, ◌⊎◌, ◌↔◌, IfErr, IfOk, IfSome, OnOk, Ok, Err};
ghost use Rattle.edit_stamps.specs.PlaneMap.{HasStatesBelow};
ghost use Rattle.square_store.specs.Limits.{usual_room};
ghost use Rattle.stamped_tree.specs.Plane.{map_of};
ghost use Rattle.generation_engine.specs.Universe.{population_of, states_in_writes, states_of};
ghost use Rattle.generation_engine.specs.Walk.{AreCellsOf};
ghost use Rattle.export.specs.Export.{AreCounted, AreExported, IsExport, IsExportRefused, IsRoomWanted, IsWant, most_cells};
ghost use Rattle.export.specs.Kept.{IsRunOf};

use crate::by_tiles::{Listed, listed_at};
use crate::fault::ExportFault;
use generation_engine::{Engine, EngineFault};
use generations_rule::Rule;
use multistate_rle::write;
use pattern_cells::Cell;
use square_store::{Limits, ROOM};
use stamped_tree::Plane;
use std::alloc::Global;

/// The last generation.
pub const LAST_GENERATION: u32 = 0x2000_0000;

/// How many cells are exported at most if nothing else is said.
pub const MOST_CELLS: u64 = 0x100_0000;

/// The cells of a plane `generation` generations later, in Golly's multi-state RLE under the rule. First
/// of all `GenRange` is answered, exactly where the generation is greater than 2^29, then `TooManyCells`,
/// exactly where more than 2^24 cells are not dead. Memory, and room for 2^26 squares, are wanted only
/// for a generation that is one.
pub fn export(
    alloc: Global,
    rule: &Rule,
    plane: &Plane,
    generation: u32,
) -> Result<Vec<u8>, ExportFault>
    requires { HasStatesBelow rule.now.states (map_of plane.now) }
    ensures text { IfOk result (λ text. IsExport rule.now (states_in_writes (map_of plane.now)) generation most_cells (Ok text.items)) }
    ensures err { IfErr result (IsExportRefused rule.now (states_in_writes (map_of plane.now)) generation most_cells) }
    ensures full { result ≡ Err ExportFault.StoreFull → IsRoomWanted rule.now plane.now generation usual_room }
{
    export_within(alloc, rule, plane, generation, MOST_CELLS)
}

/// `export` of at most so many cells.
pub fn export_within(
    alloc: Global,
    rule: &Rule,
    plane: &Plane,
    generation: u32,
    limit: u64,
) -> Result<Vec<u8>, ExportFault>
    requires { HasStatesBelow rule.now.states (map_of plane.now) }
    ensures text { IfOk result (λ text. IsExport rule.now (states_in_writes (map_of plane.now)) generation limit (Ok text.items)) }
    ensures err { IfErr result (IsExportRefused rule.now (states_in_writes (map_of plane.now)) generation limit) }
    ensures full { result ≡ Err ExportFault.StoreFull → IsRoomWanted rule.now plane.now generation usual_room }
{
    match text_by_tiles(alloc, rule, plane, generation, limit) {
        Some(answer) => answer,
        None => export_in_room(alloc, rule, plane, generation, limit, ROOM),
    }
}

/// `export`, where tiles tell it; none where a universe is to be run.
pub fn export_by_tiles(
    alloc: Global,
    rule: &Rule,
    plane: &Plane,
    generation: u32,
) -> Option<Result<Vec<u8>, ExportFault>>
    requires { HasStatesBelow rule.now.states (map_of plane.now) }
    ensures text { IfSome result (λ answer. IfOk answer (λ text. IsExport rule.now (states_in_writes (map_of plane.now)) generation most_cells (Ok text.items))) }
    ensures err { IfSome result (λ answer. IfErr answer (IsExportRefused rule.now (states_in_writes (map_of plane.now)) generation most_cells)) }
    ensures not_full { IfSome result (λ answer. IfErr answer (λ fault. (fault ≡ ExportFault.TooManyCells) ⊎ (fault ≡ ExportFault.Memory))) }
{
    text_by_tiles(alloc, rule, plane, generation, MOST_CELLS)
}

/// The same of at most so many cells.
fn text_by_tiles(
    alloc: Global,
    rule: &Rule,
    plane: &Plane,
    generation: u32,
    limit: u64,
) -> Option<Result<Vec<u8>, ExportFault>>
    requires { HasStatesBelow rule.now.states (map_of plane.now) }
    ensures text { IfSome result (λ answer. IfOk answer (λ text. IsExport rule.now (states_in_writes (map_of plane.now)) generation limit (Ok text.items))) }
    ensures err { IfSome result (λ answer. IfErr answer (IsExportRefused rule.now (states_in_writes (map_of plane.now)) generation limit)) }
    ensures not_full { IfSome result (λ answer. IfErr answer (λ fault. (fault ≡ ExportFault.TooManyCells) ⊎ (fault ≡ ExportFault.Memory))) }
{
    let listed = listed_at(alloc, rule, plane, generation, None)?;
    Some(text_of(alloc, rule, plane, &listed, limit))
}

/// The text of cells that were counted, if they are at most so many.
pub(crate) fn text_of(
    alloc: Global,
    rule: &Rule,
    plane: &Plane,
    listed: &Listed,
    limit: u64,
) -> Result<Vec<u8>, ExportFault>
    requires states { HasStatesBelow rule.now.states (map_of plane.now) }
    requires counted { AreCounted rule.now (states_in_writes (map_of plane.now)) listed.now.generation listed.now.cells.items }
    requires generation { listed.now.generation ≤ 2 ^ 29 }
    ensures text { IfOk result (λ text. IsExport rule.now (states_in_writes (map_of plane.now)) listed.now.generation limit (Ok text.items)) }
    ensures err { IfErr result (IsExportRefused rule.now (states_in_writes (map_of plane.now)) listed.now.generation limit) }
    ensures not_full { IfErr result (λ fault. (fault ≡ ExportFault.TooManyCells) ⊎ (fault ≡ ExportFault.Memory)) }
{
    limit_cells(rule, plane, listed, limit)?;
    let text = write(alloc, rule, u64::from(listed.generation), &listed.cells)?;
    Ok(text)
}

/// `export` of at most so many cells, by a universe with room for so many squares.
pub fn export_in_room(
    alloc: Global,
    rule: &Rule,
    plane: &Plane,
    generation: u32,
    limit: u64,
    nodes: u32,
) -> Result<Vec<u8>, ExportFault>
    requires states { HasStatesBelow rule.now.states (map_of plane.now) }
    requires nodes { 64 ≤ nodes }
    ensures text { IfOk result (λ text. IsExport rule.now (states_in_writes (map_of plane.now)) generation limit (Ok text.items)) }
    ensures err { IfErr result (IsExportRefused rule.now (states_in_writes (map_of plane.now)) generation limit) }
    ensures full { result ≡ Err ExportFault.StoreFull → IsRoomWanted rule.now plane.now generation nodes }
{
    if generation > LAST_GENERATION {
        return Err(ExportFault::GenRange);
    }
    let cells = cells_in_room(alloc, rule, plane, generation, limit, nodes)?;
    let text = write(alloc, rule, u64::from(generation), &cells)?;
    Ok(text)
}

/// The cells of a plane that are not dead some generations later, by `y`, then `x`; `TooManyCells` exactly where they are
/// more than the limit. They are told by tiles, or where these do not tell them by a universe with room for 2^26 squares.
pub fn cells_at(
    alloc: Global,
    rule: &Rule,
    plane: &Plane,
    generation: u32,
    limit: u64,
) -> Result<Vec<Cell>, ExportFault>
    requires states { HasStatesBelow rule.now.states (map_of plane.now) }
    requires generation { generation ≤ 2 ^ 29 }
    ensures cells { IfOk result (λ cells. AreExported rule.now (states_in_writes (map_of plane.now)) generation limit cells.items) }
    ensures err { IfErr result (IsExportRefused rule.now (states_in_writes (map_of plane.now)) generation limit) }
    ensures full { result ≡ Err ExportFault.StoreFull → IsRoomWanted rule.now plane.now generation usual_room }
{
    match listed_at(alloc, rule, plane, generation, None) {
        Some(listed) => {
            limit_cells(rule, plane, &listed, limit)?;
            Ok(listed.cells)
        }
        None => cells_in_room(alloc, rule, plane, generation, limit, ROOM),
    }
}

/// Refuses cells that were counted where they are more than so many.
fn limit_cells(rule: &Rule, plane: &Plane, listed: &Listed, limit: u64) -> Result<(), ExportFault>
    requires states { HasStatesBelow rule.now.states (map_of plane.now) }
    requires counted { AreCounted rule.now (states_in_writes (map_of plane.now)) listed.now.generation listed.now.cells.items }
    requires generation { listed.now.generation ≤ 2 ^ 29 }
    ensures cells { OnOk result (AreExported rule.now (states_in_writes (map_of plane.now)) listed.now.generation limit listed.now.cells.items) }
    ensures err { IfErr result (IsExportRefused rule.now (states_in_writes (map_of plane.now)) listed.now.generation limit) }
    ensures many { IfErr result (λ fault. fault ≡ ExportFault.TooManyCells) }
{
    // For the proof alone: the call tells that what is held is a rule.
    let _states = rule.states();
    if listed.cells.len() as u64 <= limit {
        Ok(())
    } else {
        Err(ExportFault::TooManyCells)
    }
}

/// The cells that are not dead some generations later, by a universe with room for so many squares. They are counted
/// before they are listed, and the universe is given back before they are written.
fn cells_in_room(
    alloc: Global,
    rule: &Rule,
    plane: &Plane,
    generation: u32,
    limit: u64,
    nodes: u32,
) -> Result<Vec<Cell>, ExportFault>
    requires states { HasStatesBelow rule.now.states (map_of plane.now) }
    requires nodes { 64 ≤ nodes }
    requires generation { generation ≤ 2 ^ 29 }
    ensures cells { IfOk result (λ cells. AreExported rule.now (states_in_writes (map_of plane.now)) generation limit cells.items) }
    ensures err { IfErr result (IsExportRefused rule.now (states_in_writes (map_of plane.now)) generation limit) }
    ensures full { result ≡ Err ExportFault.StoreFull → IsRoomWanted rule.now plane.now generation nodes }
{
    let engine = engine_at(alloc, rule, plane, generation, nodes)?;
    cells_of(rule, plane, generation, &engine, limit)
}

/// A new universe of a plane, with room for so many squares, run to a generation, which is one: `StoreFull` where that room
/// does not do, else want of memory.
pub fn engine_at(
    alloc: Global,
    rule: &Rule,
    plane: &Plane,
    generation: u32,
    nodes: u32,
) -> Result<Engine, ExportFault>
    requires states { HasStatesBelow rule.now.states (map_of plane.now) }
    requires nodes { 64 ≤ nodes }
    requires generation { generation ≤ 2 ^ 29 }
    ensures run { IfOk result (IsRunOf rule.now (states_in_writes (map_of plane.now))) }
    ensures at { IfOk result (λ engine. engine.generation ≡ generation) }
    ensures err { IfErr result IsWant }
    ensures full { result ≡ Err ExportFault.StoreFull → IsRoomWanted rule.now plane.now generation nodes }
{
    let limits = Limits {
        room: nodes,
        key: plane.key(),
    };
    let mut engine = Engine::within(alloc, *rule, limits)?;
    engine.load(plane)?;
    let run = engine.run(generation);
    // For the proof alone: it tells what the engine is where it became full.
    engine.universe_laws();
    match run {
        Ok(()) => Ok(engine),
        Err(EngineFault::StoreFull) => Err(ExportFault::StoreFull),
        Err(EngineFault::Memory) => Err(ExportFault::Memory),
        Err(EngineFault::GenRange) => unreachable!(),
    }
}

/// The cells that a universe of a plane shows at a generation, which is one, if they are at most so many: else
/// `TooManyCells`, without a list.
pub fn cells_of(
    rule: &Rule,
    plane: &Plane,
    generation: u32,
    engine: &Engine,
    limit: u64,
) -> Result<Vec<Cell>, ExportFault>
    requires states { HasStatesBelow rule.now.states (map_of plane.now) }
    requires run { IsRunOf rule.now (states_in_writes (map_of plane.now)) engine.now }
    requires at { engine.now.generation ≡ generation }
    requires generation { generation ≤ 2 ^ 29 }
    ensures cells { IfOk result (λ cells. AreExported rule.now (states_in_writes (map_of plane.now)) generation limit cells.items) }
    ensures err { IfErr result (IsExportRefused rule.now (states_in_writes (map_of plane.now)) generation limit) }
    ensures not_full { IfErr result (λ fault. (fault ≡ ExportFault.TooManyCells) ⊎ (fault ≡ ExportFault.Memory)) }
{
    // For the proof alone: the call tells that what is held is a rule.
    let _states = rule.states();
    cells_within(engine, limit)
}

/// The cells that an engine shows, sorted by `y`, then `x`, if they are at most so many. They are counted
/// before they are listed, each distinct square once.
pub fn cells_within(engine: &Engine, limit: u64) -> Result<Vec<Cell>, ExportFault>
    ensures cells { IfOk result (λ cells. AreCellsOf (states_of engine.now) cells.items) }
    ensures too_many { (result ≡ Err ExportFault.TooManyCells) ↔ (limit < population_of engine.now) }
    ensures err { IfErr result (λ fault. (fault ≡ ExportFault.TooManyCells) ⊎ (fault ≡ ExportFault.Memory)) }
{
    if engine.population() > u128::from(limit) {
        return Err(ExportFault::TooManyCells);
    }
    let cells = engine.cells()?;
    Ok(cells)
}
