//! Exports of one plane by a universe that is kept between them.

ghost use Rattle.std.specs.Prelude.{◌≡◌, ◌^◌, ◌≤◌, ◌⊎◌, IfErr, IfOk, IfSome, None, Ok, Err};
ghost use Rattle.edit_stamps.specs.PlaneMap.{HasStatesBelow};
ghost use Rattle.square_store.specs.Limits.{usual_room};
ghost use Rattle.stamped_tree.specs.Plane.{map_of};
ghost use Rattle.generation_engine.specs.Universe.{states_in_writes};
ghost use Rattle.export.specs.Export.{IsExport, IsExportRefused, IsRoomWanted, IsWant, most_cells};
ghost use Rattle.export.specs.Kept.{IsListedOf, IsRunOf};

use crate::by_tiles::{Listed, listed_at};
use crate::exporting::{LAST_GENERATION, MOST_CELLS, cells_of, export, text_of};
use crate::fault::ExportFault;
use generation_engine::{Engine, EngineFault};
use generations_rule::Rule;
use multistate_rle::write;
use square_store::Limits;
use stamped_tree::Plane;
use std::alloc::Global;

/// `export`, by the universe that an earlier export of the plane left: it is run on from where it is, unless
/// the generation is earlier, so that generations in rising order cost the last of them. Where this finds no
/// room or no memory the universe is given back, and what is answered is what `export` answers.
pub fn export_on(
    alloc: Global,
    rule: &Rule,
    plane: &Plane,
    generation: u32,
    kept: &mut Option<Engine>,
) -> Result<Vec<u8>, ExportFault>
    requires states { HasStatesBelow rule.now.states (map_of plane.now) }
    requires kept { IfSome kept.old (IsRunOf rule.now (states_in_writes (map_of plane.now))) }
    ensures text { IfOk result (λ text. IsExport rule.now (states_in_writes (map_of plane.now)) generation most_cells (Ok text.items)) }
    ensures err { IfErr result (IsExportRefused rule.now (states_in_writes (map_of plane.now)) generation most_cells) }
    ensures full { result ≡ Err ExportFault.StoreFull → IsRoomWanted rule.now plane.now generation usual_room }
    ensures kept { IfSome kept.new (IsRunOf rule.now (states_in_writes (map_of plane.now))) }
{
    if generation > LAST_GENERATION {
        return Err(ExportFault::GenRange);
    }
    match text_on(alloc, rule, plane, generation, kept) {
        Err(ExportFault::StoreFull | ExportFault::Memory) => {
            *kept = None;
            export(alloc, rule, plane, generation)
        }
        answer => answer,
    }
}

/// `export`, where tiles tell it: from the cells on that an earlier one left for the plane, unless the generation is earlier,
/// so that generations one after another cost a step each. None, and nothing is left, where a universe is to be run.
pub fn export_next(
    alloc: Global,
    rule: &Rule,
    plane: &Plane,
    generation: u32,
    kept: &mut Option<Listed>,
) -> Option<Result<Vec<u8>, ExportFault>>
    requires states { HasStatesBelow rule.now.states (map_of plane.now) }
    requires kept { IfSome kept.old (IsListedOf rule.now (states_in_writes (map_of plane.now))) }
    ensures text { IfSome result (λ answer. IfOk answer (λ text. IsExport rule.now (states_in_writes (map_of plane.now)) generation most_cells (Ok text.items))) }
    ensures err { IfSome result (λ answer. IfErr answer (IsExportRefused rule.now (states_in_writes (map_of plane.now)) generation most_cells)) }
    ensures not_full { IfSome result (λ answer. IfErr answer (λ fault. (fault ≡ ExportFault.TooManyCells) ⊎ (fault ≡ ExportFault.Memory))) }
    ensures kept { IfSome kept.new (IsListedOf rule.now (states_in_writes (map_of plane.now))) }
    ensures none { result ≡ None → kept.new ≡ None }
{
    let listed = listed_at(alloc, rule, plane, generation, kept.take())?;
    let answer = text_of(alloc, rule, plane, &listed, MOST_CELLS);
    *kept = Some(listed);
    Some(answer)
}

/// The same without a second try. The universe is kept, unless it finds no room or no memory.
fn text_on(
    alloc: Global,
    rule: &Rule,
    plane: &Plane,
    generation: u32,
    kept: &mut Option<Engine>,
) -> Result<Vec<u8>, ExportFault>
    requires states { HasStatesBelow rule.now.states (map_of plane.now) }
    requires kept { IfSome kept.old (IsRunOf rule.now (states_in_writes (map_of plane.now))) }
    requires generation { generation ≤ 2 ^ 29 }
    ensures text { IfOk result (λ text. IsExport rule.now (states_in_writes (map_of plane.now)) generation most_cells (Ok text.items)) }
    ensures err { IfErr result (IsExportRefused rule.now (states_in_writes (map_of plane.now)) generation most_cells) }
    ensures kept { IfSome kept.new (IsRunOf rule.now (states_in_writes (map_of plane.now))) }
{
    let engine = universe_at(alloc, rule, plane, generation, kept.take())?;
    let cells = cells_of(rule, plane, generation, &engine, MOST_CELLS);
    *kept = Some(engine);
    let text = write(alloc, rule, u64::from(generation), &cells?)?;
    Ok(text)
}

/// A universe of a plane at a generation: the one that is given, where it is not past it, or else a new one,
/// run so far.
pub(crate) fn universe_at(
    alloc: Global,
    rule: &Rule,
    plane: &Plane,
    generation: u32,
    given: Option<Engine>,
) -> Result<Engine, ExportFault>
    requires states { HasStatesBelow rule.now.states (map_of plane.now) }
    requires given { IfSome given (IsRunOf rule.now (states_in_writes (map_of plane.now))) }
    requires generation { generation ≤ 2 ^ 29 }
    ensures run { IfOk result (IsRunOf rule.now (states_in_writes (map_of plane.now))) }
    ensures at { IfOk result (λ engine. engine.generation ≡ generation) }
    ensures err { IfErr result IsWant }
{
    let mut engine = begun(alloc, rule, plane, generation, given)?;
    match engine.run(generation - engine.generation()) {
        Ok(()) => Ok(engine),
        Err(EngineFault::StoreFull) => Err(ExportFault::StoreFull),
        Err(EngineFault::Memory) => Err(ExportFault::Memory),
        Err(EngineFault::GenRange) => unreachable!(),
    }
}

/// The universe that is given, where it is not past a generation, or else a new one.
fn begun(
    alloc: Global,
    rule: &Rule,
    plane: &Plane,
    generation: u32,
    given: Option<Engine>,
) -> Result<Engine, ExportFault>
    requires states { HasStatesBelow rule.now.states (map_of plane.now) }
    requires given { IfSome given (IsRunOf rule.now (states_in_writes (map_of plane.now))) }
    ensures run { IfOk result (IsRunOf rule.now (states_in_writes (map_of plane.now))) }
    ensures before { IfOk result (λ engine. engine.generation ≤ generation) }
    ensures err { IfErr result IsWant }
{
    match given {
        Some(engine) if engine.generation() <= generation => Ok(engine),
        _other => loaded(alloc, rule, plane),
    }
}

/// A new universe with a plane's cells, at generation 0.
fn loaded(alloc: Global, rule: &Rule, plane: &Plane) -> Result<Engine, ExportFault>
    requires { HasStatesBelow rule.now.states (map_of plane.now) }
    ensures run { IfOk result (IsRunOf rule.now (states_in_writes (map_of plane.now))) }
    ensures at { IfOk result (λ engine. engine.generation ≡ 0) }
    ensures err { IfErr result IsWant }
{
    let mut engine = Engine::within(alloc, *rule, Limits::of_key(plane.key()))?;
    engine.load(plane)?;
    Ok(engine)
}
