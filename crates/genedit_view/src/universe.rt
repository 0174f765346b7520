//! The universe that a text tells, some generations later.

ghost use Rattle.std.specs.Prelude.{◌≡◌, ◌⊎◌, ◌^◌, ◌≤◌, IfErr, IfOk, Err, true, false, option_map};
ghost use Rattle.edit_stamps.specs.PlaneMap.{HasStatesBelow};
ghost use Rattle.stamped_tree.specs.Plane.{map_of};
ghost use Rattle.generation_engine.specs.Universe.{states_in_writes};
ghost use Rattle.export.specs.Export.{IsRoomWanted, IsWant};
ghost use Rattle.export.specs.Kept.{IsRunOf};
ghost use Rattle.genedit_io.specs.declared.fault.RunFault.TheVariants.{StoreFull};
ghost use Rattle.genedit_view.specs.declared.fault.ViewFault.TheVariants.{Run};
ghost use Rattle.genedit_view.specs.Fault.{IsViewWant};
ghost use Rattle.genedit_view.specs.Reading.{begins_as_state, bounds_told, generation_told};
ghost use Rattle.genedit_view.specs.Seeing.{IsLateFull, IsLateRefused, IsNotSeen, IsWantAt};
ghost use Rattle.genedit_view.specs.Universes.{IsUniverseOf, universe_view};

use crate::drawn::plane_of;
use crate::fault::ViewFault;
use crate::file::file_cells;
use crate::later::in_range;
use crate::rule::{begins_as_state, state_rule};
use delta_exchange::read;
use export::ExportFault;
use generation_engine::{Engine, EngineFault};
use generations_rule::Rule;
use square_store::{Limits, ROOM};
use stamped_tree::Plane;
use std::alloc::Global;

/// A rule, a universe at a generation of its map, and the generation and the bounds that the text tells; a state
/// tells neither, and has generation 0.
pub struct SeenUniverse {
    pub rule: Rule,
    pub generation: u64,
    pub engine: Engine,
    pub bounds: Option<Vec<u8>>,
}

/// By hand, so that a caller's proof sees one step where it is dropped.
impl Drop for SeenUniverse {
    fn drop(self) {
        let SeenUniverse {
            rule: _,
            generation: _,
            engine: _,
            bounds: _,
        } = self;
    }
}

impl SeenUniverse {
    ghost use Rattle.std.specs.Prelude.{◌≡◌};

    /// The bounds alone.
    pub fn into_bounds(self) -> Option<Vec<u8>>
        ensures { result ≡ self.bounds }
    {
        let SeenUniverse {
            rule: _,
            generation: _,
            engine: _,
            bounds,
        } = self;
        bounds
    }
}

/// The universe of a text so many generations later, under the rule that is given, else under its own. Its cells
/// are not counted, so how many there are does not matter; they lie in the plane of edits.
pub fn see_universe(
    alloc: Global,
    given: Option<Rule>,
    generation: u32,
    text: &[u8],
) -> Result<SeenUniverse, ViewFault>
    ensures seen { IfOk result (λ seen. IsUniverseOf given generation text.now seen.rule seen.engine) }
    ensures generation { IfOk result (λ seen. seen.generation ≡ generation_told text.now) }
    ensures bounds { IfOk result (λ seen. option_map (λ bounds. bounds.items) seen.bounds ≡ bounds_told text.now) }
    ensures fault { IfErr result (λ fault. IsNotSeen (universe_view given generation) text.now fault ⊎ IsWantAt (universe_view given generation) text.now fault) }
{
    if begins_as_state(text) {
        universe_of_state(alloc, given, generation, text)
    } else {
        universe_of_file(alloc, given, generation, text)
    }
}

fn universe_of_file(
    alloc: Global,
    given: Option<Rule>,
    generation: u32,
    text: &[u8],
) -> Result<SeenUniverse, ViewFault>
    requires { begins_as_state text.now ≡ false }
    ensures seen { IfOk result (λ seen. IsUniverseOf given generation text.now seen.rule seen.engine) }
    ensures generation { IfOk result (λ seen. seen.generation ≡ generation_told text.now) }
    ensures bounds { IfOk result (λ seen. option_map (λ bounds. bounds.items) seen.bounds ≡ bounds_told text.now) }
    ensures fault { IfErr result (λ fault. IsNotSeen (universe_view given generation) text.now fault ⊎ IsWantAt (universe_view given generation) text.now fault) }
{
    let seen = file_cells(alloc, given, true, text)?;
    let plane = plane_of(alloc, &seen.rule, &seen.cells)?;
    let engine = universe_later(alloc, &seen.rule, &plane, generation)?;
    Ok(SeenUniverse {
        rule: seen.rule,
        generation: seen.generation,
        engine,
        bounds: seen.bounds,
    })
}

fn universe_of_state(
    alloc: Global,
    given: Option<Rule>,
    generation: u32,
    text: &[u8],
) -> Result<SeenUniverse, ViewFault>
    requires { begins_as_state text.now ≡ true }
    ensures seen { IfOk result (λ seen. IsUniverseOf given generation text.now seen.rule seen.engine) }
    ensures generation { IfOk result (λ seen. seen.generation ≡ generation_told text.now) }
    ensures bounds { IfOk result (λ seen. option_map (λ bounds. bounds.items) seen.bounds ≡ bounds_told text.now) }
    ensures fault { IfErr result (λ fault. IsNotSeen (universe_view given generation) text.now fault ⊎ IsWantAt (universe_view given generation) text.now fault) }
{
    let Some(rule) = state_rule(given, text) else {
        return Err(ViewFault::NoRule);
    };
    let message = read(alloc, &rule, text)?;
    let Some(plane) = message.plane() else {
        unreachable!()
    };
    let engine = universe_later(alloc, &rule, plane, generation)?;
    Ok(SeenUniverse {
        rule,
        generation: 0,
        engine,
        bounds: None,
    })
}

/// A plane's universe so many generations later.
fn universe_later(
    alloc: Global,
    rule: &Rule,
    plane: &Plane,
    generation: u32,
) -> Result<Engine, ViewFault>
    requires { HasStatesBelow rule.now.states (map_of plane.now) }
    ensures run { IfOk result (IsRunOf rule.now (states_in_writes (map_of plane.now))) }
    ensures at { IfOk result (λ engine. engine.generation ≡ generation) }
    ensures fault { IfErr result (λ fault. IsLateRefused rule.now (states_in_writes (map_of plane.now)) generation fault ⊎ IsViewWant fault) }
    ensures full { IfErr result (λ fault. fault ≡ Run StoreFull → IsLateFull rule.now (states_in_writes (map_of plane.now)) generation) }
{
    in_range(generation)?;
    let engine = universe_at(alloc, rule, plane, generation, ROOM)?;
    Ok(engine)
}

/// The same of a generation that is one, with room for so many squares.
fn universe_at(
    alloc: Global,
    rule: &Rule,
    plane: &Plane,
    generation: u32,
    nodes: u32,
) -> Result<Engine, ExportFault>
    requires states { HasStatesBelow rule.now.states (map_of plane.now) }
    requires nodes { 64 ≤ nodes }
    requires generation { generation ≤ 2 ^ 29 }
    ensures run { IfOk result (IsRunOf rule.now (states_in_writes (map_of plane.now))) }
    ensures at { IfOk result (λ engine. engine.generation ≡ generation) }
    ensures err { IfErr result IsWant }
    ensures full { result ≡ Err ExportFault.StoreFull → IsRoomWanted rule.now plane.now generation nodes }
{
    let limits = Limits {
        room: nodes,
        key: plane.key(),
    };
    let mut engine = Engine::within(alloc, *rule, limits)?;
    engine.load(plane)?;
    let run = engine.run(generation);
    // For the proof alone: it tells what the engine is where it became full.
    engine.universe_laws();
    match run {
        Ok(()) => Ok(engine),
        Err(EngineFault::StoreFull) => Err(ExportFault::StoreFull),
        Err(EngineFault::Memory) => Err(ExportFault::Memory),
        Err(EngineFault::GenRange) => unreachable!(),
    }
}
