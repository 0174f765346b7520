//! The texts of a film, each made from what the one before left.

ghost use Rattle.std.specs.Prelude.{◌≡◌, ◌≤◌, ◌^◌, ℕ, IfErr, IfOk, IfSome, None, Ok, option_map};
ghost use Rattle.generations_rule.specs.Evolution.{at};
ghost use Rattle.generations_rule.specs.Place.{Place};
ghost use Rattle.generations_rule.specs.Rule.{GenerationsRule};
ghost use Rattle.edit_stamps.specs.PlaneMap.{HasStatesBelow};
ghost use Rattle.square_store.specs.Limits.{usual_room};
ghost use Rattle.stamped_tree.specs.Plane.{map_of};
ghost use Rattle.generation_engine.specs.Universe.{states_in_writes};
ghost use Rattle.export.specs.Export.{IsExport, IsExportRefused, IsRoomWanted, IsWant, most_cells};
ghost use Rattle.export.specs.Kept.{IsListedOf, IsRunOf};
ghost use Rattle.macrocell_lines.specs.Macrocell.{IsMacrocell};
ghost use Rattle.told_generations.specs.FilmTexts.{IsFilmAnswer};

use crate::film_form::FilmForm;
use export::{ExportFault, Listed, engine_at, export_next, export_on};
use generation_engine::Engine;
use generations_rule::Rule;
use macrocell_lines::write_macrocell;
use replica_core::{Replica, Stop};
use square_store::ROOM;
use stamped_tree::Plane;
use std::alloc::Global;

/// What the text of a generation leaves for a later one: its cells, while tiles tell them, and then a universe.
#[derive(Drop)]
pub(crate) struct Reel {
    listed: Option<Listed>,
    universe: Option<Engine>,
}

impl Reel {
    ghost use Rattle.std.specs.Prelude.{◌≡◌, None};

    /// Nothing is left yet.
    pub(crate) fn new() -> Reel
        ensures listed { result.listed ≡ None }
        ensures universe { result.universe ≡ None }
    {
        Reel {
            listed: None,
            universe: None,
        }
    }
}

/// What a replica holds at a generation, as a text; none where that has more cells than the text may have.
pub(crate) fn text_at(
    alloc: Global,
    replica: &Replica,
    form: FilmForm,
    generation: u32,
    reel: &mut Reel,
) -> Result<Option<Vec<u8>>, Stop>
    requires generation { generation ≤ 2 ^ 29 }
    requires listed { IfSome reel.old.listed (IsListedOf replica.now.rule (states_in_writes (map_of replica.now.plane))) }
    requires universe { IfSome reel.old.universe (IsRunOf replica.now.rule (states_in_writes (map_of replica.now.plane))) }
    ensures text { IfOk result (λ text. IsFilmAnswer form replica.now.rule (states_in_writes (map_of replica.now.plane)) generation (option_map (λ t. t.items) text)) }
    ensures full { result ≡ Err Stop.StoreFull → IsRoomWanted replica.now.rule replica.now.plane generation usual_room }
    ensures listed { IfSome reel.new.listed (IsListedOf replica.now.rule (states_in_writes (map_of replica.now.plane))) }
    ensures universe { IfSome reel.new.universe (IsRunOf replica.now.rule (states_in_writes (map_of replica.now.plane))) }
{
    let made = match form {
        FilmForm::Rle => rle_at(alloc, &replica.rule(), replica.plane(), generation, reel),
        FilmForm::Macrocell => {
            macrocell_at(alloc, &replica.rule(), replica.plane(), generation, reel)
        }
    };
    match made {
        Ok(text) => Ok(Some(text)),
        Err(ExportFault::TooManyCells) => Ok(None),
        Err(ExportFault::StoreFull) => Err(Stop::StoreFull),
        Err(ExportFault::Memory) => Err(Stop::Memory),
        Err(ExportFault::GenRange) => unreachable!(),
    }
}

/// What a plane shows at a generation, as an RLE text: by tiles, while they tell it, and then by a universe.
fn rle_at(
    alloc: Global,
    rule: &Rule,
    plane: &Plane,
    generation: u32,
    reel: &mut Reel,
) -> Result<Vec<u8>, ExportFault>
    requires states { HasStatesBelow rule.now.states (map_of plane.now) }
    requires listed { IfSome reel.old.listed (IsListedOf rule.now (states_in_writes (map_of plane.now))) }
    requires universe { IfSome reel.old.universe (IsRunOf rule.now (states_in_writes (map_of plane.now))) }
    ensures text { IfOk result (λ text. IsExport rule.now (states_in_writes (map_of plane.now)) generation most_cells (Ok text.items)) }
    ensures err { IfErr result (IsExportRefused rule.now (states_in_writes (map_of plane.now)) generation most_cells) }
    ensures full { result ≡ Err ExportFault.StoreFull → IsRoomWanted rule.now plane.now generation usual_room }
    ensures listed { IfSome reel.new.listed (IsListedOf rule.now (states_in_writes (map_of plane.now))) }
    ensures universe { IfSome reel.new.universe (IsRunOf rule.now (states_in_writes (map_of plane.now))) }
{
    if reel.universe.is_none()
        && let Some(answer) = export_next(alloc, rule, plane, generation, &mut reel.listed)
    {
        return answer;
    }
    export_on(alloc, rule, plane, generation, &mut reel.universe)
}

/// What a plane shows at a generation, as a macrocell.
fn macrocell_at(
    alloc: Global,
    rule: &Rule,
    plane: &Plane,
    generation: u32,
    reel: &mut Reel,
) -> Result<Vec<u8>, ExportFault>
    requires states { HasStatesBelow rule.now.states (map_of plane.now) }
    requires universe { IfSome reel.old.universe (IsRunOf rule.now (states_in_writes (map_of plane.now))) }
    requires generation { generation ≤ 2 ^ 29 }
    ensures text { IfOk result (λ text. IsMacrocell rule.now generation (at rule.now (states_in_writes (map_of plane.now)) generation) text.items) }
    ensures err { IfErr result IsWant }
    ensures full { result ≡ Err ExportFault.StoreFull → IsRoomWanted rule.now plane.now generation usual_room }
    ensures listed { reel.new.listed ≡ reel.old.listed }
    ensures universe { IfSome reel.new.universe (IsRunOf rule.now (states_in_writes (map_of plane.now))) }
{
    let universe = universe_at(alloc, rule, plane, generation, reel.universe.take())?;
    let text = write_macrocell(alloc, rule, u64::from(generation), &universe);
    reel.universe = Some(universe);
    Ok(text?)
}

/// A universe of a plane at a generation: the one that is given, run on, or else a new one.
fn universe_at(
    alloc: Global,
    rule: &Rule,
    plane: &Plane,
    generation: u32,
    given: Option<Engine>,
) -> Result<Engine, ExportFault>
    requires states { HasStatesBelow rule.now.states (map_of plane.now) }
    requires given { IfSome given (IsRunOf rule.now (states_in_writes (map_of plane.now))) }
    requires generation { generation ≤ 2 ^ 29 }
    ensures run { IfOk result (IsRunOf rule.now (states_in_writes (map_of plane.now))) }
    ensures at { IfOk result (λ universe. universe.generation ≡ generation) }
    ensures err { IfErr result IsWant }
    ensures full { result ≡ Err ExportFault.StoreFull → IsRoomWanted rule.now plane.now generation usual_room }
{
    match run_on(generation, given) {
        Some(universe) => Ok(universe),
        None => engine_at(alloc, rule, plane, generation, ROOM),
    }
}

/// A universe that is run to a generation; none where it is past it, or finds no room or no memory on the way.
fn run_on(generation: u32, given: Option<Engine>) -> Option<Engine>
    ensures run { (r : GenerationsRule) (f : Place → ℕ) → IfSome given (IsRunOf r f) → IfSome result (IsRunOf r f) }
    ensures at { IfSome result (λ universe. universe.generation ≡ generation) }
{
    let mut universe = given?;
    let steps = generation.checked_sub(universe.generation())?;
    match universe.run(steps) {
        Ok(()) => Some(universe),
        Err(_) => None,
    }
}
