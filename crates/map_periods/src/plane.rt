//! The generations of a plane.

ghost use Rattle.std.specs.Prelude.{◌≡◌, ◌≤◌, ◌^◌, IfErr, IfOk, IfSome};
ghost use Rattle.std.specs.Option.{ForSome};
ghost use Rattle.generations_rule.specs.Evolution.{at};
ghost use Rattle.generation_engine.specs.Walk.{AreCellsOf};
ghost use Rattle.edit_stamps.specs.PlaneMap.{HasStatesBelow};
ghost use Rattle.stamped_tree.specs.Plane.{map_of};
ghost use Rattle.generation_engine.specs.Universe.{states_in_writes};
ghost use Rattle.export.specs.Export.{IsExportRefused, most_cells};
ghost use Rattle.export.specs.Kept.{IsRunOf};
ghost use Rattle.map_periods.specs.Periods.{IsPeriodOf, IsRefusedWithin};
ghost use Rattle.map_periods.specs.PlanePeriods.{refuses_export};

use crate::generations::Generations;
use crate::period::{Period, period_of};
use export::{ExportFault, LAST_GENERATION, cells_at, cells_of, universe_on};
use generation_engine::Engine;
use generations_rule::Rule;
use pattern_cells::Cell;
use stamped_tree::Plane;
use std::alloc::Global;
use tile_cells::{Means, cells_later};

/// How many cells are told at most, as many as are exported.
const MOST_CELLS: u64 = 0x100_0000;

/// How far tiles are run on at a time from the cells that were told last; past that a universe does it in less.
const MOST_STEPS: u32 = 1024;

/// How many generations tiles are run at a step.
const TILE_STEP: u32 = 16;

/// How many windows may be made for any cells.
const LEAST_WINDOWS: u64 = 0x4000;

/// Cells at a generation.
#[derive(Drop)]
pub(crate) struct Told {
    generation: u32,
    cells: Vec<Cell>,
}

/// The generations of a plane under a rule. What was told last is kept, so that generations one after another cost a step
/// each, and so is the universe by which one was told, so that generations far apart cost the way to the last.
#[derive(Drop)]
pub struct PlaneGenerations<'a> {
    alloc: Global,
    rule: &'a Rule,
    plane: &'a Plane,
    told: Option<Told>,
    kept: Option<Engine>,
    ghost states: { HasStatesBelow rule.now.states (map_of plane.now) },
    ghost right: { ForSome told (λ told. AreCellsOf (at rule.now (states_in_writes (map_of plane.now)) told.generation) told.cells.items) },
    ghost run: { ForSome kept (IsRunOf rule.now (states_in_writes (map_of plane.now))) },
}

impl<'a> PlaneGenerations<'a> {
    ghost use Rattle.std.specs.Prelude.{◌≡◌, None, IfSome};

    /// Nothing was told yet.
    pub fn of(alloc: Global, rule: &'a Rule, plane: &'a Plane) -> PlaneGenerations<'a>
        requires { HasStatesBelow rule.now.states (map_of plane.now) }
        ensures rule { result.rule.now ≡ rule.now }
        ensures plane { result.plane.now ≡ plane.now }
    {
        PlaneGenerations {
            alloc,
            rule,
            plane,
            told: None,
            kept: None,
        }
    }

    /// The cells at a generation, by tiles from what was told last. None where that is none, a later generation or one
    /// far before, where it takes too many windows or memory, or where they are more than are told.
    fn later(&self, generation: u32) -> Option<Vec<Cell>>
        ensures { IfSome result (λ cells. AreCellsOf (at self.now.rule.now (states_in_writes (map_of self.now.plane.now)) generation) cells.items) }
    {
        let told = self.told.as_ref()?;
        // For the proof alone: the call tells that what is held is a rule.
        let _states = self.rule.states();
        let steps = generation.checked_sub(told.generation)?;
        if steps > MOST_STEPS {
            return None;
        }
        let means = Means {
            key: self.plane.key(),
            windows: windows_for(told.cells.len(), steps),
        };
        let Ok(cells) = cells_later(self.alloc, self.rule, &told.cells, steps, means) else {
            return None;
        };
        if cells.len() as u64 > MOST_CELLS {
            return None;
        }
        Some(cells)
    }

    /// The cells at a generation that were found, or that the universe shows which was kept, run on where it is not past it.
    fn made(
        &self,
        generation: u32,
        found: Option<Vec<Cell>>,
        kept: &mut Option<Engine>,
    ) -> Result<Vec<Cell>, ExportFault>
        requires generation { generation ≤ 2 ^ 29 }
        requires found { IfSome found (λ cells. AreCellsOf (at self.now.rule.now (states_in_writes (map_of self.now.plane.now)) generation) cells.items) }
        requires kept { IfSome kept.old (IsRunOf self.now.rule.now (states_in_writes (map_of self.now.plane.now))) }
        ensures cells { IfOk result (λ cells. AreCellsOf (at self.now.rule.now (states_in_writes (map_of self.now.plane.now)) generation) cells.items) }
        ensures err { IfErr result (IsExportRefused self.now.rule.now (states_in_writes (map_of self.now.plane.now)) generation most_cells) }
        ensures kept { IfSome kept.new (IsRunOf self.now.rule.now (states_in_writes (map_of self.now.plane.now))) }
    {
        if let Some(cells) = found {
            return Ok(cells);
        }
        if self.told.is_none() {
            // tiles may tell the first one, from the plane itself
            return cells_at(self.alloc, self.rule, self.plane, generation, MOST_CELLS);
        }
        let engine = universe_on(self.alloc, self.rule, self.plane, generation, kept.take())?;
        let cells = cells_of(self.rule, self.plane, generation, &engine, MOST_CELLS);
        *kept = Some(engine);
        cells
    }
}

/// How many windows may be made for so many cells, of which each can be alone.
fn windows_for(cells: usize, steps: u32) -> u64 {
    let all = (cells as u64).saturating_mul(64);
    let rounds = u64::from(steps.div_ceil(TILE_STEP));
    LEAST_WINDOWS.saturating_add(all.saturating_mul(rounds))
}

impl Generations for PlaneGenerations<'_> {
    ghost use Rattle.edit_stamps.specs.PlaneMap.{HasStatesBelow};
    ghost use Rattle.stamped_tree.specs.Plane.{map_of};
    ghost use Rattle.generation_engine.specs.Universe.{states_in_writes};
    ghost use Rattle.map_periods.specs.PlanePeriods.{refuses_export};

    type Fault = ExportFault;

    ghost rule_of = { λ s. s.rule.now };

    ghost map_of = { λ s. states_in_writes (map_of s.plane.now) };

    ghost refuses = { λ s g fault. refuses_export s.rule.now (states_in_writes (map_of s.plane.now)) g fault };

    fn cells(&mut self, generation: u32) -> Result<Vec<Cell>, ExportFault> {
        if generation > LAST_GENERATION {
            return Err(ExportFault::GenRange);
        }
        let found = self.later(generation);
        let mut kept = self.kept.take();
        let cells = self.made(generation, found, &mut kept)?;
        let copy = cells.clone()?;
        self.kept = kept;
        self.told = Some(Told {
            generation,
            cells: copy,
        });
        Ok(cells)
    }
}

/// The least period from 1 to `most` of what stands on a plane at a generation, if there is one. First of all `GenRange` is
/// answered where the generation is greater than 2^29, and so it is where one is reached that is; then `TooManyCells` where
/// a generation has more than 2^24 cells: each where no period was met before.
pub fn period_in(
    alloc: Global,
    rule: &Rule,
    plane: &Plane,
    first: u32,
    most: u16,
) -> Result<Option<Period>, ExportFault>
    requires { HasStatesBelow rule.now.states (map_of plane.now) }
    ensures period { IfOk result (IsPeriodOf rule.now (states_in_writes (map_of plane.now)) first most) }
    ensures range { IfOk result (λ _. first ≤ 2 ^ 29) }
    ensures refused { IfErr result (IsRefusedWithin rule.now (states_in_writes (map_of plane.now)) (refuses_export rule.now (states_in_writes (map_of plane.now))) first most) }
{
    if first > LAST_GENERATION {
        return Err(ExportFault::GenRange);
    }
    let mut generations = PlaneGenerations::of(alloc, rule, plane);
    period_of(&mut generations, first, most)
}
