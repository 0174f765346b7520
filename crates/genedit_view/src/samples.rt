//! How many cells of each state there are at several generations of what a text tells.

ghost use Rattle.std.specs.Prelude.{◌≡◌, ◌≤◌, ◌^◌, IfErr, IfOk, option_map, true, false};
ghost use Rattle.edit_stamps.specs.PlaneMap.{HasStatesBelow};
ghost use Rattle.stamped_tree.specs.Plane.{map_of};
ghost use Rattle.generation_engine.specs.Universe.{states_in_writes};
ghost use Rattle.command_words.specs.Ranges.{last_of};
ghost use Rattle.map_periods.specs.PlanePeriods.{refuses_export};
ghost use Rattle.genedit_view.specs.Reading.{begins_as_state, bounds_told};
ghost use Rattle.genedit_view.specs.Samples.{AreNotSampled, AreSampledIn, AreSamplesTold, IsNotCharted, IsSampledAt};

use crate::drawn::plane_of;
use crate::fault::ViewFault;
use crate::file::file_cells;
use crate::rule::{begins_as_state, state_rule};
use command_words::GenerationRange;
use delta_exchange::read;
use export::{ExportFault, LAST_GENERATION};
use generations_rule::Rule;
use map_periods::{Generations, PlaneGenerations};
use population_charts::Sample;
use stamped_tree::Plane;
use std::alloc::Global;

/// A rule, the samples of several generations under it, and the bounds that the text tells, which are passed over: cells
/// live on the whole plane.
#[derive(Drop)]
pub struct ToldSamples {
    pub rule: Rule,
    pub samples: Vec<Sample>,
    pub bounds: Option<Vec<u8>>,
}

/// How many cells of each state there are at each generation of a range, of what a text tells; under the rule that is given,
/// else under the text's own. Cells lie in the plane of edits.
///
/// Of several faults the first of these is told: what `see_universe` says of the text; a last generation that is none; a
/// generation with more than 2^24 cells.
pub fn find_samples(
    alloc: Global,
    given: Option<Rule>,
    range: GenerationRange,
    text: &[u8],
) -> Result<ToldSamples, ViewFault>
    ensures samples { IfOk result (λ told. AreSamplesTold given range text.now told.rule told.samples.items) }
    ensures bounds { IfOk result (λ told. option_map (λ bounds. bounds.items) told.bounds ≡ bounds_told text.now) }
    ensures fault { IfErr result (IsNotCharted given range text.now) }
{
    if begins_as_state(text) {
        samples_of_state(alloc, given, range, text)
    } else {
        samples_of_file(alloc, given, range, text)
    }
}

fn samples_of_file(
    alloc: Global,
    given: Option<Rule>,
    range: GenerationRange,
    text: &[u8],
) -> Result<ToldSamples, ViewFault>
    requires { begins_as_state text.now ≡ false }
    ensures samples { IfOk result (λ told. AreSamplesTold given range text.now told.rule told.samples.items) }
    ensures bounds { IfOk result (λ told. option_map (λ bounds. bounds.items) told.bounds ≡ bounds_told text.now) }
    ensures fault { IfErr result (IsNotCharted given range text.now) }
{
    let seen = file_cells(alloc, given, true, text)?;
    let plane = plane_of(alloc, &seen.rule, &seen.cells)?;
    let samples = samples_in(alloc, &seen.rule, &plane, range)?;
    Ok(ToldSamples {
        rule: seen.rule,
        samples,
        bounds: seen.bounds,
    })
}

fn samples_of_state(
    alloc: Global,
    given: Option<Rule>,
    range: GenerationRange,
    text: &[u8],
) -> Result<ToldSamples, ViewFault>
    requires { begins_as_state text.now ≡ true }
    ensures samples { IfOk result (λ told. AreSamplesTold given range text.now told.rule told.samples.items) }
    ensures bounds { IfOk result (λ told. option_map (λ bounds. bounds.items) told.bounds ≡ bounds_told text.now) }
    ensures fault { IfErr result (IsNotCharted given range text.now) }
{
    let Some(rule) = state_rule(given, text) else {
        return Err(ViewFault::NoRule);
    };
    let message = read(alloc, &rule, text)?;
    let Some(plane) = message.plane() else {
        unreachable!()
    };
    let samples = samples_in(alloc, &rule, plane, range)?;
    Ok(ToldSamples {
        rule,
        samples,
        bounds: None,
    })
}

/// The samples of a range of a plane's generations, each made from the last. First of all `GenRange` is answered where the
/// last of them is greater than 2^29, then `TooManyCells` where one has more than 2^24 cells.
fn samples_in(
    alloc: Global,
    rule: &Rule,
    plane: &Plane,
    range: GenerationRange,
) -> Result<Vec<Sample>, ExportFault>
    requires { HasStatesBelow rule.now.states (map_of plane.now) }
    ensures samples { IfOk result (λ samples. AreSampledIn rule.now (states_in_writes (map_of plane.now)) range samples.items) }
    ensures range { IfOk result (λ _. last_of range ≤ 2 ^ 29) }
    ensures refused { IfErr result (AreNotSampled rule.now (states_in_writes (map_of plane.now)) range) }
{
    if range.last_generation() > LAST_GENERATION {
        return Err(ExportFault::GenRange);
    }
    let states = rule.states();
    let mut generations = PlaneGenerations::of(alloc, rule, plane);
    let mut samples = Vec::new(alloc);
    for steps in 0..u64::from(range.steps()) + 1 {
        let sample = sample_at(alloc, states, &mut generations, range.at(steps as u32))?;
        if samples.push(sample).is_err() {
            return Err(ExportFault::Memory);
        }
    }
    Ok(samples)
}

/// The sample of a generation.
fn sample_at(
    alloc: Global,
    states: u16,
    generations: &mut PlaneGenerations,
    generation: u32,
) -> Result<Sample, ExportFault>
    requires states { states ≡ generations.old.rule.now.states }
    requires generation { generation ≤ 2 ^ 29 }
    ensures sample { IfOk result (IsSampledAt generations.old.rule.now (states_in_writes (map_of generations.old.plane.now)) generation) }
    ensures refused { IfErr result (refuses_export generations.old.rule.now (states_in_writes (map_of generations.old.plane.now)) generation) }
    ensures rule { generations.new.rule.now ≡ generations.old.rule.now }
    ensures map { states_in_writes (map_of generations.new.plane.now) ≡ states_in_writes (map_of generations.old.plane.now) }
{
    let cells = generations.cells(generation)?;
    let sample = Sample::of_cells(alloc, states, u64::from(generation), &cells)?;
    Ok(sample)
}
