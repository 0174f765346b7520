//! One worker.

ghost use Rattle.std.specs.Prelude.{◌≡◌, ◌≤◌, ◌⊎◌, None, Ok, length, IfErr, IfOk, IfSome};
ghost use Rattle.export.specs.Export.{IsExport, IsExportRefused, most_cells};
ghost use Rattle.export.specs.Kept.{IsListedOf, IsRunOf};
ghost use Rattle.edit_stamps.specs.PlaneMap.{HasStatesBelow};
ghost use Rattle.stamped_tree.specs.Plane.{map_of};
ghost use Rattle.generation_engine.specs.Universe.{states_in_writes};
ghost use Rattle.export_workers.specs.Exports.{AreOfWorker, IsExportAnswer, IsJobAnswer};

use crate::gate::Gate;
use crate::share::Share;
use export::{ExportFault, Listed, export, export_next, export_on};
use generation_engine::Engine;
use generations_rule::Rule;
use lists::ListOf;
use stamped_tree::Plane;
use std::alloc::{AllocError, Global};

/// The bytes of a text.
pub type Text = ListOf<u8>;

/// A text, or why there is none.
pub type Export = Result<Text, ExportFault>;

/// Answers in the order of what was asked.
pub type ExportList = ListOf<Export>;

/// What a worker keeps from one job to the next.
#[derive(Drop)]
struct Kept {
    /// The cells of its last job's generation, from which tiles go on.
    listed: Option<Listed>,
    /// The universe that it runs where tiles tell nothing.
    universe: Option<Engine>,
    /// Whether tiles told each generation so far. They are not tried again once they did not.
    tries_tiles: bool,
}

impl Kept {
    fn new() -> Kept
        ensures listed { result.listed ≡ None }
        ensures universe { result.universe ≡ None }
    {
        Kept {
            listed: None,
            universe: None,
            tries_tiles: true,
        }
    }
}

/// The answers of a worker, which does the jobs `first`, `first + step` and so on, each from where the one before it ended.
pub fn work<G: Gate>(
    alloc: Global,
    rule: &Rule,
    plane: &Plane,
    generations: &[u32],
    first: usize,
    step: usize,
    gate: &G,
) -> Result<Share, AllocError>
    requires states { HasStatesBelow rule.now.states (map_of plane.now) }
    requires first { first ≤ 16 }
    requires least { 1 ≤ step }
    requires most { step ≤ 16 }
    ensures { IfOk result (λ answers. AreOfWorker (IsJobAnswer rule.now plane.now generations.now) (length generations.now) step first answers) }
{
    let mut answers = Share::new(alloc);
    let mut kept = Kept::new();
    let mut job = first;
    while job < generations.len() {
        gate.pass(job);
        answers.add(answer(alloc, rule, plane, generations[job], &mut kept))?;
        job += step;
    }
    Ok(answers)
}

/// An export by tiles, or else by the universe that is kept, if there is one. Where tiles tell it and its text finds no
/// memory, what is kept is given back, and what is answered is what `export` answers.
fn answer(alloc: Global, rule: &Rule, plane: &Plane, generation: u32, kept: &mut Kept) -> Export
    requires states { HasStatesBelow rule.now.states (map_of plane.now) }
    requires listed { IfSome kept.old.listed (IsListedOf rule.now (states_in_writes (map_of plane.now))) }
    requires universe { IfSome kept.old.universe (IsRunOf rule.now (states_in_writes (map_of plane.now))) }
    ensures answer { IsExportAnswer rule.now plane.now generation result }
    ensures listed { IfSome kept.new.listed (IsListedOf rule.now (states_in_writes (map_of plane.now))) }
    ensures universe { IfSome kept.new.universe (IsRunOf rule.now (states_in_writes (map_of plane.now))) }
{
    let answer = match answer_by_tiles(alloc, rule, plane, generation, kept) {
        Some(Err(ExportFault::Memory)) => {
            *kept = Kept::new();
            export(alloc, rule, plane, generation)
        }
        Some(answer) => answer,
        None => export_on(alloc, rule, plane, generation, &mut kept.universe),
    };
    match answer {
        Ok(text) => Ok(Text::of_vec(text)),
        Err(fault) => Err(fault),
    }
}

/// An export by tiles, where they told each generation so far and tell this one.
fn answer_by_tiles(
    alloc: Global,
    rule: &Rule,
    plane: &Plane,
    generation: u32,
    kept: &mut Kept,
) -> Option<Result<Vec<u8>, ExportFault>>
    requires states { HasStatesBelow rule.now.states (map_of plane.now) }
    requires listed { IfSome kept.old.listed (IsListedOf rule.now (states_in_writes (map_of plane.now))) }
    ensures text { IfSome result (λ answer. IfOk answer (λ text. IsExport rule.now (states_in_writes (map_of plane.now)) generation most_cells (Ok text.items))) }
    ensures err { IfSome result (λ answer. IfErr answer (IsExportRefused rule.now (states_in_writes (map_of plane.now)) generation most_cells)) }
    ensures not_full { IfSome result (λ answer. IfErr answer (λ fault. (fault ≡ ExportFault.TooManyCells) ⊎ (fault ≡ ExportFault.Memory))) }
    ensures listed { IfSome kept.new.listed (IsListedOf rule.now (states_in_writes (map_of plane.now))) }
    ensures universe { kept.new.universe ≡ kept.old.universe }
{
    if !kept.tries_tiles {
        return None;
    }
    let answer = export_next(alloc, rule, plane, generation, &mut kept.listed);
    kept.tries_tiles = answer.is_some();
    answer
}
