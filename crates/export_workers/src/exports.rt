//! Many exports.

ghost use Rattle.std.specs.Prelude.{◌≡◌, ℕ, ◌<◌, ◌≤◌, length, IfOk, slice_index_or, vec_len};
ghost use Rattle.edit_stamps.specs.PlaneMap.{HasStatesBelow};
ghost use Rattle.stamped_tree.specs.Plane.{map_of};
ghost use Rattle.generation_engine.specs.Universe.{states_in_writes};
ghost use Rattle.export_workers.specs.Exports.{AreExportAnswers, AreOfWorker, IsJobAnswer};

use crate::gate::Gate;
use crate::order::in_order;
use crate::share::Share;
use crate::work::{ExportList, work};
use generations_rule::Rule;
use stamped_tree::Plane;
use std::alloc::{AllocError, Global};
use std::thread;
use std::thread::Threads;

/// The most workers that there are.
const MOST_WORKERS: u16 = 16;

/// The export of a plane at each of these generations, in their order, by so many workers: 1 to 16, and
/// the nearer end for any other number. Of w workers the i-th, counted from 0, does the jobs i, i + w and
/// so on, and passes the gate before each. Each has a thread of its own where one can be started; else
/// its jobs are the caller's.
pub fn export_many<G: Gate + Sync, R: Threads + Sync>(
    rt: &R,
    alloc: Global,
    rule: &Rule,
    plane: &Plane,
    generations: &[u32],
    workers: u16,
    gate: &G,
) -> Result<ExportList, AllocError>
    requires { HasStatesBelow rule.now.states (map_of plane.now) }
    ensures { IfOk result (AreExportAnswers rule.now plane.now generations.now) }
{
    let step = usize::from(workers.clamp(1, MOST_WORKERS));
    let shares = share_all(rt, alloc, rule, plane, generations, step, gate)?;
    in_order(alloc, rule, plane, generations, shares)
}

/// What each of so many workers answered, in their order.
fn share_all<G: Gate + Sync, R: Threads + Sync>(
    rt: &R,
    alloc: Global,
    rule: &Rule,
    plane: &Plane,
    generations: &[u32],
    step: usize,
    gate: &G,
) -> Result<Vec<Result<Share, AllocError>>, AllocError>
    requires states { HasStatesBelow rule.now.states (map_of plane.now) }
    requires least { 1 ≤ step }
    requires most { step ≤ 16 }
    ensures len { IfOk result (λ shares. vec_len shares ≡ step) }
    ensures each { IfOk result (λ shares. (i : ℕ) (d : _) → i < length shares.items → IfOk (slice_index_or shares.items i d) (λ answers. AreOfWorker (IsJobAnswer rule.now plane.now generations.now) (length generations.now) step i answers)) }
{
    let one = |worker: usize| -> Result<Share, AllocError>
        requires { (HasStatesBelow rule.now.states (map_of plane.now)) × (1 ≤ step) × (step ≤ 16) × (worker ≤ 16) }
        ensures { IfOk result (λ answers. AreOfWorker (IsJobAnswer rule.entry.now plane.entry.now generations.entry.now) (length generations.entry.now) step worker answers) }
    { work(alloc, rule, plane, generations, worker, step, gate) };
    thread::map_indices(rt, alloc, step, &one)
}
