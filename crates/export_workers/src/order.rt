//! The answers of all workers, in the order of their jobs.

ghost use Rattle.std.specs.Prelude.{◌≡◌, ◌<◌, ◌≤◌, ◌+◌, length, IfOk, vec_len};
ghost use Rattle.stamped_tree.specs.Plane.{map_of};
ghost use Rattle.generation_engine.specs.Universe.{states_in_writes};
ghost use Rattle.export_workers.specs.Exports.{AreExportAnswers, AreQueued, AreQueuedOks, IsJobAnswer};

use crate::share::Share;
use crate::work::ExportList;
use generations_rule::Rule;
use stamped_tree::Plane;
use std::alloc::{AllocError, Global};
use std::collections::VecDeque;

/// The answers in order, taken from the workers in turn. The rule and the plane are named in the
/// contract alone.
pub fn in_order(
    alloc: Global,
    rule: &Rule,
    plane: &Plane,
    generations: &[u32],
    shares: Vec<Result<Share, AllocError>>,
) -> Result<ExportList, AllocError>
    requires some { 1 ≤ vec_len shares }
    requires shares { AreQueuedOks (IsJobAnswer rule.now plane.now generations.now) (length generations.now) (vec_len shares) 0 shares.items }
    ensures { IfOk result (AreExportAnswers rule.now plane.now generations.now) }
{
    let mut queue = queued(alloc, rule, plane, generations, shares)?;
    let mut answers = Vec::with_capacity(alloc, generations.len())?;
    for _job in 0..generations.len() {
        let Some(mut share) = queue.pop_front() else {
            unreachable!()
        };
        let Some(answer) = share.take() else {
            unreachable!()
        };
        answers.push(answer)?;
        queue.push_back(share)?;
    }
    Ok(ExportList::of_vec(answers))
}

/// The workers' lists, in their order.
fn queued(
    alloc: Global,
    rule: &Rule,
    plane: &Plane,
    generations: &[u32],
    shares: Vec<Result<Share, AllocError>>,
) -> Result<VecDeque<Share>, AllocError>
    requires { AreQueuedOks (IsJobAnswer rule.now plane.now generations.now) (length generations.now) (vec_len shares) 0 shares.items }
    ensures queue { IfOk result (λ queue. AreQueued (IsJobAnswer rule.now plane.now generations.now) (length generations.now) (vec_len shares) 0 queue.items) }
    ensures len { IfOk result (λ queue. length queue.items ≡ vec_len shares) }
{
    let mut queue = VecDeque::new(alloc);
    for share in shares {
        queue.push_back(share?)?;
    }
    Ok(queue)
}
