//! Many exports of one plane, beside the export of each generation.

ghost use Rattle.edit_stamps.specs.PlaneMap.{HasStatesBelow};
ghost use Rattle.stamped_tree.specs.Plane.{map_of};

use crate::hubs::row_of;
use export::{ExportFault, export};
use export_workers::{Export, Free, Gate, export_many};
use generations_rule::Rule;
use stamped_tree::Plane;
use std::alloc::{AllocError, Global};
use std::sync::atomic::{AtomicU64, Ordering};
use std::test::Fail;
use std::thread;
use std::thread::Threads;

/// Generations in no order, four of them past the last, which is 2^29.
static GENERATIONS: [u32; 40] = [
    3,
    0,
    3,
    12,
    1,
    536_870_913,
    7,
    2,
    40,
    0,
    5,
    5,
    4,
    4_294_967_295,
    9,
    33,
    8,
    1,
    21,
    0,
    60,
    6,
    3,
    536_870_914,
    2,
    30,
    11,
    10,
    50,
    13,
    1,
    17,
    16,
    536_870_913,
    24,
    19,
    0,
    45,
    22,
    5,
];

type Answer = Result<Vec<u8>, ExportFault>;

/// The export of each generation.
fn exported(
    alloc: Global,
    rule: &Rule,
    plane: &Plane,
    generations: &[u32],
) -> Result<Vec<Answer>, AllocError>
    requires { HasStatesBelow rule.now.states (map_of plane.now) }
{
    let mut answers = Vec::new(alloc);
    for generation in generations {
        answers.push(export(alloc, rule, plane, *generation))?;
    }
    Ok(answers)
}

fn is_same(answer: &Export, expected: &Answer) -> bool {
    match (answer, expected) {
        (Ok(text), Ok(bytes)) => text.as_slice() == bytes.as_slice(),
        (Err(fault), Err(other)) => *fault == *other,
        _ => false,
    }
}

fn are_same(answers: &[Export], expected: &[Answer]) -> bool {
    if answers.len() != expected.len() {
        return false;
    }
    for (answer, expected) in answers.iter().zip(expected) {
        if !is_same(answer, expected) {
            return false;
        }
    }
    true
}

/// Whether so many workers answer what the exports do, behind a gate.
fn agree<G: Gate + Sync, R: Threads + Sync>(
    rt: &R,
    alloc: Global,
    generations: &[u32],
    workers: u16,
    gate: &G,
) -> Result<bool, Fail> {
    let rule = Rule::parse(b"/2/3")?;
    let plane = row_of(alloc, &rule, 2)?;
    let expected = exported(alloc, &rule, &plane, generations)?;
    let answers = export_many(rt, alloc, &rule, &plane, generations, workers, gate)?;
    Ok(are_same(answers.as_slice(), &expected))
}

/// Numbers of generations that workers share.
static COUNTS: [usize; 4] = [0, 1, 5, 17];

/// Of how many of these lists so many workers answer what the exports do.
fn agreed<R: Threads + Sync>(rt: &R, alloc: Global, workers: u16) -> Result<usize, Fail> {
    let mut agreed = 0_usize;
    for count in COUNTS {
        if agree(rt, alloc, &GENERATIONS[..count.min(40)], workers, &Free)? {
            agreed = agreed.saturating_add(1);
        }
    }
    Ok(agreed)
}

#[test]
fn workers_make_no_difference(rt: HostRuntime) -> Result<(), Fail> {
    for workers in [0, 1, 2, 16, 17] {
        assert_eq!(rt; agreed(&rt, rt.alloc(), workers)?, 4, "{workers} workers");
    }
    Ok(())
}

/// How often a held worker looks whether it may go on.
const LOOKS: u32 = 1_000_000;

/// Holds job 0 until job 1 has passed, for a while.
#[derive(Drop)]
struct Holding {
    passed: AtomicU64,
    met: AtomicU64,
}

impl Holding {
    fn new() -> Holding {
        Holding {
            passed: AtomicU64::new(0),
            met: AtomicU64::new(0),
        }
    }

    fn hold(&self) {
        for _ in 0..LOOKS {
            if self.passed.load(Ordering::SeqCst) > 0 {
                self.met.store(1, Ordering::SeqCst);
                return;
            }
            thread::yield_now();
        }
    }
}

impl Gate for Holding {
    fn pass(&self, job: usize) {
        match job {
            0 => self.hold(),
            1 => self.passed.store(1, Ordering::SeqCst),
            _ => {}
        }
    }
}

/// Whether three exports by so many workers are as they must be, and whether job 1 passed while job 0 was
/// held.
fn held<R: Threads + Sync>(rt: &R, alloc: Global, workers: u16) -> Result<(bool, bool), Fail> {
    let gate = Holding::new();
    let agree = agree(rt, alloc, &[3, 0, 3], workers, &gate)?;
    Ok((agree, gate.met.load(Ordering::SeqCst) == 1))
}

#[test]
fn two_workers_run_side_by_side(rt: HostRuntime) -> Result<(), Fail> {
    assert_eq!(rt; held(&rt, rt.alloc(), 2)?, (true, true));
    assert_eq!(rt; held(&rt, rt.alloc(), 1)?, (true, false));
    Ok(())
}

/// Counts how often each job passes.
#[derive(Drop)]
struct Counting {
    passes: Vec<AtomicU64>,
}

impl Counting {
    fn new(alloc: Global, jobs: usize) -> Result<Counting, AllocError> {
        let mut passes = Vec::new(alloc);
        for _ in 0..jobs {
            passes.push(AtomicU64::new(0))?;
        }
        Ok(Counting { passes })
    }

    /// How many jobs passed once.
    fn once(&self) -> usize {
        let mut once = 0_usize;
        for passes in &self.passes {
            if passes.load(Ordering::SeqCst) == 1 {
                once = once.saturating_add(1);
            }
        }
        once
    }
}

impl Gate for Counting {
    fn pass(&self, job: usize) {
        if let Some(passes) = self.passes.get(job) {
            passes.fetch_add(1, Ordering::SeqCst);
        }
    }
}

/// How many of 40 jobs pass just once.
fn passed<R: Threads + Sync>(rt: &R, alloc: Global, workers: u16) -> Result<usize, Fail> {
    let gate = Counting::new(alloc, GENERATIONS.len())?;
    let _agree = agree(rt, alloc, &GENERATIONS, workers, &gate)?;
    Ok(gate.once())
}

#[test]
fn each_job_passes_the_gate_once(rt: HostRuntime) -> Result<(), Fail> {
    for workers in [2, 17] {
        assert_eq!(rt; passed(&rt, rt.alloc(), workers)?, 40, "{workers} workers");
    }
    Ok(())
}
