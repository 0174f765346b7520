//! Crashes at each moment of a log's life, which forget by chance what was not synced.

use crate::bodies::{are_first, begin, commit, listed, opened, part, ten};
use kept_devices::{Chance, MemoryKeep, Moment};
use kept_log::{FindFault, LogFault};
use std::alloc::{AllocError, Global};
use std::test::Fail;

/// How many bodies each commit has.
static GROUPS: [usize; 5] = [1, 2, 3, 1, 2];

/// How many bodies were told as kept once so many moments had passed.
#[derive(Clone, Copy, Debug, PartialEq, Eq)]
pub struct Told {
    pub moments: usize,
    pub bodies: usize,
}

/// What a log came to: its file, what was told, and how it ended.
#[derive(Drop)]
pub struct Life {
    pub keep: MemoryKeep,
    pub told: Vec<Told>,
    pub fault: Option<LogFault>,
}

impl Life {
    /// How many bodies were told as kept by a moment.
    pub fn told_by(&self, moment: usize) -> usize {
        let mut most = 0;
        for told in &self.told {
            if told.moments <= moment {
                most = told.bodies.max(most);
            }
        }
        most
    }

    /// How many were told in the end.
    pub fn told(&self) -> usize {
        self.told_by(usize::MAX)
    }

    /// How many moments passed, the last among them.
    pub fn moments(&self) -> usize {
        self.keep.past().len().saturating_add(1)
    }
}

/// Begins a log in a file, and commits ten bodies in groups, until the file fails.
pub fn live(alloc: Global, keep: MemoryKeep, bodies: &[Vec<u8>]) -> Result<Life, FindFault> {
    let mut told = Vec::new(alloc);
    let mut log = opened(alloc, keep)?.log;
    let mut fault = begin(alloc, &mut log).err();
    let mut count = 1usize;
    for group in &GROUPS {
        if fault.is_some() {
            break;
        }
        let moments = log.keep.past().len();
        told.push(Told {
            moments,
            bodies: count,
        })
        .or(Err(FindFault::Memory))?;
        let end = count.saturating_add(*group);
        fault = commit(alloc, &mut log, part(bodies, count, end)).err();
        count = end;
    }
    if fault.is_none() {
        let moments = log.keep.past().len();
        told.push(Told {
            moments,
            bodies: count,
        })
        .or(Err(FindFault::Memory))?;
    }
    Ok(Life {
        keep: log.keep,
        told,
        fault,
    })
}

/// What is read of a file that a crash left at a moment.
pub fn crashed(alloc: Global, moment: &Moment, seed: u64) -> Result<Vec<Vec<u8>>, FindFault> {
    let mut chance = Chance::new(seed);
    let left = moment.after_crash(alloc, &mut chance)?;
    let reopened = opened(alloc, MemoryKeep::new(alloc, &left)?)?;
    Ok(listed(alloc, &reopened.head, &reopened.bodies)?)
}

/// How a file stood at a moment; behind the last, as it stands.
pub fn moment_of(keep: &MemoryKeep, number: usize) -> &Moment {
    match keep.past().get(number) {
        Some(moment) => moment,
        None => keep.now(),
    }
}

/// What crashes came to: how many left anything else than the first bodies, or fewer than were told, and how
/// many left more.
#[derive(Clone, Copy, Debug, PartialEq, Eq)]
pub struct Crashes {
    pub wrong: u64,
    pub more: u64,
}

/// Has a crash come at each moment of a life, once for each seed.
pub fn crash_all(
    alloc: Global,
    life: &Life,
    bodies: &[Vec<u8>],
    seeds: u64,
) -> Result<Crashes, FindFault> {
    let mut wrong = 0u64;
    let mut more = 0u64;
    for moment in 0..life.moments() {
        let told = life.told_by(moment);
        for seed in 0..seeds {
            let got = crashed(alloc, moment_of(&life.keep, moment), seed)?;
            if got.len() < told || !are_first(&got, bodies) {
                wrong = wrong.saturating_add(1);
            }
            if got.len() > told {
                more = more.saturating_add(1);
            }
        }
    }
    Ok(Crashes { wrong, more })
}

/// A file of no byte that fails at one call, or at that and the next.
pub fn failing(alloc: Global, call: u64, count: u64) -> Result<MemoryKeep, AllocError> {
    let mut calls = Vec::new(alloc);
    for next in 0..count {
        calls.push(call.saturating_add(next))?;
    }
    Ok(MemoryKeep::new(alloc, b"")?.failing_at(calls))
}

#[test]
fn at_each_moment(rt: HostRuntime) -> Result<(), Fail> {
    let alloc = rt.alloc();
    let bodies = ten(alloc)?;
    let life = live(alloc, MemoryKeep::new(alloc, b"")?, &bodies)?;
    assert_eq!(rt; life.fault, None);
    assert_eq!(rt; life.told(), 10);
    let crashes = crash_all(alloc, &life, &bodies, 100)?;
    assert_eq!(rt; crashes.wrong, 0);
    // of 1,400 crashes some keep what was not synced, and some forget it
    assert!(rt; crashes.more > 50 && crashes.more < 650, "{}", crashes.more);
    Ok(())
}

#[test]
fn where_each_call_from_one_on_fails(rt: HostRuntime) -> Result<(), Fail> {
    let alloc = rt.alloc();
    let bodies = ten(alloc)?;
    // a sync, a read and the replacement, then a push and a sync for each of five groups
    let calls = live(alloc, MemoryKeep::new(alloc, b"")?, &bodies)?
        .keep
        .calls();
    assert_eq!(rt; calls, 13);
    for call in 2..13 {
        let keep = MemoryKeep::new(alloc, b"")?.failing_from(call);
        let life = live(alloc, keep, &bodies)?;
        assert_eq!(rt; life.fault, Some(LogFault::Doubtful), "call {call}");
        assert_eq!(rt;
            crash_all(alloc, &life, &bodies, 20)?.wrong,
            0,
            "call {call}"
        );
    }
    Ok(())
}

#[test]
fn where_one_call_fails(rt: HostRuntime) -> Result<(), Fail> {
    let alloc = rt.alloc();
    let bodies = ten(alloc)?;
    for call in 3..13 {
        let life = live(alloc, failing(alloc, call, 1)?, &bodies)?;
        assert_eq!(rt; life.fault, Some(LogFault::CutBack), "call {call}");
        assert_eq!(rt;
            crash_all(alloc, &life, &bodies, 20)?.wrong,
            0,
            "call {call}"
        );
        // it holds just what was told
        let told = life.told();
        let reopened = opened(alloc, life.keep.killed())?;
        let got = listed(alloc, &reopened.head, &reopened.bodies)?;
        assert!(rt; reopened.lost == 0 && got.len() == told, "call {call}");
    }
    Ok(())
}
