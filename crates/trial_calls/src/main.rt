//! Tries the calls of the libraries: those that take memory, each once more where it was refused, and those
//! that read what others send, on bytes by chance.
#![tactic(auto)]

/// A call, made once more where it wants memory, if what it is to leave alone is as it was.
macro_rules! again {
    ($want:pat if $is_kept:expr, $call:expr) => {
        match $call {
            Err($want) if $is_kept => $call,
            answer => answer,
        }
    };
    ($want:pat, $call:expr) => {
        match $call {
            Err($want) => $call,
            answer => answer,
        }
    };
}

/// A cell: its column, its row and its state.
macro_rules! cell {
    ($x:expr, $y:expr, $state:expr) => {
        Cell {
            x: $x,
            y: $y,
            state: $state,
        }
    };
}

macro_rules! cells {
    ($(($x:expr, $y:expr, $state:expr)),*) => {
        [$(cell!($x, $y, $state)),*]
    };
}

mod chance;
mod draw;
mod fields;
mod fuzz;
mod judge;
mod memory;
mod mutation;
mod slow;
mod verdict;

use anyhow::{Context, Result, bail};
use fuzz::{Asked, run_all};
use memory::{PARTS, Part, tell_late, tell_part};
use std::alloc::{AllocGlobal, Global};
use std::env;
use std::sync::Wait;
use std::thread::Threads;
use std::time::Clock;

/// What the fuzzer does without words, and with its word alone.
const FEW: Asked = Asked {
    rounds: 40,
    seed: 1,
};

const MANY: Asked = Asked {
    rounds: 150,
    seed: 1,
};

fn main(rt: HostRuntime) -> Result<()> {
    let words = again!(_, words(&rt))?;
    match words.as_slice() {
        [] | [_] => {
            tell_parts(rt, rt.alloc(), &[])?;
            tell_late(rt, rt.alloc())?;
            run_all(rt, rt.alloc(), FEW)
        }
        [_, word, further @ ..] => run(rt, rt.alloc(), word.as_str(), further),
    }
}

/// The words on the command line, behind the program's name.
fn words(rt: &(impl env::Env + AllocGlobal)) -> Result<Vec<String>> {
    Ok(env::args(rt)?.collect(rt.alloc())?)
}

/// Does what a word and those behind it ask for.
fn run<R: Threads + Wait + Clock + AllocGlobal + Print + Copy + Drop + Send + Sync + 'static>(
    rt: R,
    alloc: Global,
    word: &str,
    further: &[String],
) -> Result<()> {
    match (word, further) {
        ("memory", parts) => tell_parts(rt, alloc, parts),
        ("parts", []) => name_parts(&rt),
        ("late", []) => Ok(tell_late(rt, alloc)?),
        ("fuzz", []) => run_all(rt, alloc, MANY),
        ("fuzz", [rounds, seed]) => {
            let rounds = rounds.parse::<u64>().context("how many rounds")?;
            let seed = seed.parse::<u64>().context("which seed")?;
            run_all(rt, alloc, Asked { rounds, seed })
        }
        _ => bail!(
            "{word} is not asked so; there are: memory [PART..], parts, late, fuzz [ROUNDS SEED]"
        ),
    }
}

/// Makes the calls that take memory: those of some parts, or all.
fn tell_parts<R: Threads + Wait + Clock + Print + Copy + Drop + Send + Sync + 'static>(
    rt: R,
    alloc: Global,
    words: &[String],
) -> Result<()> {
    if words.is_empty() {
        for (_, part) in &PARTS {
            tell_part(rt, alloc, *part)?;
        }
    }
    for word in words {
        tell_part(rt, alloc, part_of(alloc, word.as_str())?)?;
    }
    Ok(())
}

/// The part of a word.
fn part_of(alloc: Global, word: &str) -> Result<Part> {
    match PARTS.iter().find(|(name, _)| *name == word) {
        Some((_, part)) => Ok(*part),
        None => bail!("{word} is no part; there are:{}", part_names(alloc)?),
    }
}

/// All parts, each behind a blank.
fn part_names(alloc: Global) -> Result<String> {
    let mut names = String::new(alloc);
    for (name, _) in &PARTS {
        names.push_str(" ")?;
        names.push_str(name)?;
    }
    Ok(names)
}

fn name_parts(rt: &impl Print) -> Result<()> {
    for (name, _) in &PARTS {
        println!(rt; "{name}")?;
    }
    Ok(())
}
