//! Scripts by chance, half of them with faults: the first fault that is told has the line that a run
//! tells, and where a run tells none there is none.

use devices::{ReadSource, WriteSink};
use genedit_lib::{RunFault, run_script};
use rand_core::utils::NextWord;
use rand_pcg::Pcg32;
use script_check::checked;
use script_faults::Note;
use std::alloc::{AllocError, Global};

/// Lines that a script may have.
static GOOD: [&str; 14] = [
    "cells 1 0 0 1",
    "cells 2 -3 4 1 5 6 0",
    "clear 1 -4 -4 9 9",
    "pattern g\nx = 3, y = 3\nbo$2bo$3o!\nend",
    "pattern h\n#C\n\nbz!\n end\nend",
    "copy 1 g -1 7",
    "or 2 g 8 -2",
    "state 1",
    "delta 2 0 1",
    "deliver 1 2",
    "show 1 0 0",
    "same 1 2",
    "dump 1",
    "# a remark",
];

/// Lines with a fault, or that make one of what follows.
static FAULTY: [&str; 16] = [
    "cels 1 0 0 1",
    "cells 1 0 0",
    "cells 1 0 0 256",
    "clear 1 0 0 -1 2",
    "pattern my-gun\no!\nend",
    "pattern k\nx = 1, y = 1\no!\n end",
    "pattern",
    "end",
    "copy 1 g",
    "state 4294967296",
    "rule 23/3/2",
    "replicas 2",
    "show 1 1.5 0",
    "\u{feff}",
    "dump 1 # it",
    "\r",
];

/// Lines that a script begins with, the last six with a fault.
static HEADS: [&str; 10] = [
    "rule 23/3/2\nreplicas 2\n",
    "# two\n\nrule /2/3\r\nreplicas 02\r\n",
    "\trule 345/2/4\n#\nreplicas 2\n",
    "rule 23/3/2\nreplicas 0\n",
    "rule B3/S23\nreplicas 2\n",
    "replicas 2\nrule 23/3/2\n",
    "rule 23/3/2\n",
    "rule 23/3/2\nreplicas 65\n",
    "rule 23/3/2\nrule 23/3/2\nreplicas 2\n",
    "",
];

/// One of some lines.
fn one_of<'a>(random: &mut Pcg32, lines: &'a [&'static str]) -> &'a str {
    let at = random.next_word() as usize % lines.len().max(1);
    match lines.get(at) {
        Some(line) => line,
        None => "",
    }
}

/// A script, with a fault in about half of all.
fn script(alloc: Global, random: &mut Pcg32) -> Result<String, AllocError> {
    let heads = if random.next_word() % 6 == 0 {
        &HEADS[4..]
    } else {
        &HEADS[..4]
    };
    let mut script = String::from_str(alloc, one_of(random, heads))?;
    let faulty = random.next_word() % 2 == 0;
    for _ in 0..random.next_word() % 12 {
        let lines: &[&'static str] = if faulty && random.next_word() % 3 == 0 {
            &FAULTY
        } else {
            &GOOD
        };
        script.push_str(one_of(random, lines))?;
        script.push_str(if random.next_word() % 5 == 0 {
            "\r\n"
        } else {
            "\n"
        })?;
    }
    Ok(script)
}

/// The line of the fault with which a run ends.
fn run_line(alloc: Global, script: &[u8]) -> Result<Option<u64>, RunFault> {
    let mut out = Vec::new(alloc);
    match run_script(
        alloc,
        &mut ReadSource::new(script),
        &mut WriteSink::new(&mut out),
    ) {
        Ok(()) => Ok(None),
        Err(RunFault::Script(line)) => Ok(Some(line)),
        Err(fault) => Err(fault),
    }
}

/// The line of the first fault that is told.
fn told_line(alloc: Global, script: &[u8]) -> Result<Option<u64>, RunFault> {
    let report = checked(alloc, b"script", script)?;
    for note in &report.notes.notes {
        if let Note::Fault(place, _) = note {
            return Ok(Some(place.line));
        }
    }
    Ok(None)
}

/// How many of so many scripts have a fault, and how many are told of otherwise than by a run.
fn amiss(alloc: Global, scripts: u32) -> Result<(u32, u32), RunFault> {
    let mut random = Pcg32::new(2026, 62);
    let mut faulty = 0u32;
    let mut amiss = 0u32;
    for _ in 0..scripts {
        let script = script(alloc, &mut random)?;
        let run = run_line(alloc, script.as_bytes())?;
        if run.is_some() {
            faulty = faulty.saturating_add(1);
        }
        if told_line(alloc, script.as_bytes())? != run {
            amiss = amiss.saturating_add(1);
        }
    }
    Ok((faulty, amiss))
}

#[test]
fn first_lines_are_those_of_runs(rt: HostRuntime) -> Result<(), RunFault> {
    let (faulty, amiss) = amiss(rt.alloc(), 1500)?;
    assert_eq!(rt; amiss, 0);
    assert!(rt; 600 < faulty && faulty < 900);
    Ok(())
}
