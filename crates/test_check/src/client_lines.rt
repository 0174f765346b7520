//! Lines of a client by chance: of each that is at fault a reason is told, at a place of the line.

use client_commands::command_in;
use genedit_script::{opened_in, says_something};
use rand_core::utils::NextWord;
use rand_pcg::Pcg32;
use script_faults::{Reason, client_finding};
use std::alloc::{AllocError, Global};

/// Words with which a line may begin, those of a client twice.
static FIRST: [&[u8]; 42] = [
    b"cells",
    b"clear",
    b"pattern",
    b"end",
    b"copy",
    b"or",
    b"show",
    b"export",
    b"poll",
    b"wait",
    b"sleep",
    b"save",
    b"open",
    b"bye",
    b"cells",
    b"clear",
    b"pattern",
    b"end",
    b"copy",
    b"or",
    b"show",
    b"export",
    b"poll",
    b"wait",
    b"sleep",
    b"save",
    b"open",
    b"bye",
    b"export!",
    b"save!",
    b"rule",
    b"replicas",
    b"state",
    b"delta",
    b"deliver",
    b"same",
    b"dump",
    b"#",
    b"cels",
    b"frobnicate",
    b"\xef\xbb\xbfpoll",
    b"\x00",
];

/// Words that may stand behind it.
static BEHIND: [&[u8]; 22] = [
    b"0",
    b"1",
    b"1",
    b"2",
    b"-3",
    b"007",
    b"255",
    b"256",
    b"2147483647",
    b"2147483648",
    b"-2147483648",
    b"4294967295",
    b"4294967296",
    b"1.5",
    b"-",
    b"g",
    b"my-gun",
    b"seventeenletters1",
    b"#",
    b"caf\xe9",
    b"\x07",
    b"23/3/2",
];

static BLANKS: [&[u8]; 4] = [b" ", b" ", b"\t", b"  "];

/// One of some words.
fn one_of<'a>(random: &mut Pcg32, words: &'a [&'static [u8]]) -> &'a [u8] {
    let at = random.next_word() as usize % words.len().max(1);
    match words.get(at) {
        Some(word) => word,
        None => b"",
    }
}

/// A line of at most nine words.
fn line(alloc: Global, random: &mut Pcg32) -> Result<Vec<u8>, AllocError> {
    let mut line = Vec::new(alloc);
    if random.next_word() % 8 == 0 {
        line.extend_from_slice(one_of(random, &BLANKS))?;
    }
    line.extend_from_slice(one_of(random, &FIRST))?;
    for _ in 0..random.next_word() % 9 {
        line.extend_from_slice(one_of(random, &BLANKS))?;
        line.extend_from_slice(one_of(random, &BEHIND))?;
    }
    if random.next_word() % 8 == 0 {
        line.extend_from_slice(one_of(random, &BLANKS))?;
    }
    Ok(line)
}

/// Whether a client that hears the line, in no block, tells a fault.
fn is_faulty(alloc: Global, line: &[u8]) -> Result<bool, AllocError> {
    if !says_something(line) || opened_in(line).is_some() {
        return Ok(false);
    }
    Ok(command_in(alloc, line)?.is_none())
}

/// Whether a reason is told of it, at a place of the line or behind its last byte.
fn is_told(alloc: Global, line: &[u8]) -> Result<bool, AllocError> {
    let finding = client_finding(alloc, line)?;
    let is_reason = !matches!(finding.reason, Reason::NoForm(_));
    let is_there = 1 <= finding.column && finding.column <= line.len().saturating_add(1);
    Ok(is_reason && is_there && 1 <= finding.width)
}

/// How many of so many lines are at fault, and of how many of these no reason is told.
fn amiss(alloc: Global, lines: u32) -> Result<(u32, u32), AllocError> {
    let mut random = Pcg32::new(2026, 64);
    let mut faulty = 0u32;
    let mut amiss = 0u32;
    for _ in 0..lines {
        let line = line(alloc, &mut random)?;
        if is_faulty(alloc, &line)? {
            faulty = faulty.saturating_add(1);
            if !is_told(alloc, &line)? {
                amiss = amiss.saturating_add(1);
            }
        }
    }
    Ok((faulty, amiss))
}

#[test]
fn faulty_lines_have_reasons(rt: HostRuntime) -> Result<(), AllocError> {
    let (faulty, amiss) = amiss(rt.alloc(), 2000)?;
    assert_eq!(rt; amiss, 0);
    assert!(rt; 1000 < faulty && faulty < 1950, "{faulty}");
    Ok(())
}
