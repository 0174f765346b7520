//! Great numbers that are announced with little behind them: they are refused at once, and make no memory be
//! reserved.

use crate::spelling::{DELTA, FIRST, STATE, bytes_of, text_of};
use crate::telling::{fault_of, replied, session_of};
use delta_exchange::ReadFault;
use message_frames::{FrameFault, Frames};
use multistate_rle::{RleFault, parse};
use std::alloc::{AllocError, AllocGlobal, Global};
use std::fs;
use std::rt::Files;
use std::test::Fail;
use std::thread::Threads;

/// A head, what stands behind it, and the fault of both.
static TEXTS: [(&str, &str, ReadFault); 12] = [
    (DELTA, "ffffffff", ReadFault::Short),
    (DELTA, "ffffffff 00", ReadFault::Short),
    (
        DELTA,
        "ffffffff 0000000000010001 00 00000001 40000000 40000000 01",
        ReadFault::Short,
    ),
    (
        DELTA,
        "00000001 0000000000010001 00 ffffffff",
        ReadFault::TooMany,
    ),
    // The most cells that may be, of which two are there.
    (
        DELTA,
        "00000001 0000000000010001 00 00100000 40000000 40000000 01 40000001 40000000 01",
        ReadFault::Short,
    ),
    (
        DELTA,
        "00000001 0000000000010001 01 40000000 40000000 ffffffff ffffffff ffffffff",
        ReadFault::OutOfPlane,
    ),
    (STATE, "ffffffff", ReadFault::Short),
    (STATE, "ffffffff 03 0000000000010001 01", ReadFault::Short),
    (
        STATE,
        "ffffffff 04 00 0000000000010001 00 0000000000000000 00 0000000000000000 00 0000000000000000",
        ReadFault::Short,
    ),
    (STATE, "00000001 1f 01 ffffffff", ReadFault::NotCanonical),
    (FIRST, "02020202 01", ReadFault::NotCanonical),
    // A rule of 255 bytes, of which four are there.
    ("474c5753 02 ff", "2f322f33", ReadFault::Short),
];

/// How much address space the process has had at most, in KB, as Linux tells it.
fn peak<R: Files + AllocGlobal>(rt: &R) -> Result<u64, Fail> {
    let status = fs::read_to_string(rt, "/proc/self/status")?;
    let line = line_of(status.as_str(), "VmPeak:").ok_or("a line of the peak")?;
    let word = line.split_whitespace().nth(1).ok_or("a number")?;
    Ok(word.parse::<u64>()?)
}

/// The line that begins with a word.
fn line_of<'a>(text: &'a str, word: &str) -> Option<&'a str> {
    for line in text.lines() {
        if line.starts_with(word) {
            return Some(line);
        }
    }
    None
}

/// How many KB more may be mapped: what a few small blocks may take, and far less than any announced number.
const SMALL: u64 = 4096;

/// How many of the texts have their fault, and how many there are.
fn texts_refused(alloc: Global) -> Result<(usize, usize), Fail> {
    let mut refused = 0_usize;
    for (head, rest, fault) in TEXTS {
        let text = text_of(alloc, head, rest)?;
        if fault_of(alloc, &text)? == Some(fault) {
            refused = refused.saturating_add(1);
        }
    }
    Ok((refused, TEXTS.len()))
}

#[test]
fn announced_numbers_reserve_nothing(rt: HostRuntime) -> Result<(), Fail> {
    let before = peak(&rt)?;
    let (refused, all) = texts_refused(rt.alloc())?;
    assert_eq!(rt; refused, all);
    assert!(rt; peak(&rt)?.saturating_sub(before) < SMALL);
    Ok(())
}

/// So many streams, each of which waits for a body of 2^24 bytes, of which it has one.
fn waiting(alloc: Global, count: usize) -> Result<Vec<Frames>, FrameFault> {
    let mut streams = Vec::new(alloc);
    for _ in 0..count {
        let mut frames = Frames::new(alloc);
        frames.feed(&[1, 0, 0, 0, 7])?;
        if frames.next()?.is_some() {
            return Ok(Vec::new(alloc));
        }
        streams.push(frames)?;
    }
    Ok(streams)
}

/// A thousand such streams would be 16 GB.
#[test]
fn announced_bodies_reserve_nothing(rt: HostRuntime) -> Result<(), Fail> {
    let before = peak(&rt)?;
    let streams = waiting(rt.alloc(), 1000)?;
    assert_eq!(rt; streams.len(), 1000);
    assert!(rt; peak(&rt)?.saturating_sub(before) < SMALL);
    Ok(())
}

/// Requests that say how much follows: generations, of which some are missing, and a push of announced edits.
static REQUESTS: [(&str, u8); 4] = [
    ("07 ffff", 33),
    ("07 ffff 00000000", 33),
    ("02 474c5744 01 04 2f322f33 ffffffff", 17),
    ("02 474c5753 02 04 2f322f33 ffffffff", 17),
];

/// How many of them are refused so.
fn requests_refused<R: Threads + Sync + Drop>(rt: R, alloc: Global) -> Result<usize, Fail> {
    let mut session = session_of(rt, alloc)?;
    let mut refused = 0_usize;
    for (request, number) in REQUESTS {
        let request = bytes_of(alloc, request)?;
        if replied(&mut session, &request)? == Some(number) {
            refused = refused.saturating_add(1);
        }
    }
    Ok(refused)
}

#[test]
fn announced_requests_reserve_nothing(rt: HostRuntime) -> Result<(), Fail> {
    let before = peak(&rt)?;
    assert_eq!(rt; requests_refused(rt, rt.alloc())?, REQUESTS.len());
    assert!(rt; peak(&rt)?.saturating_sub(before) < SMALL);
    Ok(())
}

/// Patterns of boxes and runs that are wide or high, and how many cells are in each.
static PATTERNS: [(&[u8], Result<usize, RleFault>); 5] = [
    (b"x = 4294967295, y = 4294967295\n!", Ok(0)),
    (b"x = 1, y = 1\n4294967295b$o!", Ok(1)),
    (b"x = 1, y = 1\n4294967295$o!", Ok(1)),
    (b"x = 1, y = 1\n4294967295o!", Err(RleFault::TooMany)),
    (
        b"x = 1, y = 1\n99999999999999999999999999o!",
        Err(RleFault::Count(13)),
    ),
];

fn cells_in(alloc: Global, text: &[u8]) -> Result<usize, RleFault> {
    let pattern = parse(alloc, text)?;
    Ok(pattern.cells().len())
}

#[test]
fn announced_cells_reserve_nothing(rt: HostRuntime) -> Result<(), Fail> {
    let before = peak(&rt)?;
    for (text, cells) in PATTERNS {
        assert_eq!(rt; cells_in(rt.alloc(), text), cells);
    }
    assert!(rt; peak(&rt)?.saturating_sub(before) < SMALL);
    Ok(())
}
