//! States of version 2, read entry by entry.

use crate::fields::Fields;
use crate::slow::squares::leaf_writes;
use crate::slow::writes::{SlowWrite, blank};
use delta_exchange::ReadFault;
use std::alloc::Global;

/// A quarter of an entry.
#[derive(Clone, Copy, PartialEq, Eq)]
pub enum Quarter {
    Blank(u64),
    Entry(usize),
}

/// A listed square: 64 writes at level 3, or else four quarters.
#[derive(Drop)]
pub struct Entry {
    pub level: u8,
    pub writes: Vec<SlowWrite>,
    pub quarters: [Quarter; 4],
}

/// What the quarters of a leaf are taken for.
const NO_QUARTERS: [Quarter; 4] = [Quarter::Blank(0); 4];

/// The entries of a state behind its head, or the stamp of a blank plane.
#[derive(Drop)]
pub struct Listed {
    pub blank: u64,
    pub entries: Vec<Entry>,
}

pub fn read_listed(
    alloc: Global,
    fields: &mut Fields<'_>,
    states: u16,
) -> Result<Listed, ReadFault> {
    let count = fields.word()?;
    let mut entries = Vec::new(alloc);
    if count == 0 {
        let blank = blank(fields)?;
        return Ok(Listed { blank, entries });
    }
    for _ in 0..count {
        let entry = read_entry(alloc, fields, states, &entries)?;
        entries.push(entry)?;
    }
    if !is_walk(alloc, &entries)? {
        return Err(ReadFault::NotCanonical);
    }
    Ok(Listed { blank: 0, entries })
}

/// The next entry behind those that were read.
fn read_entry(
    alloc: Global,
    fields: &mut Fields<'_>,
    states: u16,
    earlier: &[Entry],
) -> Result<Entry, ReadFault> {
    let entry = match fields.byte()? {
        3 => Entry {
            level: 3,
            writes: leaf_writes(alloc, fields, states)?,
            quarters: NO_QUARTERS,
        },
        level @ 4..=31 => Entry {
            level,
            writes: Vec::new(alloc),
            quarters: four(fields, earlier, level)?,
        },
        _ => return Err(ReadFault::NotCanonical),
    };
    if earlier.iter().any(|other| are_equal(other, &entry)) {
        return Err(ReadFault::NotCanonical);
    }
    Ok(entry)
}

/// Whether two entries are one square: those before them are distinct, so that a quarter has one number.
fn are_equal(one: &Entry, other: &Entry) -> bool {
    one.level == other.level && one.writes == other.writes && one.quarters == other.quarters
}

/// Four quarters that are not blank with one stamp.
fn four(fields: &mut Fields<'_>, earlier: &[Entry], level: u8) -> Result<[Quarter; 4], ReadFault> {
    let nw = read_quarter(fields, earlier, level)?;
    let ne = read_quarter(fields, earlier, level)?;
    let sw = read_quarter(fields, earlier, level)?;
    let se = read_quarter(fields, earlier, level)?;
    if matches!(nw, Quarter::Blank(_)) && nw == ne && nw == sw && nw == se {
        return Err(ReadFault::NotCanonical);
    }
    Ok([nw, ne, sw, se])
}

fn read_quarter(
    fields: &mut Fields<'_>,
    earlier: &[Entry],
    level: u8,
) -> Result<Quarter, ReadFault> {
    match fields.byte()? {
        0 => Ok(Quarter::Blank(blank(fields)?)),
        1 => {
            let number = fields.word()? as usize;
            match earlier.get(number) {
                Some(entry) if entry.level.saturating_add(1) == level => Ok(Quarter::Entry(number)),
                _ => Err(ReadFault::NotCanonical),
            }
        }
        _ => Err(ReadFault::NotCanonical),
    }
}

/// Whether the last entry is the plane, and all entries are those of its walk, in that order.
fn is_walk(alloc: Global, entries: &[Entry]) -> Result<bool, ReadFault> {
    let Some(last) = entries.last() else {
        return Ok(false);
    };
    if last.level != 31 {
        return Ok(false);
    }
    let mut walked = Vec::new(alloc);
    walk(entries, entries.len().saturating_sub(1), 28, &mut walked)?;
    Ok(walked.len() == entries.len() && are_in_turn(&walked))
}

/// Whether some numbers are those from 0 on, each once.
fn are_in_turn(numbers: &[usize]) -> bool {
    for (place, number) in numbers.iter().enumerate() {
        if place != *number {
            return false;
        }
    }
    true
}

/// The walk over an entry so many levels above a leaf: over its quarters, and then itself, unless it was met.
fn walk(
    entries: &[Entry],
    number: usize,
    above: u32,
    walked: &mut Vec<usize>,
) -> Result<(), ReadFault> {
    if walked.contains(&number) {
        return Ok(());
    }
    if let Some(entry) = entries.get(number) {
        for quarter in entry.quarters {
            if let (Quarter::Entry(number), Some(below)) = (quarter, above.checked_sub(1)) {
                walk(entries, number, below, walked)?;
            }
        }
    }
    walked.push(number)?;
    Ok(())
}
