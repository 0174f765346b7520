//! One delta, byte by byte.

ghost use Rattle.std.specs.Prelude.{◌<◌, ◌^◌, length};

use delta_exchange::{ReadFault, read_delta, write_delta};
use edit_stamps::{Cell, Edit, Stamp};
use generations_rule::Rule;
use std::alloc::{AllocError, Global};
use std::test::Fail;

/// Under Brian's Brain, one edit of counter 1 and replica 1: state 1 at the origin.
pub static ONE_CELL: [u8; 36] = [
    0x47, 0x4c, 0x57, 0x44, 1, 4, 0x2f, 0x32, 0x2f, 0x33, 0, 0, 0, 1, 0, 0, 0, 0, 0, 1, 0, 1, 0, 0,
    0, 0, 1, 0x40, 0, 0, 0, 0x40, 0, 0, 0, 1,
];

/// The same of the last counter.
static LAST_COUNTER: [u8; 36] = [
    0x47, 0x4c, 0x57, 0x44, 1, 4, 0x2f, 0x32, 0x2f, 0x33, 0, 0, 0, 1, 0xff, 0xff, 0xff, 0xff, 0xff,
    0xff, 0, 1, 0, 0, 0, 0, 1, 0x40, 0, 0, 0, 0x40, 0, 0, 0, 1,
];

pub fn brians_brain() -> Result<Rule, Fail> {
    Ok(Rule::parse(b"/2/3")?)
}

fn one_cell(alloc: Global, rule: &Rule) -> Result<Edit, Fail> {
    let stamp = Stamp::new(1, 1).ok_or("a stamp in range")?;
    Ok(Edit::cells(
        alloc,
        rule,
        stamp,
        &[Cell {
            x: 0,
            y: 0,
            state: 1,
        }],
    )?)
}

fn one_cell_written(alloc: Global) -> Result<Vec<u8>, Fail> {
    let rule = brians_brain()?;
    let edit = one_cell(alloc, &rule)?;
    Ok(write_delta(alloc, &rule, &[edit])?)
}

#[test]
fn one_cell_is_written(rt: HostRuntime) -> Result<(), Fail> {
    assert!(rt; one_cell_written(rt.alloc())?.as_slice() == ONE_CELL.as_slice());
    Ok(())
}

/// How many edits a text tells, or its first fault.
pub fn told(alloc: Global, text: &[u8]) -> Result<Result<usize, ReadFault>, Fail> {
    let rule = brians_brain()?;
    Ok(read_delta(alloc, &rule, text).map(|edits| edits.as_slice().len()))
}

#[test]
fn a_text_is_read_whole(rt: HostRuntime) -> Result<(), Fail> {
    assert_eq!(rt; told(rt.alloc(), &ONE_CELL)?, Ok(1));
    assert_eq!(rt; told(rt.alloc(), &LAST_COUNTER)?, Ok(1));
    Ok(())
}

#[test]
fn a_text_that_is_cut_off_is_short(rt: HostRuntime) -> Result<(), Fail> {
    assert_eq!(rt; told(rt.alloc(), &ONE_CELL[..35])?, Err(ReadFault::Short));
    assert_eq!(rt; told(rt.alloc(), &[])?, Err(ReadFault::Short));
    Ok(())
}

/// A head, and that the greatest number of edits follows.
#[test]
fn an_announced_number_takes_no_memory(rt: HostRuntime) -> Result<(), Fail> {
    let mut text = [0xff; 14];
    text[..10].copy_from_slice(&ONE_CELL[..10]);
    assert_eq!(rt; told(rt.alloc(), &text)?, Err(ReadFault::Short));
    Ok(())
}

/// What is written of what is read of a text; nothing where it is refused.
pub fn rewritten(alloc: Global, rule: &Rule, text: &[u8]) -> Result<Vec<u8>, AllocError> {
    match read_delta(alloc, rule, text) {
        Ok(edits) if edits.as_slice().len() <= text.len() && text.len() < 1 << 20 => write_delta(
            alloc,
            rule,
            edits.as_slice(),
        ),
        Err(ReadFault::Memory) => Err(AllocError),
        _ => Ok(Vec::new(alloc)),
    }
}

/// Of how many values of a byte the text is read, each of which is written as it was.
fn values_read(alloc: Global, rule: &Rule, place: usize) -> Result<u32, AllocError>
    requires { place < 36 }
{
    let mut text = LAST_COUNTER;
    let mut read = 0_u32;
    for value in 0..256_u16 {
        text[place] = value as u8;
        let again = rewritten(alloc, rule, &text)?;
        if again.as_slice() == text.as_slice() {
            read = read.saturating_add(1);
        } else if !again.is_empty() {
            return Ok(1000);
        }
    }
    Ok(read)
}

/// The head and the numbers have one value each, the stamp's bytes all but 0 in the replica's last,
/// the coordinates' first bytes the lower half, and the state three.
static VALUES_READ: [u32; 36] = [
    1, 1, 1, 1, 1, 1, 1, 1, 1, 1, 1, 1, 1, 1, 256, 256, 256, 256, 256, 256, 256, 255, 1, 1, 1, 1,
    1, 128, 256, 256, 256, 128, 256, 256, 256, 3,
];

#[test]
fn each_byte_is_refused_or_told(rt: HostRuntime) -> Result<(), Fail> {
    let rule = brians_brain()?;
    for place in 0..36 {
        assert_eq!(rt; values_read(rt.alloc(), &rule, place)?, VALUES_READ[place]);
    }
    Ok(())
}
