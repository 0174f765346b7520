//! States of either version: worked texts, each byte of some, and each room.

ghost use Rattle.std.specs.Prelude.{◌≤◌, length};

use crate::messages::deltas::{ONE_CELL, brians_brain};
use delta_exchange::{Message, ReadFault, read, read_within, write_delta, write_state};
use edit_stamps::{Cell, Edit, EditFault, Stamp, Write};
use generations_rule::Rule;
use stamped_tree::{Limits, Plane};
use std::alloc::{AllocError, Global};
use std::test::Fail;

/// A head of a state under Brian's Brain.
static HEAD: [u8; 10] = [0x47, 0x4c, 0x57, 0x53, 2, 4, 0x2f, 0x32, 0x2f, 0x33];

/// A head of a state of version 1.
pub static FIRST_HEAD: [u8; 10] = [0x47, 0x4c, 0x57, 0x53, 1, 4, 0x2f, 0x32, 0x2f, 0x33];

/// The plane where nothing was written, under Brian's Brain.
static EMPTY: [u8; 22] = [
    0x47, 0x4c, 0x57, 0x53, 2, 4, 0x2f, 0x32, 0x2f, 0x33, 0, 0, 0, 0, 0, 0, 0, 0, 0, 0, 0, 0,
];

/// The same in version 1.
static FIRST_EMPTY: [u8; 19] = [
    0x47, 0x4c, 0x57, 0x53, 1, 4, 0x2f, 0x32, 0x2f, 0x33, 0, 0, 0, 0, 0, 0, 0, 0, 0,
];

/// The first fault of a text, if it has one.
pub fn fault_of(alloc: Global, text: &[u8]) -> Result<Option<ReadFault>, Fail> {
    let rule = brians_brain()?;
    match read(alloc, &rule, text) {
        Ok(_message) => Ok(None),
        Err(fault) => Ok(Some(fault)),
    }
}

/// The first fault of what stands behind a head, if it has one.
fn fault_behind(alloc: Global, head: &[u8], rest: &[u8]) -> Result<Option<ReadFault>, Fail> {
    let mut text = Vec::from_slice(alloc, head)?;
    text.extend_from_slice(rest)?;
    fault_of(alloc, &text)
}

/// What is written of a message.
pub fn text_of(alloc: Global, rule: &Rule, message: &Message) -> Result<Vec<u8>, AllocError> {
    match (message.edits(), message.plane()) {
        (_, Some(plane)) => write_state(alloc, rule, plane),
        (Some(edits), None) if edits.len() < 1000 => write_delta(alloc, rule, edits),
        _ => Ok(Vec::new(alloc)),
    }
}

/// What is written of what is read of a text, in so much room; nothing where it is refused.
pub fn retold(
    alloc: Global,
    rule: &Rule,
    text: &[u8],
) -> Result<Result<Vec<u8>, ReadFault>, AllocError> {
    match read(alloc, rule, text) {
        Ok(message) => Ok(Ok(text_of(alloc, rule, &message)?)),
        Err(ReadFault::Memory) => Err(AllocError),
        Err(fault) => Ok(Err(fault)),
    }
}

/// State 1 at the origin, of counter 1 and replica 1.
static ONE: [Cell; 1] = [Cell {
    x: 0,
    y: 0,
    state: 1,
}];

/// The same, and once more eight columns further.
pub static TWO_ALIKE: [Cell; 2] = [
    Cell {
        x: 0,
        y: 0,
        state: 1,
    },
    Cell {
        x: 8,
        y: 0,
        state: 1,
    },
];

/// Some cells, of counter 1 and replica 1.
pub fn plane_of(alloc: Global, rule: &Rule, cells: &[Cell]) -> Result<Plane, EditFault> {
    let Some(stamp) = Stamp::new(1, 1) else {
        return Err(EditFault::Nothing);
    };
    let edit = Edit::cells(alloc, rule, stamp, cells)?;
    Ok(Plane::of_edit(alloc, &edit)?)
}

/// The text of such a plane.
pub fn text_of_cells(alloc: Global, cells: &[Cell]) -> Result<Vec<u8>, Fail> {
    let rule = brians_brain()?;
    let plane = plane_of(alloc, &rule, cells)?;
    Ok(write_state(alloc, &rule, &plane)?)
}

/// The text of the plane of one cell.
fn one_cell_text(alloc: Global) -> Result<Vec<u8>, Fail> {
    text_of_cells(alloc, &ONE)
}

/// That text in version 1: the squares of levels 31 to 4, of which the first has the cell in its last
/// quarter and the others in their first; a leaf; and the blanks of the others behind it.
fn first_one_cell_text(alloc: Global) -> Result<Vec<u8>, AllocError> {
    let mut text = Vec::from_slice(alloc, &FIRST_HEAD)?;
    text.push(2)?;
    text.extend_from_slice(&[0; 27])?;
    text.extend_from_slice(&[2; 27])?;
    text.extend_from_slice(&[1, 0, 0, 0, 0, 0, 1, 0, 1, 1])?;
    text.extend_from_slice(&[0; 567])?;
    text.extend_from_slice(&[0; 729])?;
    Ok(text)
}

/// Whether what is read of a text is written as another, or the same, text.
pub fn is_retold_as(
    alloc: Global,
    rule: &Rule,
    text: &[u8],
    written: &[u8],
) -> Result<bool, AllocError> {
    match retold(alloc, rule, text)? {
        Ok(told) => Ok(told.as_slice() == written),
        Err(_) => Ok(false),
    }
}

/// Whether what is read of a text is written again as it was.
pub fn is_retold(alloc: Global, rule: &Rule, text: &[u8]) -> Result<bool, AllocError> {
    is_retold_as(alloc, rule, text, text)
}

/// The text of a new plane.
fn empty_text(alloc: Global, rule: &Rule) -> Result<Vec<u8>, AllocError> {
    write_state(alloc, rule, &Plane::new(alloc)?)
}

#[test]
fn the_empty_plane_is_written_and_read(rt: HostRuntime) -> Result<(), Fail> {
    let rule = brians_brain()?;
    assert!(rt; empty_text(rt.alloc(), &rule)?.as_slice() == EMPTY.as_slice());
    assert!(rt; is_retold(rt.alloc(), &rule, &EMPTY)?);
    assert!(rt; is_retold_as(rt.alloc(), &rule, &FIRST_EMPTY, &EMPTY)?);
    Ok(())
}

#[test]
fn nothing_may_stand_behind_a_plane(rt: HostRuntime) -> Result<(), Fail> {
    let mut longer = [0; 23];
    longer[..22].copy_from_slice(&EMPTY);
    assert_eq!(rt; fault_of(rt.alloc(), &longer)?, Some(ReadFault::Trailing));
    let mut first = [0; 20];
    first[..19].copy_from_slice(&FIRST_EMPTY);
    assert_eq!(rt; fault_of(rt.alloc(), &first)?, Some(ReadFault::Trailing));
    Ok(())
}

/// Four blanks where there should be one, and each text that is cut off before its end.
#[test]
fn a_blank_is_not_spelt_out(rt: HostRuntime) -> Result<(), Fail> {
    let mut text = [0; 51];
    text[..10].copy_from_slice(&HEAD);
    text[13] = 1;
    text[14] = 31;
    assert_eq!(rt; fault_of(rt.alloc(), &text)?, Some(ReadFault::NotCanonical));
    for len in 0..51 {
        assert_eq!(rt; fault_of(rt.alloc(), &text[..len])?, Some(ReadFault::Short));
    }
    Ok(())
}

/// The same in version 1.
#[test]
fn a_blank_is_not_spelt_out_in_version_1(rt: HostRuntime) -> Result<(), Fail> {
    let mut text = [0; 47];
    text[..10].copy_from_slice(&FIRST_HEAD);
    text[10] = 2;
    assert_eq!(rt; fault_of(rt.alloc(), &text)?, Some(ReadFault::NotCanonical));
    for len in 0..47 {
        assert_eq!(rt; fault_of(rt.alloc(), &text[..len])?, Some(ReadFault::Short));
    }
    Ok(())
}

/// The writes at the origin and beside it that are read of a text, and how many squares.
fn writes_read(
    alloc: Global,
    rule: &Rule,
    text: &[u8],
) -> Result<Option<(Write, Write, u32)>, ReadFault> {
    let message = read(alloc, rule, text)?;
    Ok(
        message
            .plane()
            .map(|plane| (plane.get(0, 0), plane.get(1, 0), plane.nodes())),
    )
}

#[test]
fn one_written_cell_is_written_and_read(rt: HostRuntime) -> Result<(), Fail> {
    let rule = brians_brain()?;
    let text = one_cell_text(rt.alloc())?;
    assert_eq!(rt; text.len(), 1515);
    let cell = Write {
        stamp: 65537,
        state: 1,
    };
    assert!(rt; writes_read(rt.alloc(), &rule, &text)? == Some((cell, Write::UNWRITTEN, 30)));
    assert!(rt; is_retold(rt.alloc(), &rule, &text)?);
    let first = first_one_cell_text(rt.alloc())?;
    assert_eq!(rt; first.len(), 1371);
    assert!(rt; writes_read(rt.alloc(), &rule, &first)? == Some((cell, Write::UNWRITTEN, 30)));
    assert!(rt; is_retold_as(rt.alloc(), &rule, &first, &text)?);
    Ok(())
}

/// That text with its leaf listed once more: an entry more is announced, and stands behind the first.
fn with_the_leaf_twice(alloc: Global, text: &[u8]) -> Result<Vec<u8>, AllocError>
    requires { 591 ≤ length text.now }
{
    let mut longer = Vec::from_slice(alloc, &text[..10])?;
    longer.extend_from_slice(&[0, 0, 0, 31])?;
    longer.extend_from_slice(&text[14..591])?;
    longer.extend_from_slice(&text[14..591])?;
    longer.extend_from_slice(&text[591..])?;
    Ok(longer)
}

/// Two leaves that look alike are one entry, which is not listed twice.
#[test]
fn equal_squares_are_one_entry(rt: HostRuntime) -> Result<(), Fail> {
    let rule = brians_brain()?;
    let text = text_of_cells(rt.alloc(), &TWO_ALIKE)?;
    assert_eq!(rt; text.len(), 1511);
    assert!(rt; is_retold(rt.alloc(), &rule, &text)?);
    if text.len() == 1511 {
        let longer = with_the_leaf_twice(rt.alloc(), &text)?;
        assert_eq!(rt;
            fault_of(rt.alloc(), &longer)?,
            Some(ReadFault::NotCanonical)
        );
    }
    Ok(())
}

/// Whether what is read of a text into so much room is written again as it was.
pub fn is_retold_within(
    alloc: Global,
    rule: &Rule,
    text: &[u8],
    room: u32,
) -> Result<bool, ReadFault>
    requires { 1 ≤ room }
{
    let message = read_within(alloc, rule, text, Limits::of_room(room))?;
    match text_of(alloc, rule, &message) {
        Ok(told) => Ok(told.as_slice() == text),
        Err(AllocError) => Err(ReadFault::Memory),
    }
}

/// The plane of one cell has 30 squares: with room for fewer its text is not read.
#[test]
fn room_is_wanted_for_each_square(rt: HostRuntime) -> Result<(), Fail> {
    let rule = brians_brain()?;
    let text = one_cell_text(rt.alloc())?;
    for room in 1..30_u32 {
        let answer = is_retold_within(rt.alloc(), &rule, &text, room);
        assert_eq!(rt; answer, Err(ReadFault::StoreFull));
    }
    assert_eq!(rt; is_retold_within(rt.alloc(), &rule, &text, 30), Ok(true));
    Ok(())
}

/// Of how many values of a byte the text is read, each of which is written as it was, or, of version 1, as
/// what is written again so.
pub fn values_read(
    alloc: Global,
    rule: &Rule,
    text: &[u8],
    place: usize,
) -> Result<u32, AllocError> {
    let mut changed = Vec::from_slice(alloc, text)?;
    let mut read = 0_u32;
    for value in 0..256_u16 {
        if let Some(byte) = changed.get_mut(place) {
            *byte = value as u8;
        }
        if let Ok(again) = retold(alloc, rule, &changed)? {
            let is_first = changed.get(4) == Some(&1);
            if again.as_slice() != changed.as_slice()
                && !(is_first && is_retold(alloc, rule, &again)?)
            {
                return Ok(1000);
            }
            read = read.saturating_add(1);
        }
    }
    Ok(read)
}

/// The head, the tags and the blanks have one value each, and so have the number of entries and the
/// levels. Of the one write, which stands at a place, the counter's bytes have all, but 0 in the last, the
/// replica's likewise, and the state three. Where nothing was written no byte alone can say that something
/// was.
fn values_meant(write: usize, place: usize) -> u32 {
    if place < write {
        return 1;
    }
    match place - write {
        0..=4 | 6 => 256,
        5 | 7 => 255,
        8 => 3,
        _ => 1,
    }
}

#[test]
fn each_byte_is_refused_or_told_as_it_is(rt: HostRuntime) -> Result<(), Fail> {
    let rule = brians_brain()?;
    let text = one_cell_text(rt.alloc())?;
    for place in 0..100 {
        assert_eq!(rt;
            values_read(rt.alloc(), &rule, &text, place)?,
            values_meant(15, place)
        );
    }
    Ok(())
}

#[test]
fn each_byte_of_version_1_is_refused_or_told(rt: HostRuntime) -> Result<(), Fail> {
    let rule = brians_brain()?;
    let text = first_one_cell_text(rt.alloc())?;
    for place in 0..100 {
        assert_eq!(rt;
            values_read(rt.alloc(), &rule, &text, place)?,
            values_meant(66, place)
        );
    }
    Ok(())
}

/// What stands behind a head, and its first fault.
struct Behind {
    rest: &'static [u8],
    fault: ReadFault,
}

/// Numbers of entries, levels, flags, and numbers of entries that are none.
static BEHIND: [Behind; 10] = [
    Behind {
        rest: &[0, 0, 0, 0, 0, 0, 0, 0, 0, 0, 0, 1],
        fault: ReadFault::StampRange,
    },
    Behind {
        rest: &[0, 0, 0, 0, 0, 0, 0, 0, 0, 1, 0, 0],
        fault: ReadFault::StampRange,
    },
    Behind {
        rest: &[0xff, 0xff, 0xff, 0xff],
        fault: ReadFault::Short,
    },
    Behind {
        rest: &[0, 0, 0, 1, 2],
        fault: ReadFault::NotCanonical,
    },
    Behind {
        rest: &[0, 0, 0, 1, 32],
        fault: ReadFault::NotCanonical,
    },
    Behind {
        rest: &[0, 0, 0, 1, 31, 2],
        fault: ReadFault::NotCanonical,
    },
    Behind {
        rest: &[0, 0, 0, 1, 31, 1, 0, 0, 0, 0],
        fault: ReadFault::NotCanonical,
    },
    Behind {
        rest: &[0, 0, 0, 1, 31, 0, 0, 0, 0, 0, 0, 0, 0, 1],
        fault: ReadFault::StampRange,
    },
    Behind {
        rest: &[0, 0, 0, 1, 31, 1, 0, 0, 0],
        fault: ReadFault::Short,
    },
    Behind {
        rest: &[0, 0, 0, 1, 3, 0, 0, 0, 0, 0, 0, 0, 0, 1],
        fault: ReadFault::StampRange,
    },
];

/// Tags, blanks and stamps of version 1.
static FIRST_BEHIND: [Behind; 6] = [
    Behind {
        rest: &[2; 28],
        fault: ReadFault::Short,
    },
    Behind {
        rest: &[2; 29],
        fault: ReadFault::NotCanonical,
    },
    Behind {
        rest: &[1],
        fault: ReadFault::NotCanonical,
    },
    Behind {
        rest: &[3],
        fault: ReadFault::NotCanonical,
    },
    Behind {
        rest: &[0, 0, 0, 0, 0, 0, 0, 0, 1],
        fault: ReadFault::StampRange,
    },
    Behind {
        rest: &[0, 0, 0, 0, 0, 0, 1, 0, 0],
        fault: ReadFault::StampRange,
    },
];

#[test]
fn faults_of_squares_are_told(rt: HostRuntime) -> Result<(), Fail> {
    for behind in &BEHIND {
        let fault = fault_behind(rt.alloc(), &HEAD, behind.rest)?;
        assert_eq!(rt; fault, Some(behind.fault));
    }
    for behind in &FIRST_BEHIND {
        let fault = fault_behind(rt.alloc(), &FIRST_HEAD, behind.rest)?;
        assert_eq!(rt; fault, Some(behind.fault));
    }
    Ok(())
}

/// The text of one cell with three of its bytes set, and its first fault.
struct Written {
    /// The counter's last byte.
    counter: u8,
    /// The replica's last.
    replica: u8,
    state: u8,
    fault: Option<ReadFault>,
}

static WRITTEN: [Written; 5] = [
    Written {
        counter: 1,
        replica: 1,
        state: 2,
        fault: None,
    },
    Written {
        counter: 1,
        replica: 1,
        state: 3,
        fault: Some(ReadFault::StateRange),
    },
    Written {
        counter: 0,
        replica: 1,
        state: 3,
        fault: Some(ReadFault::StampRange),
    },
    Written {
        counter: 0,
        replica: 0,
        state: 1,
        fault: Some(ReadFault::StampRange),
    },
    Written {
        counter: 0,
        replica: 0,
        state: 0,
        fault: Some(ReadFault::NotCanonical),
    },
];

fn fault_of_write(alloc: Global, written: &Written) -> Result<Option<ReadFault>, Fail> {
    let mut text = one_cell_text(alloc)?;
    for (place, value) in [
        (20, written.counter),
        (22, written.replica),
        (23, written.state),
    ] {
        if let Some(byte) = text.get_mut(place) {
            *byte = value;
        }
    }
    fault_of(alloc, &text)
}

#[test]
fn faults_of_a_write_are_told_in_order(rt: HostRuntime) -> Result<(), Fail> {
    for written in &WRITTEN {
        assert_eq!(rt; fault_of_write(rt.alloc(), written)?, written.fault);
    }
    Ok(())
}

/// Texts that are no head of a message under this rule.
static HEADS: [Behind; 9] = [
    Behind {
        rest: b"",
        fault: ReadFault::Short,
    },
    Behind {
        rest: b"GL",
        fault: ReadFault::Short,
    },
    Behind {
        rest: b"XXXX",
        fault: ReadFault::Magic,
    },
    Behind {
        rest: b"GLWD\x02",
        fault: ReadFault::Version,
    },
    Behind {
        rest: b"GLWS\x03",
        fault: ReadFault::Version,
    },
    Behind {
        rest: b"GLWS\x02",
        fault: ReadFault::Short,
    },
    Behind {
        rest: b"GLWD\x01\x04/3/3",
        fault: ReadFault::OtherRule,
    },
    Behind {
        rest: b"GLWS\x01\x04/3/3",
        fault: ReadFault::OtherRule,
    },
    Behind {
        rest: b"GLWS\x02\x04/3/3",
        fault: ReadFault::OtherRule,
    },
];

#[test]
fn faults_of_either_head_are_told(rt: HostRuntime) -> Result<(), Fail> {
    for head in &HEADS {
        assert_eq!(rt; fault_of(rt.alloc(), head.rest)?, Some(head.fault));
    }
    Ok(())
}

/// How many edits are read of a text, and whether they are all of it, under this rule.
fn edits_read(alloc: Global, rule: &Rule, text: &[u8]) -> Result<(Option<usize>, bool), ReadFault> {
    let message = read(alloc, rule, text)?;
    let edits = message.edits().map(|edits| edits.len());
    Ok((edits, message.plane().is_none() && message.rule() == *rule))
}

#[test]
fn a_delta_is_read_as_edits(rt: HostRuntime) -> Result<(), Fail> {
    let rule = brians_brain()?;
    assert!(rt; edits_read(rt.alloc(), &rule, &ONE_CELL)? == (Some(1), true));
    assert!(rt; is_retold(rt.alloc(), &rule, &ONE_CELL)?);
    Ok(())
}
