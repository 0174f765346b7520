//! Deltas and states by chance.

use crate::messages::deltas::{brians_brain, rewritten};
use crate::messages::states::text_of;
use delta_exchange::{Message, ReadFault, read, write_delta, write_state};
use edit_stamps::{Cell, Edit, EditFault, Rect, Stamp};
use generations_rule::Rule;
use stamped_tree::Plane;
use std::alloc::{AllocError, Global};
use std::test::Fail;

/// Numbers by chance, the same in each run (Knuth's MMIX).
#[derive(Clone, Copy)]
pub struct Chance {
    pub state: u64,
}

impl Chance {
    pub fn next(&mut self) -> u32 {
        self.state = self
            .state
            .wrapping_mul(6_364_136_223_846_793_005)
            .wrapping_add(1_442_695_040_888_963_407);
        (self.state >> 33) as u32
    }

    /// A coordinate of the plane.
    fn coordinate(&mut self) -> i32 {
        (self.next() & 0x7fff_ffff) as i32 - 0x4000_0000
    }

    fn cell(&mut self) -> Cell {
        Cell {
            x: self.coordinate(),
            y: self.coordinate(),
            state: (self.next() % 3) as u8,
        }
    }

    fn stamp(&mut self) -> Option<Stamp> {
        Stamp::new(u64::from(self.next()) + 1, 7)
    }
}

/// An edit of five cells, or a clear, by chance.
pub fn edit(alloc: Global, rule: &Rule, chance: &mut Chance) -> Result<Option<Edit>, EditFault> {
    let Some(stamp) = chance.stamp() else {
        return Ok(None);
    };
    if chance.next() % 4 == 0 {
        let area = Rect {
            x: (chance.next() % 1000) as i32,
            y: (chance.next() % 1000) as i32 - 500,
            width: chance.next() % 4096 + 1,
            height: chance.next() % 4096 + 1,
        };
        return Ok(Some(Edit::clear(alloc, stamp, area)?));
    }
    let cells = [
        chance.cell(),
        chance.cell(),
        chance.cell(),
        chance.cell(),
        chance.cell(),
    ];
    Ok(Some(Edit::cells(alloc, rule, stamp, &cells)?))
}

/// The text of one edit by chance.
fn text(alloc: Global, rule: &Rule, chance: &mut Chance) -> Result<Vec<u8>, AllocError> {
    match edit(alloc, rule, chance) {
        Ok(Some(edit)) => write_delta(alloc, rule, &[edit]),
        Err(EditFault::Memory) => Err(AllocError),
        _ => Ok(Vec::new(alloc)),
    }
}

/// How many of 500 texts are read, and written again as they were.
fn told_again(alloc: Global, rule: &Rule) -> Result<u32, AllocError> {
    let mut chance = Chance { state: 1 };
    let mut again = 0_u32;
    for _ in 0..500_u32 {
        let text = text(alloc, rule, &mut chance)?;
        let same = rewritten(alloc, rule, &text)?;
        if !text.is_empty() && same.as_slice() == text.as_slice() {
            again = again.saturating_add(1);
        }
    }
    Ok(again)
}

#[test]
fn what_is_written_is_read_and_written_again(rt: HostRuntime) -> Result<(), Fail> {
    assert_eq!(rt; told_again(rt.alloc(), &brians_brain()?)?, 500);
    Ok(())
}

/// Whether two planes read the same where an edit has cells, and beside them.
fn read_alike(a: &Plane, b: &Plane, edit: &Edit) -> bool {
    for cell in edit.listed_cells() {
        let beside = cell.x.saturating_add(1);
        if a.get(cell.x, cell.y) != b.get(cell.x, cell.y)
            || a.get(beside, cell.y) != b.get(beside, cell.y)
        {
            return false;
        }
    }
    true
}

/// Whether the text of an edit's plane is read as a plane that reads the same, with the same text.
fn is_told_again(alloc: Global, rule: &Rule, edit: &Edit) -> Result<bool, AllocError> {
    let plane = Plane::of_edit(alloc, edit)?;
    let text = write_state(alloc, rule, &plane)?;
    match read(alloc, rule, &text) {
        Ok(message) => tells(alloc, rule, &message, &text, &plane, edit),
        Err(ReadFault::Memory) => Err(AllocError),
        Err(_) => Ok(false),
    }
}

/// Whether a message has this text, and a plane that reads as another does.
fn tells(
    alloc: Global,
    rule: &Rule,
    message: &Message,
    text: &[u8],
    plane: &Plane,
    edit: &Edit,
) -> Result<bool, AllocError> {
    let is_same = text_of(alloc, rule, message)?.as_slice() == text;
    match message.plane() {
        Some(again) => Ok(is_same && read_alike(plane, again, edit)),
        None => Ok(false),
    }
}

/// How many of the planes of 100 edits are told again, and how many edits there are.
fn planes_told_again(alloc: Global, rule: &Rule) -> Result<(u32, u32), AllocError> {
    let mut chance = Chance { state: 7 };
    let mut again = 0_u32;
    let mut edits = 0_u32;
    for _ in 0..100_u32 {
        match edit(alloc, rule, &mut chance) {
            Ok(Some(edit)) => {
                edits = edits.saturating_add(1);
                if is_told_again(alloc, rule, &edit)? {
                    again = again.saturating_add(1);
                }
            }
            Err(EditFault::Memory) => return Err(AllocError),
            _ => {}
        }
    }
    Ok((again, edits))
}

#[test]
fn what_is_written_of_a_plane_is_read_and_written_again(rt: HostRuntime) -> Result<(), Fail> {
    assert_eq!(rt;
        planes_told_again(rt.alloc(), &brians_brain()?)?,
        (100, 100)
    );
    Ok(())
}
