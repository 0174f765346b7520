//! `read` beside the slow reader of messages.

use crate::chance::Chance;
use crate::slow::deltas::{SlowArea, SlowCell, SlowEdit};
use crate::slow::map::{Place, SlowMap};
use crate::slow::message::{Heard, SlowRule, hear};
use crate::slow::writes::SlowWrite;
use crate::verdict::Verdict;
use delta_exchange::{Message, ReadFault, read, write_delta, write_state};
use edit_stamps::{Cell, Edit, Rect};
use generations_rule::Rule;
use stamped_tree::Plane;
use std::alloc::{AllocError, Global};

/// How many places of a map are looked at.
const PLACES: u8 = 48;

/// The verdict on the bytes of a message.
pub fn judged(
    alloc: Global,
    chance: &mut Chance,
    rule: SlowRule,
    text: &[u8],
) -> Result<Verdict, AllocError> {
    let Ok(parsed) = Rule::parse(rule.text) else {
        return Ok(Verdict::Differs);
    };
    match (hear(alloc, rule, text), read(alloc, &parsed, text)) {
        (Err(ReadFault::Memory), _) | (_, Err(ReadFault::Memory)) => Err(AllocError),
        (Err(slow), Err(fault)) => Ok(Verdict::refused_if(slow == fault)),
        (Ok(heard), Ok(message)) => {
            let asked = Asked {
                alloc,
                rule,
                parsed,
                text,
            };
            Ok(Verdict::accepted_if(asked.is_same(chance, &heard, &message)?))
        }
        _ => Ok(Verdict::Differs),
    }
}

/// A text that both read, and the rule under which they did.
#[derive(Clone, Copy)]
struct Asked<'a> {
    alloc: Global,
    rule: SlowRule,
    parsed: Rule,
    text: &'a [u8],
}

impl Asked<'_> {
    /// Whether a message says what was heard, and is written so.
    fn is_same(
        &self,
        chance: &mut Chance,
        heard: &Heard,
        message: &Message,
    ) -> Result<bool, AllocError> {
        match (heard, message.edits(), message.plane()) {
            (Heard::Edits(slow), Some(edits), None) => self.are_edits(slow, edits),
            (Heard::Map(slow), None, Some(plane)) => self.is_map(chance, slow, plane),
            _ => Ok(false),
        }
    }

    fn are_edits(&self, slow: &[SlowEdit], edits: &[Edit]) -> Result<bool, AllocError> {
        if slow.len() != edits.len() || edits.len() >= 1 << 20 {
            return Ok(false);
        }
        let all = slow
            .iter()
            .zip(edits)
            .all(|(slow, edit)| is_edit(slow, edit));
        let again = write_delta(self.alloc, &self.parsed, edits)?;
        Ok(all && again.as_slice() == self.text)
    }

    /// Whether a plane has the writes of a map where it is looked at, and is written as the text, or in
    /// version 2.
    fn is_map(
        &self,
        chance: &mut Chance,
        slow: &SlowMap,
        plane: &Plane,
    ) -> Result<bool, AllocError> {
        let again = write_state(self.alloc, &self.parsed, plane)?;
        if matches!(slow, SlowMap::Listed(_)) {
            return Ok(again.as_slice() == self.text && shows(chance, slow, plane));
        }
        match hear(self.alloc, self.rule, &again) {
            Ok(Heard::Map(other)) => Ok(
                shows(chance, slow, plane)
                    && shows(chance, &other, plane)
                    && agree(chance, slow, &other),
            ),
            Err(ReadFault::Memory) => Err(AllocError),
            _ => Ok(false),
        }
    }
}

fn is_edit(slow: &SlowEdit, edit: &Edit) -> bool {
    let cells = edit.listed_cells();
    slow.stamp == edit.stamp().number()
        && is_area(slow.area, edit.area())
        && slow.cells.len() == cells.len()
        && slow
            .cells
            .iter()
            .zip(cells)
            .all(|(slow, cell)| is_cell(*slow, *cell))
}

fn is_area(slow: Option<SlowArea>, area: Option<Rect>) -> bool {
    match (slow, area) {
        (None, None) => true,
        (Some(slow), Some(area)) => {
            is_place(slow.x, area.x)
                && is_place(slow.y, area.y)
                && slow.width == area.width
                && slow.height == area.height
        }
        _ => false,
    }
}

fn is_cell(slow: SlowCell, cell: Cell) -> bool {
    is_place(slow.x, cell.x) && is_place(slow.y, cell.y) && slow.state == cell.state
}

/// Whether a place word is that of a coordinate.
fn is_place(word: u32, coordinate: i32) -> bool {
    i64::from(word) == i64::from(coordinate) + (1 << 30)
}

/// Whether a plane has the writes of a map, at places by chance.
fn shows(chance: &mut Chance, slow: &SlowMap, plane: &Plane) -> bool {
    for _ in 0..PLACES {
        let place = slow.place(chance);
        if slow.at(place) != at_plane(plane, place) {
            return false;
        }
    }
    true
}

fn at_plane(plane: &Plane, place: Place) -> SlowWrite {
    let write = plane.get(coordinate(place.column), coordinate(place.row));
    SlowWrite {
        stamp: write.stamp,
        state: write.state,
    }
}

/// The coordinate of a column or a row.
fn coordinate(place: u32) -> i32 {
    (place & 0x7fff_ffff) as i32 - 0x4000_0000
}

/// Whether two maps have the same writes, at places by chance of the one.
fn agree(chance: &mut Chance, slow: &SlowMap, other: &SlowMap) -> bool {
    for _ in 0..PLACES {
        let place = slow.place(chance);
        if slow.at(place) != other.at(place) {
            return false;
        }
    }
    true
}
