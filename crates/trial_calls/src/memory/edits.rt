//! Edits and deltas.

ghost use Rattle.std.specs.Prelude.{◌≡◌, IfSome, IsTrue};
ghost use Rattle.edit_stamps.specs.Edit.{has_states_below};

use crate::memory::{is_fault, is_text, tell_all, texts};
use delta_exchange::{ReadFault, read_delta, write_delta};
use edit_stamps::{Corner, Edit, EditFault, EditList, Rect, Stamp, are_placeable, placed_cells};
use generations_rule::Rule;
use pattern_cells::{Cell, Pattern, PatternCell};
use std::alloc::{AllocError, Global};
use std::io;

/// The rule of what has no other.
pub fn rule() -> Option<Rule> {
    Rule::parse(b"345/2/4").ok()
}

/// The edit of cells, under a stamp.
pub fn drawn(alloc: Global, rule: &Rule, stamp: Stamp, cells: &[Cell]) -> Option<Edit>
    ensures { IfSome result (λ edit. IsTrue (has_states_below rule.now.states edit)) }
{
    match Edit::cells(alloc, rule, stamp, cells) {
        Ok(edit) => Some(edit),
        Err(EditFault::Memory) => Edit::cells(alloc, rule, stamp, cells).ok(),
        Err(_) => None,
    }
}

/// What is drawn for a row of the states 2, 3 and 0: of two entries the last counts.
const DRAWN: [Cell; 4] = cells![(2, 0, 0), (0, 0, 1), (1, 0, 3), (0, 0, 2)];

/// The row.
const ROW: [Cell; 3] = cells![(0, 0, 2), (1, 0, 3), (2, 0, 0)];

/// The edit of that row, of replica 1.
pub fn row(alloc: Global, counter: u64) -> Option<Edit> {
    drawn(alloc, &rule()?, Stamp::new(counter, 1)?, &DRAWN)
}

/// The edit of a state at the origin, of counter 1.
pub fn dot(alloc: Global, replica: u16, state: u8) -> Option<Edit> {
    drawn(
        alloc,
        &rule()?,
        Stamp::new(1, replica)?,
        &[cell!(0, 0, state)],
    )
}

/// The clear of counter 2.
pub fn cleared(alloc: Global) -> Option<Edit> {
    let area = Rect {
        x: 0,
        y: 0,
        width: 8,
        height: 8,
    };
    Edit::clear(alloc, Stamp::new(2, 1)?, area).ok()
}

pub fn is_one_row(edits: &[Edit]) -> bool {
    match edits {
        [row] => is_row(row),
        _ => false,
    }
}

pub fn is_row(edit: &Edit) -> bool {
    edit.listed_cells() == ROW.as_slice()
}

/// Where the box of the worked pattern is put, the box there, and its cells.
const AT: Corner = Corner { x: 10, y: 20 };

const BOX: Rect = Rect {
    x: 10,
    y: 20,
    width: 3,
    height: 2,
};

const PLACED: [Cell; 3] = cells![(12, 20, 1), (10, 21, 1), (11, 21, 3)];

/// The delta of the edit of that row, of counter 1.
pub static DELTA: [u8; 57] = *b"GLWD\x01\x07345/2/4\0\0\0\x01\0\0\0\0\0\x01\0\x01\0\0\0\0\x03\
    \x40\0\0\0\x40\0\0\0\x02\x40\0\0\x01\x40\0\0\0\x03\x40\0\0\x02\x40\0\0\0\0";

pub fn tell_calls(rt: &impl Print, alloc: Global) -> io::Result<()> {
    tell_all(
        rt,
        "edits",
        &[
            ("Edit::cells", row_is_drawn(alloc)),
            ("Edit::cells refused", nothing_is_refused(alloc)),
            ("placed_cells", cells_are_placed(alloc)),
            ("Edit::paste_copy", is_pasted(alloc, true)),
            ("Edit::paste_or", is_pasted(alloc, false)),
            ("Edit::copy", edit_is_copied(alloc)),
            ("write_delta", delta_is_written(alloc)),
            ("read_delta", delta_is_read(alloc)),
            ("read_delta of a fault", fault_is_told(alloc)),
        ],
    )
}

fn row_is_drawn(alloc: Global) -> bool {
    match row(alloc, 1) {
        Some(edit) => is_row(&edit),
        None => false,
    }
}

fn nothing_is_refused(alloc: Global) -> bool {
    let (Some(rule), Some(stamp)) = (rule(), Stamp::new(1, 1)) else {
        return false;
    };
    let answer = Edit::cells(alloc, &rule, stamp, &[]);
    is_fault(answer, EditFault::Nothing)
}

fn placed(alloc: Global, cells: &[PatternCell]) -> Option<Vec<Cell>> {
    if are_placeable(cells, AT) {
        again!(AllocError, placed_cells(alloc, cells, AT)).ok()
    } else {
        None
    }
}

fn cells_are_placed(alloc: Global) -> bool {
    let Some(pattern) = texts::pattern(alloc) else {
        return false;
    };
    match placed(alloc, pattern.cells()) {
        Some(cells) => cells.as_slice() == PLACED.as_slice(),
        None => false,
    }
}

/// The pattern pasted as a whole box, or its cells alone.
fn pasted(alloc: Global, pattern: &Pattern, is_whole: bool) -> Result<Edit, EditFault> {
    let (Some(rule), Some(stamp)) = (rule(), Stamp::new(1, 1)) else {
        return Err(EditFault::Nothing);
    };
    if is_whole {
        Edit::paste_copy(alloc, &rule, stamp, pattern, AT.x, AT.y)
    } else {
        Edit::paste_or(alloc, &rule, stamp, pattern, AT.x, AT.y)
    }
}

/// Whether it is, once more where memory is refused.
fn is_pasted_of(alloc: Global, pattern: &Pattern, is_whole: bool) -> bool {
    let Ok(edit) = again!(EditFault::Memory, pasted(alloc, pattern, is_whole)) else {
        return false;
    };
    let area = if is_whole { Some(BOX) } else { None };
    edit.area() == area && edit.listed_cells() == PLACED.as_slice()
}

fn is_pasted(alloc: Global, is_whole: bool) -> bool {
    match texts::pattern(alloc) {
        Some(pattern) => is_pasted_of(alloc, &pattern, is_whole),
        None => false,
    }
}

fn edit_is_copied(alloc: Global) -> bool {
    let Some(edit) = row(alloc, 1) else {
        return false;
    };
    match again!(AllocError, edit.copy()) {
        Ok(copy) => copy.same(&edit),
        Err(AllocError) => false,
    }
}

fn is_written(alloc: Global, rule: &Rule, edits: &[Edit; 1]) -> bool {
    is_text(again!(AllocError, write_delta(alloc, rule, edits)), &DELTA)
}

fn delta_is_written(alloc: Global) -> bool {
    match (rule(), row(alloc, 1)) {
        (Some(rule), Some(row)) => is_written(alloc, &rule, &[row]),
        _ => false,
    }
}

fn read(alloc: Global, text: &[u8]) -> Result<EditList, ReadFault> {
    match rule() {
        Some(rule) => again!(ReadFault::Memory, read_delta(alloc, &rule, text)),
        None => Err(ReadFault::OtherRule),
    }
}

fn delta_is_read(alloc: Global) -> bool {
    match read(alloc, &DELTA) {
        Ok(list) => is_one_row(list.as_slice()),
        Err(_) => false,
    }
}

/// The last cell's state is one that the rule does not have.
fn fault_is_told(alloc: Global) -> bool {
    let mut text = DELTA;
    text[56] = 4;
    is_fault(read(alloc, &text), ReadFault::StateRange)
}
