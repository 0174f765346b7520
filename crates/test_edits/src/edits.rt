//! Each call once, and what is refused, in order.

use crate::told;
use edit_stamps::{Cell, Edit, EditFault, EditList, Stamp, Write};
use generations_rule::Rule;
use std::alloc::{AllocError, Global};

const EDGE: i32 = 0x4000_0000;

fn cell(x: i32, y: i32, state: u8) -> Cell {
    Cell { x, y, state }
}

/// Whether a stamp is made, and tells counter, replica and number.
fn is_made(counter: u64, replica: u16, number: u64) -> bool {
    match Stamp::new(counter, replica) {
        Some(stamp) => {
            stamp.counter() == counter && stamp.replica() == replica && stamp.number() == number
        }
        None => false,
    }
}

fn is_refused(counter: u64, replica: u16) -> bool {
    Stamp::new(counter, replica).is_none()
}

/// Whether the one stamp is before the other.
fn is_before(one: (u64, u16), other: (u64, u16)) -> bool {
    match (Stamp::new(one.0, one.1), Stamp::new(other.0, other.1)) {
        (Some(one), Some(other)) => one < other,
        _ => false,
    }
}

#[test]
fn makes_stamps_in_range(rt: HostRuntime) {
    assert!(rt; is_made(1, 1, 65537) && is_made(Stamp::LAST_COUNTER, 65535, u64::MAX));
    assert!(rt; is_refused(0, 1) && is_refused(1, 0) && is_refused(0, 0));
    assert!(rt; is_refused(Stamp::LAST_COUNTER + 1, 1));
    assert!(rt; is_before((1, 1), (1, 2)) && is_before((1, 2), (2, 1)));
    assert!(rt; is_before((2, 1), (Stamp::LAST_COUNTER, 1)) && !is_before((1, 1), (1, 1)));
}

/// Whether each of some writes is at most those behind it and itself, and no other.
fn are_in_order(writes: &[Write]) -> bool {
    for (i, v) in writes.iter().enumerate() {
        for (j, w) in writes.iter().enumerate() {
            let greater = if i <= j { *w } else { *v };
            if (v <= w) != (i <= j) || v.cmp(w) != i.cmp(&j) || v.max(w) != &greater {
                return false;
            }
        }
    }
    true
}

fn write(stamp: u64, state: u8) -> Write {
    Write { stamp, state }
}

#[test]
fn orders_writes_by_stamp_then_state(rt: HostRuntime) {
    assert!(rt;
        are_in_order(&[
            Write::UNWRITTEN,
            write(65537, 1),
            write(65537, 2),
            write(65538, 0),
            write(131073, 0),
        ])
    );
}

/// What is drawn of cells under 345/2/4 with counter 2 at replica 1.
fn drawn(alloc: Global, cells: &[Cell]) -> Result<Edit, EditFault> {
    match (Rule::parse(b"345/2/4"), Stamp::new(2, 1)) {
        (Ok(rule), Some(stamp)) => Edit::cells(alloc, &rule, stamp, cells),
        _ => Err(EditFault::Memory),
    }
}

/// Entries in no order, of some places more than one.
fn entries() -> [Cell; 7] {
    [
        cell(0, 0, 3),
        cell(5, -1, 1),
        cell(0, 0, 2),
        cell(-5, 0, 0),
        cell(5, -1, 0),
        cell(EDGE - 1, -EDGE, 3),
        cell(-EDGE, EDGE - 1, 3),
    ]
}

#[test]
fn settles_entries(rt: HostRuntime) {
    let settled = "2 1, 1073741823 -1073741824 3, 5 -1 0, -5 0 0, 0 0 2, -1073741824 1073741823 3";
    let drawn = drawn(rt.alloc(), &entries());
    assert!(rt; told::is(rt.alloc(), drawn, settled) == Ok(true));
}

/// Whether the edit of some cells at counter 1, which its copy has to be too, is that of others at
/// another counter.
fn are_same(alloc: Global, one: &[Cell], other: &[Cell], counter: u64) -> Result<bool, EditFault> {
    let edit = edit_at(alloc, 1, one)?;
    let is_copied = edit.same(&edit.copy()?);
    Ok(is_copied && edit.same(&edit_at(alloc, counter, other)?))
}

/// The edit of some cells at a counter of replica 1.
fn edit_at(alloc: Global, counter: u64, cells: &[Cell]) -> Result<Edit, EditFault> {
    let (Ok(rule), Some(stamp)) = (Rule::parse(b"345/2/4"), Stamp::new(counter, 1)) else {
        return Err(EditFault::Nothing);
    };
    Edit::cells(alloc, &rule, stamp, cells)
}

/// Whether others make, at a counter, the edit of states 1 and 2 beside each other at counter 1.
fn is_that_pair(alloc: Global, others: &[Cell], counter: u64) -> bool {
    let pair = [cell(0, 0, 1), cell(1, 0, 2)];
    matches!(are_same(alloc, &pair, others, counter), Ok(true))
}

/// Whether they make another edit.
fn is_another(alloc: Global, others: &[Cell], counter: u64) -> bool {
    let pair = [cell(0, 0, 1), cell(1, 0, 2)];
    matches!(are_same(alloc, &pair, others, counter), Ok(false))
}

#[test]
fn tells_edits_apart(rt: HostRuntime) {
    let alloc = rt.alloc();
    assert!(rt; is_that_pair(alloc, &[cell(1, 0, 2), cell(0, 0, 1)], 1));
    assert!(rt; is_another(alloc, &[cell(0, 0, 1), cell(1, 0, 2)], 2));
    assert!(rt; is_another(alloc, &[cell(0, 0, 1), cell(1, 0, 3)], 1));
    assert!(rt; is_another(alloc, &[cell(0, 0, 1), cell(2, 0, 2)], 1));
    assert!(rt; is_another(alloc, &[cell(0, 0, 1)], 1));
}

/// Why cells are not drawn.
fn refusal(alloc: Global, cells: &[Cell]) -> Option<EditFault> {
    drawn(alloc, cells).err()
}

#[test]
fn refuses_none_and_one(rt: HostRuntime) {
    assert!(rt; refusal(rt.alloc(), &[]) == Some(EditFault::Nothing));
    let one = refusal(rt.alloc(), &[cell(0, 0, 255)]);
    assert!(rt; one == Some(EditFault::StateRange));
}

/// Column, row and state of a cell.
type Drawn = (i32, i32, u8);

/// Why two cells are not drawn.
fn refusal_of_both(alloc: Global, one: Drawn, other: Drawn) -> Option<EditFault> {
    refusal(
        alloc,
        &[cell(one.0, one.1, one.2), cell(other.0, other.1, other.2)],
    )
}

/// Two cells and their refusal: a cell beyond the plane before a state that the rule lacks, wherever
/// they stand; and such a state also where a later entry replaces it.
static REFUSED: [(Drawn, Drawn, EditFault); 7] = [
    ((0, 0, 4), (EDGE, 0, 1), EditFault::OutOfPlane),
    ((0, 0, 4), (-EDGE - 1, 0, 1), EditFault::OutOfPlane),
    ((0, 0, 4), (0, EDGE, 1), EditFault::OutOfPlane),
    ((0, 0, 4), (0, -EDGE - 1, 1), EditFault::OutOfPlane),
    ((0, 0, 4), (i32::MIN, i32::MAX, 255), EditFault::OutOfPlane),
    ((1, 1, 1), (0, 0, 4), EditFault::StateRange),
    ((0, 0, 5), (0, 0, 1), EditFault::StateRange),
];

#[test]
fn refuses_in_order(rt: HostRuntime) {
    for (one, other, fault) in &REFUSED {
        assert!(rt; refusal_of_both(rt.alloc(), *one, *other) == Some(*fault));
    }
}

/// 2^20 entries at half as many places, and behind them others that may not stand there.
fn many(alloc: Global, others: &[Cell]) -> Result<Vec<Cell>, AllocError> {
    let mut cells = Vec::with_capacity(alloc, 0x10_0001)?;
    for i in 0..0x10_0000i32 {
        cells.push(cell(i % 1024, i / 2048, 1))?;
    }
    cells.extend_from_slice(others)?;
    Ok(cells)
}

/// How many cells an edit of them has.
fn count(alloc: Global, others: &[Cell]) -> Result<usize, EditFault> {
    let cells = many(alloc, others)?;
    match (Rule::parse(b"/2/3"), Stamp::new(1, 1)) {
        (Ok(rule), Some(stamp)) => told::count(Edit::cells(alloc, &rule, stamp, &cells)),
        _ => Ok(0),
    }
}

#[test]
fn takes_2_to_the_20_entries(rt: HostRuntime) {
    let alloc = rt.alloc();
    assert!(rt; matches!(count(alloc, &[]), Ok(0x8_0000)));
    // one more, though it would leave the plane with a state that the rule lacks
    let beyond = count(alloc, &[cell(EDGE, 0, 9)]);
    assert!(rt; matches!(beyond, Err(EditFault::TooMany)));
}

/// An edit for each counter below 4.
fn three(alloc: Global) -> Result<Vec<Edit>, EditFault> {
    let mut edits = Vec::new(alloc);
    for counter in 1..4u64 {
        told::push(&mut edits, one_cell(alloc, counter)?)?;
    }
    Ok(edits)
}

fn one_cell(alloc: Global, counter: u64) -> Result<Edit, EditFault> {
    match (Rule::parse(b"/2/3"), Stamp::new(counter, 7)) {
        (Ok(rule), Some(stamp)) => Edit::cells(alloc, &rule, stamp, &[cell(0, 0, 1)]),
        _ => Err(EditFault::Memory),
    }
}

/// How many of them a list has, and gives back.
fn listed(alloc: Global) -> Result<(usize, usize), EditFault> {
    let list = EditList::of_vec(three(alloc)?);
    Ok((list.as_slice().len(), list.into_vec().len()))
}

#[test]
fn keeps_a_list(rt: HostRuntime) {
    assert!(rt; listed(rt.alloc()) == Ok((3, 3)));
}

/// Whether a fault has this number and this name.
fn is_named(alloc: Global, fault: EditFault, number: u8, name: &str) -> Result<bool, AllocError> {
    let text = fault.to_string(alloc)?;
    Ok(fault.number() == number && text.as_str() == name)
}

static NAMES: [(EditFault, u8, &str); 5] = [
    (EditFault::TooMany, 8, "TooMany"),
    (EditFault::Nothing, 9, "Nothing"),
    (EditFault::OutOfPlane, 10, "OutOfPlane"),
    (EditFault::StateRange, 11, "StateRange"),
    (EditFault::Memory, 255, "Memory"),
];

#[test]
fn names_faults(rt: HostRuntime) {
    for (fault, number, name) in &NAMES {
        assert!(rt;
            is_named(rt.alloc(), *fault, *number, name) == Ok(true),
            "{name}"
        );
    }
}
