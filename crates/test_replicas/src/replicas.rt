//! Replicas by hand.

use crate::acts::{
    AROUND, Act, BRIANS_BRAIN, Case, STAR_WARS, begun, cell, comes_so, draw, map_of_first,
    message_of_one, rule,
};
use edit_stamps::{Cell, Edit, EditFault};
use replica_core::{CellList, Fault, Replica};
use std::alloc::{AllocError, Global};

/// Whether a list lends some cells and gives them back.
fn are_listed(alloc: Global, cells: &[Cell]) -> Result<bool, AllocError> {
    let list = CellList::of_vec(Vec::from_slice(alloc, cells)?);
    let are_lent = list.as_slice() == cells;
    Ok(list.into_vec().as_slice() == cells && are_lent)
}

#[test]
fn a_list_of_cells_gives_them_back(rt: HostRuntime) {
    assert!(rt; are_listed(rt.alloc(), &[cell((4, -2, 3))]) == Ok(true));
}

/// The number of a new replica 7 under Brian's Brain, and whether it has that rule.
fn new_replica(alloc: Global) -> Result<(u16, bool), Fault> {
    let rule = rule(BRIANS_BRAIN)?;
    let replica = Replica::new(alloc, rule, 7)?;
    Ok((replica.number(), replica.rule().same(&rule)))
}

#[test]
fn has_its_rule_and_number(rt: HostRuntime) {
    assert!(rt; new_replica(rt.alloc()) == Ok((7, true)));
}

static NEW: Case = Case {
    rule: BRIANS_BRAIN,
    number: 7,
    acts: &[],
    noted: 0,
    places: [(0, 0), (-1, 5), (0x4000_0000, 0), (i32::MIN, i32::MAX)],
    shown: [(0, 0); 4],
};

#[test]
fn begins_empty(rt: HostRuntime) {
    assert!(rt; comes_so(rt.alloc(), &NEW) == Ok(true));
}

/// No cells, a cell beyond the plane, and a state that the rule lacks.
static REFUSED: Case = Case {
    rule: STAR_WARS,
    number: 1,
    acts: &[
        (Act::DrawNothing, Err(Fault::Edit(EditFault::Nothing))),
        (
            Act::Draw(0x4000_0000, 0, 1),
            Err(Fault::Edit(EditFault::OutOfPlane)),
        ),
        (Act::Draw(0, 0, 4), Err(Fault::Edit(EditFault::StateRange))),
    ],
    noted: 0,
    places: AROUND,
    shown: [(0, 0); 4],
};

#[test]
fn refuses_what_is_no_edit(rt: HostRuntime) {
    assert!(rt; comes_so(rt.alloc(), &REFUSED) == Ok(true));
}

/// The same, and then two entries of one cell, of which the later wins.
static REFUSED_AND_DRAWN: Case = Case {
    rule: STAR_WARS,
    number: 1,
    acts: &[
        (Act::DrawNothing, Err(Fault::Edit(EditFault::Nothing))),
        (
            Act::Draw(0x4000_0000, 0, 1),
            Err(Fault::Edit(EditFault::OutOfPlane)),
        ),
        (Act::Draw(0, 0, 4), Err(Fault::Edit(EditFault::StateRange))),
        (Act::DrawBoth((0, 0, 3), (0, 0, 2)), Ok((65537, 0))),
    ],
    noted: 1,
    places: AROUND,
    shown: [(65537, 2), (0, 0), (0, 0), (0, 0)],
};

#[test]
fn a_refusal_takes_no_stamp(rt: HostRuntime) {
    assert!(rt; comes_so(rt.alloc(), &REFUSED_AND_DRAWN) == Ok(true));
}

fn are(journal: &[Edit], first: &Edit, second: &Edit) -> bool {
    match journal {
        [one, other] => one.same(first) && other.same(second),
        _ => false,
    }
}

/// Whether the edits of two draws are in the journal, in order.
fn are_noted(alloc: Global, replica: &mut Replica) -> Result<bool, Fault> {
    let first = draw(alloc, replica, &[cell((0, 0, 3)), cell((0, 0, 2))])?;
    let second = draw(alloc, replica, &[cell((0, 0, 0)), cell((-5, 9, 1))])?;
    Ok(are(replica.journal(), &first, &second))
}

/// The same at a new replica.
fn are_noted_first(alloc: Global) -> Result<bool, Fault> {
    let mut replica = begun(alloc, STAR_WARS, 1)?;
    are_noted(alloc, &mut replica)
}

#[test]
fn notes_what_it_draws(rt: HostRuntime) {
    assert!(rt; are_noted_first(rt.alloc()) == Ok(true));
}

static DRAWN_TWICE: Case = Case {
    rule: STAR_WARS,
    number: 1,
    acts: &[
        (Act::DrawBoth((0, 0, 3), (0, 0, 2)), Ok((65537, 0))),
        (Act::DrawBoth((0, 0, 0), (-5, 9, 1)), Ok((131073, 0))),
    ],
    noted: 2,
    places: [(0, 0), (-5, 9), (9, -5), (5, -9)],
    shown: [(131073, 0), (131073, 1), (0, 0), (0, 0)],
};

#[test]
fn draws_again(rt: HostRuntime) {
    assert!(rt; comes_so(rt.alloc(), &DRAWN_TWICE) == Ok(true));
}

/// Whether a map is sent under its replica's rule, and without edits.
fn is_sent_alone(alloc: Global) -> Result<bool, Fault> {
    let rule = rule(BRIANS_BRAIN)?;
    let message = map_of_first(alloc)?;
    Ok(message.rule().same(&rule) && message.edits().is_none())
}

#[test]
fn sends_its_map_alone(rt: HostRuntime) {
    assert!(rt; is_sent_alone(rt.alloc()) == Ok(true));
}

static FIRST_TOLD: Case = Case {
    rule: BRIANS_BRAIN,
    number: 1,
    acts: &[
        (Act::DrawBoth((0, 0, 1), (1, 0, 2)), Ok((65537, 0))),
        (Act::TakeMapOfSecond, Ok((0, 0))),
    ],
    noted: 1,
    places: AROUND,
    shown: [(65538, 2), (65537, 2), (65538, 1), (0, 0)],
};

static SECOND_TOLD: Case = Case {
    rule: BRIANS_BRAIN,
    number: 2,
    acts: &[
        (Act::DrawBoth((0, 0, 2), (0, 1, 1)), Ok((65538, 0))),
        (Act::TakeMapOfFirst, Ok((0, 0))),
        (Act::TakeMapOfFirst, Ok((0, 0))),
    ],
    noted: 1,
    places: AROUND,
    shown: [(65538, 2), (65537, 2), (65538, 1), (0, 0)],
};

/// A state that is taken adds nothing to a journal.
#[test]
fn agrees_in_both_orders(rt: HostRuntime) {
    assert!(rt; comes_so(rt.alloc(), &FIRST_TOLD) == Ok(true));
    assert!(rt; comes_so(rt.alloc(), &SECOND_TOLD) == Ok(true));
}

static TOLD_AND_DRAWN: Case = Case {
    rule: BRIANS_BRAIN,
    number: 1,
    acts: &[
        (Act::DrawBoth((0, 0, 1), (1, 0, 2)), Ok((65537, 0))),
        (Act::TakeMapOfSecond, Ok((0, 0))),
        (Act::Draw(0, 0, 1), Ok((131073, 0))),
    ],
    noted: 2,
    places: AROUND,
    shown: [(131073, 1), (65537, 2), (65538, 1), (0, 0)],
};

#[test]
fn what_is_taken_raises_the_clock(rt: HostRuntime) {
    assert!(rt; comes_so(rt.alloc(), &TOLD_AND_DRAWN) == Ok(true));
}

/// How many edits a message of one has.
fn edits_of_one(alloc: Global) -> Result<usize, Fault> {
    let rule = rule(BRIANS_BRAIN)?;
    let message = message_of_one(alloc, rule, 0xffff_ffff_ffff, 1)?;
    Ok(match message.edits() {
        Some(edits) => edits.len(),
        None => 0,
    })
}

#[test]
fn sends_an_edit(rt: HostRuntime) {
    assert!(rt; edits_of_one(rt.alloc()) == Ok(1));
}

/// An edit of the last counter, and then an early one.
static FILLED: Case = Case {
    rule: BRIANS_BRAIN,
    number: 2,
    acts: &[
        (Act::TakeEdit(0xffff_ffff_ffff, 1), Ok((0, 0))),
        (Act::DrawNothing, Err(Fault::ClockFull)),
        (Act::TakeEdit(1, 1), Ok((0, 0))),
    ],
    noted: 2,
    places: AROUND,
    shown: [(0xffff_ffff_ffff_0001, 1), (0, 0), (0, 0), (0, 0)],
};

#[test]
fn fills_the_clock(rt: HostRuntime) {
    assert!(rt; comes_so(rt.alloc(), &FILLED) == Ok(true));
}

static OF_ANOTHER_RULE: Case = Case {
    rule: BRIANS_BRAIN,
    number: 2,
    acts: &[(Act::TakeOfStarWars, Err(Fault::OtherRule))],
    noted: 0,
    places: AROUND,
    shown: [(0, 0); 4],
};

#[test]
fn refuses_another_rule(rt: HostRuntime) {
    assert!(rt; comes_so(rt.alloc(), &OF_ANOTHER_RULE) == Ok(true));
}

static LESSER_TWICE: Case = Case {
    rule: STAR_WARS,
    number: 3,
    acts: &[
        (Act::TakeEdit(5, 1), Ok((0, 0))),
        (Act::TakeEdit(5, 3), Ok((0, 0))),
        (Act::TakeEdit(5, 1), Ok((0, 0))),
    ],
    noted: 2,
    places: AROUND,
    shown: [(5 * 65536 + 1, 3), (0, 0), (0, 0), (0, 0)],
};

static GREATER_TWICE: Case = Case {
    rule: STAR_WARS,
    number: 4,
    acts: &[
        (Act::TakeEdit(5, 3), Ok((0, 0))),
        (Act::TakeEdit(5, 1), Ok((0, 0))),
        (Act::TakeEdit(5, 3), Ok((0, 0))),
    ],
    noted: 2,
    places: AROUND,
    shown: [(5 * 65536 + 1, 3), (0, 0), (0, 0), (0, 0)],
};

#[test]
fn notes_two_edits_of_one_stamp(rt: HostRuntime) {
    assert!(rt; comes_so(rt.alloc(), &LESSER_TWICE) == Ok(true));
    assert!(rt; comes_so(rt.alloc(), &GREATER_TWICE) == Ok(true));
}

/// Whether a fault has this number and this name.
fn is_named(alloc: Global, fault: Fault, number: u8, name: &str) -> Result<bool, AllocError> {
    let text = fault.to_string(alloc)?;
    Ok(fault.number() == number && text.as_str() == name)
}

static NAMES: [(Fault, u8, &str); 4] = [
    (Fault::Edit(EditFault::OutOfPlane), 10, "OutOfPlane"),
    (Fault::OtherRule, 16, "OtherRule"),
    (Fault::ClockFull, 24, "ClockFull"),
    (Fault::Memory, 255, "Memory"),
];

#[test]
fn names_faults(rt: HostRuntime) {
    for (fault, number, name) in &NAMES {
        assert!(rt;
            is_named(rt.alloc(), *fault, *number, name) == Ok(true),
            "{name}"
        );
    }
}
