//! Journals of a few edits, two of them with one stamp.

use crate::told;
use edit_journal::Journal;
use edit_stamps::{Cell, Edit, EditFault, Stamp};
use generations_rule::Rule;
use std::alloc::{AllocError, Global};

/// The edit that writes a state at the origin with a counter, at replica 1.
fn edit(alloc: Global, counter: u64, state: u8) -> Result<Edit, EditFault> {
    match (Rule::parse(b"345/2/6"), Stamp::new(counter, 1)) {
        (Ok(rule), Some(stamp)) => {
            Edit::cells(alloc, &rule, stamp, &[Cell { x: 0, y: 0, state }])
        }
        _ => Err(EditFault::Nothing),
    }
}

/// The edits of counters and states.
fn edits(alloc: Global, drawn: &[(u64, u8)]) -> Result<Vec<Edit>, EditFault> {
    let mut edits = Vec::new(alloc);
    for (counter, state) in drawn {
        told::push(&mut edits, edit(alloc, *counter, *state)?)?;
    }
    Ok(edits)
}

/// Counter and state of each edit of a journal, in order.
fn text(alloc: Global, journal: &Journal) -> Result<String, AllocError> {
    let mut text = String::new(alloc);
    for edit in journal.as_slice() {
        for cell in edit.listed_cells() {
            text = format!(in alloc; "{text}{} {}, ", edit.stamp().counter(), cell.state)?;
        }
    }
    Ok(text)
}

/// A journal of edits that were pushed one by one.
fn pushed(alloc: Global, pushed: &[(u64, u8)]) -> Result<Journal, EditFault> {
    let mut journal = Journal::new(alloc);
    for (counter, state) in pushed {
        journal.push(edit(alloc, *counter, *state)?)?;
    }
    Ok(journal)
}

/// A journal of edits that were pushed one by one, and of others that were noted behind them.
fn journal(alloc: Global, first: &[(u64, u8)], given: &[(u64, u8)]) -> Result<Journal, EditFault> {
    let edits = edits(alloc, given)?;
    let mut journal = pushed(alloc, first)?;
    journal.note(&edits)?;
    Ok(journal)
}

/// Whether it has these edits, in order.
fn is_noted(
    alloc: Global,
    pushed: &[(u64, u8)],
    given: &[(u64, u8)],
    want: &str,
) -> Result<bool, EditFault> {
    let journal = journal(alloc, pushed, given)?;
    Ok(text(alloc, &journal)?.as_str() == want)
}

/// How many of some edits a journal finds.
fn count_of_found(journal: &Journal, edits: &[Edit]) -> u32 {
    let mut found = 0u32;
    for edit in edits {
        if journal.contains(edit) {
            found = found.saturating_add(1);
        }
    }
    found
}

/// How many of some edits a journal of pushed and of noted ones finds.
fn found(
    alloc: Global,
    pushed: &[(u64, u8)],
    given: &[(u64, u8)],
    sought: &[(u64, u8)],
) -> Result<u32, EditFault> {
    let journal = journal(alloc, pushed, given)?;
    Ok(count_of_found(&journal, &edits(alloc, sought)?))
}

type List = &'static [(u64, u8)];

const NONE: List = &[];

/// An edit twice in one list, and two different edits of one stamp with another between them.
const GIVEN: List = &[(3, 1), (1, 2), (3, 1), (2, 1), (1, 4), (3, 1), (1, 2)];

const KEPT: List = &[(3, 1), (1, 2), (2, 1), (1, 4)];

const NOT_GIVEN: List = &[(1, 1), (1, 3), (3, 2), (2, 4), (4, 1)];

const PUSHED: List = &[(1, 1), (2, 1), (1, 2)];

const ADDED: List = &[(1, 3), (2, 1), (4, 1), (1, 1), (1, 5), (4, 2)];

const ALL: List = &[(1, 1), (2, 1), (1, 2), (1, 3), (4, 1), (1, 5), (4, 2)];

const NOT_ADDED: List = &[(1, 4), (2, 2), (4, 3), (3, 1), (5, 1)];

/// What was pushed, what was given, and what is noted. What is noted again adds nothing.
static NOTED: [(List, List, &str); 4] = [
    (NONE, NONE, ""),
    (NONE, GIVEN, "3 1, 1 2, 2 1, 1 4, "),
    (KEPT, GIVEN, "3 1, 1 2, 2 1, 1 4, "),
    (PUSHED, ADDED, "1 1, 2 1, 1 2, 1 3, 4 1, 1 5, 4 2, "),
];

#[test]
fn notes_in_order_each_once(rt: HostRuntime) {
    for (pushed, given, want) in &NOTED {
        assert!(rt;
            is_noted(rt.alloc(), pushed, given, want) == Ok(true),
            "{want}"
        );
    }
}

/// What was pushed, what was given, what is sought, and how many of it are found.
static FOUND: [(List, List, List, u32); 4] = [
    (NONE, GIVEN, KEPT, 4),
    (NONE, GIVEN, NOT_GIVEN, 0),
    (PUSHED, ADDED, ALL, 7),
    (PUSHED, ADDED, NOT_ADDED, 0),
];

#[test]
fn finds_what_it_noted(rt: HostRuntime) {
    for (pushed, given, sought, want) in &FOUND {
        assert!(rt; found(rt.alloc(), pushed, given, sought) == Ok(*want));
    }
}
