//! Journals of edits of one stamp: many, and those that differ in one thing alone.

use crate::told;
use edit_journal::Journal;
use edit_stamps::{Cell, Edit, EditFault, Rect, Stamp};
use generations_rule::Rule;
use std::alloc::Global;

/// What an edit of the first stamp draws.
enum Drawn {
    Cells(&'static [Cell]),
    Area(Rect),
}

/// The edit of some cells, with the first stamp.
fn of_cells(alloc: Global, cells: &[Cell]) -> Result<Edit, EditFault> {
    match (Rule::parse(b"345/2/6"), Stamp::new(1, 1)) {
        (Ok(rule), Some(stamp)) => Edit::cells(alloc, &rule, stamp, cells),
        _ => Err(EditFault::Nothing),
    }
}

/// The edit that clears an area, with the first stamp.
fn of_area(alloc: Global, area: Rect) -> Result<Edit, EditFault> {
    match Stamp::new(1, 1) {
        Some(stamp) => Edit::clear(alloc, stamp, area),
        None => Err(EditFault::Nothing),
    }
}

fn edit(alloc: Global, drawn: &Drawn) -> Result<Edit, EditFault> {
    match drawn {
        Drawn::Cells(cells) => of_cells(alloc, cells),
        Drawn::Area(area) => of_area(alloc, *area),
    }
}

/// Edits of one cell each, at coordinates of their own.
fn edits_apart(alloc: Global, count: i32) -> Result<Vec<Edit>, EditFault> {
    let mut edits = Vec::new(alloc);
    for n in 0..count {
        let one = of_cells(
            alloc,
            &[Cell {
                x: n,
                y: n,
                state: 1,
            }],
        )?;
        told::push(&mut edits, one)?;
    }
    Ok(edits)
}

/// How many of some edits a journal has.
fn count_of_found(journal: &Journal, edits: &[Edit]) -> usize {
    edits.iter().filter(|edit| journal.contains(edit)).count()
}

/// How many of so many edits are noted, how many are found then, and how many stand there when all
/// were noted once more.
fn counts(alloc: Global, count: i32) -> Result<[usize; 3], EditFault> {
    let edits = edits_apart(alloc, count)?;
    let mut journal = Journal::new(alloc);
    journal.note(&edits)?;
    let noted = journal.as_slice().len();
    let found = count_of_found(&journal, &edits);
    journal.note(&edits)?;
    Ok([noted, found, journal.as_slice().len()])
}

#[test]
fn notes_many_edits_of_one_stamp(rt: HostRuntime) {
    assert!(rt; counts(rt.alloc(), 100_000) == Ok([100_000, 100_000, 100_000]));
}

/// Whether two edits are one: for `==`, and for a journal that was given both.
fn are_one(alloc: Global, one: &Drawn, other: &Drawn) -> Result<bool, EditFault> {
    let one = edit(alloc, one)?;
    let other = edit(alloc, other)?;
    let are_equal = one == other;
    let mut journal = Journal::with_key(alloc, 3, 4);
    journal.push(one)?;
    let is_found = journal.contains(&other);
    journal.push(other)?;
    let is_noted_once = journal.as_slice().len() == 1;
    if are_equal != is_found || are_equal != is_noted_once {
        return Err(EditFault::Nothing);
    }
    Ok(are_equal)
}

/// What two edits draw, and whether they are one.
static PAIRS: [(Drawn, Drawn, bool); 9] = [
    (
        Drawn::Cells(&[Cell {
            x: 1,
            y: 2,
            state: 3,
        }]),
        Drawn::Cells(&[Cell {
            x: 1,
            y: 2,
            state: 3,
        }]),
        true,
    ),
    (
        Drawn::Cells(&[Cell {
            x: 1,
            y: 2,
            state: 3,
        }]),
        Drawn::Cells(&[Cell {
            x: 1,
            y: 2,
            state: 4,
        }]),
        false,
    ),
    (
        Drawn::Cells(&[Cell {
            x: 1,
            y: 2,
            state: 3,
        }]),
        Drawn::Cells(&[Cell {
            x: 2,
            y: 1,
            state: 3,
        }]),
        false,
    ),
    (
        Drawn::Cells(&[Cell {
            x: 1,
            y: -2,
            state: 3,
        }]),
        Drawn::Cells(&[Cell {
            x: 1,
            y: 2,
            state: 3,
        }]),
        false,
    ),
    // In another order, and with an entry that a later one replaces.
    (
        Drawn::Cells(&[
            Cell {
                x: 0,
                y: 0,
                state: 1,
            },
            Cell {
                x: 0,
                y: 1,
                state: 2,
            },
        ]),
        Drawn::Cells(&[
            Cell {
                x: 0,
                y: 1,
                state: 3,
            },
            Cell {
                x: 0,
                y: 1,
                state: 2,
            },
            Cell {
                x: 0,
                y: 0,
                state: 1,
            },
        ]),
        true,
    ),
    (
        Drawn::Cells(&[
            Cell {
                x: 0,
                y: 0,
                state: 1,
            },
            Cell {
                x: 0,
                y: 1,
                state: 2,
            },
        ]),
        Drawn::Cells(&[
            Cell {
                x: 0,
                y: 0,
                state: 2,
            },
            Cell {
                x: 0,
                y: 1,
                state: 1,
            },
        ]),
        false,
    ),
    (
        Drawn::Cells(&[Cell {
            x: 0,
            y: 0,
            state: 0,
        }]),
        Drawn::Area(Rect {
            x: 0,
            y: 0,
            width: 1,
            height: 1,
        }),
        false,
    ),
    (
        Drawn::Area(Rect {
            x: 0,
            y: 0,
            width: 1,
            height: 2,
        }),
        Drawn::Area(Rect {
            x: 0,
            y: 0,
            width: 2,
            height: 1,
        }),
        false,
    ),
    (
        Drawn::Area(Rect {
            x: -3,
            y: 5,
            width: 1,
            height: 2,
        }),
        Drawn::Area(Rect {
            x: -3,
            y: 5,
            width: 1,
            height: 2,
        }),
        true,
    ),
];

#[test]
fn tells_edits_of_one_stamp_apart(rt: HostRuntime) {
    for (one, other, want) in &PAIRS {
        assert!(rt; are_one(rt.alloc(), one, other) == Ok(*want));
    }
}
