//! An engine with little room.

use edit_stamps::{Cell, EditFault};
use generation_engine::Engine;
use generations_rule::Rule;
use samples::{refuses, takes};
use std::alloc::{AllocError, Global};
use std::test::Fail;

/// Three live cells in a row.
static BLINKER: [Cell; 3] = [
    Cell {
        x: -1,
        y: -1,
        state: 1,
    },
    Cell {
        x: 0,
        y: -1,
        state: 1,
    },
    Cell {
        x: 1,
        y: -1,
        state: 1,
    },
];

/// One live cell in each of 64 leaves, in each at another place.
fn scattered(alloc: Global) -> Result<Vec<Cell>, AllocError> {
    let mut cells = Vec::new(alloc);
    for i in 0..64u32 {
        cells.push(Cell {
            x: (16 * i + i % 8) as i32,
            y: (i / 8) as i32,
            state: 1,
        })?;
    }
    Ok(cells)
}

/// One cell at the plane's corner.
static ONE: [Cell; 1] = [Cell {
    x: -0x4000_0000,
    y: 0x3fff_ffff,
    state: 1,
}];

/// Whether an engine with room for 64 squares refuses 64 leaves, from empty and from a blinker, stays as
/// it was, and takes a small pattern afterwards.
fn stays_as_it_was(alloc: Global, rule: Rule, many: &[Cell]) -> Result<bool, EditFault> {
    let mut engine = Engine::with_room(alloc, rule, 64)?;
    let empty = refuses(alloc, &mut engine, &rule, many, &[])?;
    let three = takes(alloc, &mut engine, &rule, &BLINKER)?;
    let kept = refuses(alloc, &mut engine, &rule, many, &BLINKER)?;
    let one = takes(alloc, &mut engine, &rule, &ONE)?;
    Ok(empty && three && kept && one)
}

#[test]
fn a_full_store_leaves_the_engine_as_it_was(rt: HostRuntime) -> Result<(), Fail> {
    let many = scattered(rt.alloc())?;
    let life = Rule::parse(b"23/3/2")?;
    assert!(rt; stays_as_it_was(rt.alloc(), life, &many)?);
    let brain = Rule::parse(b"/2/3")?;
    assert!(rt; stays_as_it_was(rt.alloc(), brain, &many)?);
    Ok(())
}
