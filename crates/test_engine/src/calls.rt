//! Each call once, with ample memory and room.

use edit_stamps::{Cell, EditFault};
use generation_engine::{Engine, engine_laws};
use generations_rule::Rule;
use pattern_cells::Window;
use samples::{shows, takes};
use std::alloc::Global;
use std::test::Fail;

/// A glider, sorted.
static GLIDER: [Cell; 5] = [
    Cell {
        x: 1,
        y: 0,
        state: 1,
    },
    Cell {
        x: 2,
        y: 1,
        state: 1,
    },
    Cell {
        x: 0,
        y: 2,
        state: 1,
    },
    Cell {
        x: 1,
        y: 2,
        state: 1,
    },
    Cell {
        x: 2,
        y: 2,
        state: 1,
    },
];

/// One cell at the plane's corner.
static LAST: [Cell; 1] = [Cell {
    x: 0x3fff_ffff,
    y: -0x4000_0000,
    state: 1,
}];

/// Whether a new engine has no cell, and then those that it is filled with, and then none of them.
fn loads(alloc: Global, rule: Rule) -> Result<bool, EditFault> {
    let mut engine = Engine::new(alloc, rule)?;
    let empty = shows(&engine, &[])?;
    let first = takes(alloc, &mut engine, &rule, &GLIDER)?;
    let last = takes(alloc, &mut engine, &rule, &LAST)?;
    Ok(empty && first && last)
}

#[test]
fn an_engine_shows_what_was_loaded_last(rt: HostRuntime) -> Result<(), Fail> {
    engine_laws();
    let rule = Rule::parse(b"23/3/2")?;
    assert!(rt; loads(rt.alloc(), rule)?);
    Ok(())
}

/// Columns -5 to 1, and rows from 1 on: two cells of the glider.
const CORNER: Window = Window {
    x: -5,
    y: 1,
    width: 7,
    height: u32::MAX,
};

/// The box of the glider.
const BOX: Window = Window {
    x: 0,
    y: 0,
    width: 3,
    height: 3,
};

#[test]
fn a_window_has_its_cells_alone(rt: HostRuntime) -> Result<(), Fail> {
    let rule = Rule::parse(b"23/3/2")?;
    let mut engine = Engine::new(rt.alloc(), rule)?;
    assert!(rt; takes(rt.alloc(), &mut engine, &rule, &GLIDER)?);
    assert!(rt; engine.cells_in(CORNER)?.as_slice() == &GLIDER[2..4]);
    assert_eq!(rt; engine.population_in(CORNER), 2);
    assert_eq!(rt; engine.population_in(BOX), 5);
    Ok(())
}

#[test]
fn the_extent_is_the_least_box(rt: HostRuntime) -> Result<(), Fail> {
    let rule = Rule::parse(b"23/3/2")?;
    let mut engine = Engine::new(rt.alloc(), rule)?;
    assert!(rt; engine.extent().is_none());
    assert!(rt; takes(rt.alloc(), &mut engine, &rule, &GLIDER)?);
    assert!(rt; engine.extent() == Some(BOX));
    engine.run(4)?;
    assert!(rt; engine.extent() == Some(Window { x: 1, y: 1, ..BOX }));
    Ok(())
}
