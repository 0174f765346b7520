//! Exports of small planes, beside what they must be.

ghost use Rattle.edit_stamps.specs.PlaneMap.{HasStatesBelow};
ghost use Rattle.stamped_tree.specs.Plane.{map_of};

use edit_stamps::Cell;
use export::{export, export_in_room, export_laws, export_within};
use generation_engine::{Engine, EngineFault};
use generations_rule::Rule;
use multistate_rle::parse;
use pattern_cells::Pattern;
use samples::plane_of;
use stamped_tree::Plane;
use std::alloc::Global;
use std::test::Fail;

/// Three cells one below the other, at the plane's upper right corner.
static CORNER: [Cell; 3] = [
    Cell {
        x: 1_073_741_823,
        y: -1_073_741_824,
        state: 1,
    },
    Cell {
        x: 1_073_741_823,
        y: -1_073_741_823,
        state: 1,
    },
    Cell {
        x: 1_073_741_823,
        y: -1_073_741_822,
        state: 1,
    },
];

/// The text of the corner's cells at a generation, of at most so many; or the number of the fault.
fn exported(alloc: Global, generation: u32, limit: u64) -> Result<(Vec<u8>, u8), Fail> {
    let rule = Rule::parse(b"23/3/2")?;
    let plane = plane_of(alloc, &rule, &CORNER)?;
    match export_within(alloc, &rule, &plane, generation, limit) {
        Ok(text) => Ok((text, 0)),
        Err(fault) => Ok((Vec::new(alloc), fault.number())),
    }
}

#[test]
fn the_limit_is_of_cells(rt: HostRuntime) -> Result<(), Fail> {
    export_laws();
    let (text, number) = exported(rt.alloc(), 0, 2)?;
    assert_eq!(rt; (text.len(), number), (0, 23));
    let (text, number) = exported(rt.alloc(), 0, 3)?;
    assert_eq!(rt;
        (text.as_slice(), number),
        (
            b"#CXRLE Pos=1073741823,-1073741824 Gen=0\nx = 1, y = 3, rule = 23/3/2\no$o$o!\n".as_slice(),
            0
        )
    );
    Ok(())
}

#[test]
fn the_generation_is_looked_at_first(rt: HostRuntime) -> Result<(), Fail> {
    let (_, number) = exported(rt.alloc(), 536_870_913, 0)?;
    assert_eq!(rt; number, 22);
    let (_, number) = exported(rt.alloc(), 536_870_912, 0)?;
    assert_eq!(rt; number, 23);
    Ok(())
}

#[test]
fn a_blinker_stands_after_the_last_generation(rt: HostRuntime) -> Result<(), Fail> {
    let (text, number) = exported(rt.alloc(), 536_870_912, 3)?;
    assert_eq!(rt;
        (text.as_slice(), number),
        (
            b"#CXRLE Pos=1073741823,-1073741824 Gen=536870912\nx = 1, y = 3, rule = 23/3/2\no$o$o!\n".as_slice(),
            0
        )
    );
    Ok(())
}

/// Eight cells of Brian's Brain, which fly apart.
static SPREADING: [Cell; 8] = [
    Cell {
        x: -1,
        y: -1,
        state: 1,
    },
    Cell {
        x: 0,
        y: -1,
        state: 2,
    },
    Cell {
        x: 3,
        y: 0,
        state: 1,
    },
    Cell {
        x: -2,
        y: 1,
        state: 1,
    },
    Cell {
        x: 0,
        y: 1,
        state: 1,
    },
    Cell {
        x: 1,
        y: 1,
        state: 2,
    },
    Cell {
        x: 0,
        y: 2,
        state: 1,
    },
    Cell {
        x: 2,
        y: 4,
        state: 1,
    },
];

/// The cells of a pattern at its position.
fn cells_of(alloc: Global, pattern: &Pattern) -> Result<Vec<Cell>, Fail> {
    let (x, y) = pattern.pos();
    let mut cells = Vec::with_capacity(alloc, pattern.cells().len())?;
    for cell in pattern.cells() {
        cells.push(Cell {
            x: x.wrapping_add_unsigned(cell.column),
            y: y.wrapping_add_unsigned(cell.row),
            state: cell.state,
        })?;
    }
    Ok(cells)
}

/// Runs an engine to a generation of a plane.
fn run_to(engine: &mut Engine, plane: &Plane, generation: u32) -> Result<(), EngineFault>
    requires { HasStatesBelow engine.old.rule.states (map_of plane.now) }
{
    engine.load(plane)?;
    engine.run(generation)
}

/// Whether the text of a generation is read as the cells of an engine that was run so far.
fn reads_back(alloc: Global, generation: u32) -> Result<bool, Fail> {
    let rule = Rule::parse(b"/2/3")?;
    let plane = plane_of(alloc, &rule, &SPREADING)?;
    let text = export(alloc, &rule, &plane, generation)?;
    let mut engine = Engine::new(alloc, rule)?;
    run_to(&mut engine, &plane, generation)?;
    tells(alloc, &text, &engine)
}

/// Whether a text tells the cells and the generation of an engine.
fn tells(alloc: Global, text: &[u8], engine: &Engine) -> Result<bool, Fail> {
    let pattern = parse(alloc, text)?;
    let cells = cells_of(alloc, &pattern)?;
    Ok(cells == engine.cells()? && pattern.generation() == u64::from(engine.generation()))
}

#[test]
fn an_export_is_read_back(rt: HostRuntime) -> Result<(), Fail> {
    for generation in [0u32, 1, 2, 3, 7, 12, 50, 200] {
        assert!(rt; reads_back(rt.alloc(), generation)?);
    }
    Ok(())
}

/// How many rooms below 4,096 squares, 64 and each twice the one before, are too small for a
/// generation, and whether each greater one gives the same text as any room.
fn rooms_refused(alloc: Global, generation: u32) -> Result<(u32, bool), Fail> {
    let rule = Rule::parse(b"/2/3")?;
    let plane = plane_of(alloc, &rule, &SPREADING)?;
    let whole = export(alloc, &rule, &plane, generation)?;
    let mut refused = 0u32;
    let mut same = true;
    for exponent in 6..12u32 {
        match export_in_room(
            alloc,
            &rule,
            &plane,
            generation,
            100_000,
            (1_u32 << exponent).max(64),
        ) {
            Ok(text) => same = same && text == whole,
            Err(fault) => {
                same = same && fault.number() == 13;
                refused = exponent - 5;
            }
        }
    }
    Ok((refused, same))
}

#[test]
fn a_small_room_is_told(rt: HostRuntime) -> Result<(), Fail> {
    assert_eq!(rt; rooms_refused(rt.alloc(), 0)?, (1, true));
    assert_eq!(rt; rooms_refused(rt.alloc(), 12)?, (4, true));
    Ok(())
}
