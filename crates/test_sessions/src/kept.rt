//! Exports by a universe that is kept, beside the export of each generation.

ghost use Rattle.std.specs.Prelude.{IfSome};
ghost use Rattle.edit_stamps.specs.PlaneMap.{HasStatesBelow};
ghost use Rattle.stamped_tree.specs.Plane.{map_of};
ghost use Rattle.generation_engine.specs.Universe.{states_in_writes};
ghost use Rattle.export.specs.Kept.{IsRunOf};

use edit_stamps::Cell;
use export::{export, export_on};
use generation_engine::Engine;
use generations_rule::Rule;
use samples::{next, plane_of};
use stamped_tree::Plane;
use std::alloc::{AllocError, Global};
use std::test::Fail;

/// How many columns and rows the soup has.
const SIDE: i32 = 30;

/// Cells in any state of `/2/3`.
fn soup(alloc: Global) -> Result<Vec<Cell>, AllocError> {
    let mut number = 20_251_125;
    let mut cells = Vec::new(alloc);
    for place in 0..SIDE * SIDE {
        cells.push(Cell {
            x: place % SIDE - 15,
            y: place / SIDE - 15,
            state: (next(&mut number) % 3) as u8,
        })?;
    }
    Ok(cells)
}

/// Generations that rise, stay, and fall.
static GENERATIONS: [u32; 12] = [0, 1, 1, 2, 5, 12, 12, 30, 64, 64, 3, 0];

/// Whether the kept universe exports a generation as a new one does.
fn agrees(
    alloc: Global,
    rule: &Rule,
    plane: &Plane,
    generation: u32,
    kept: &mut Option<Engine>,
) -> bool
    requires states { HasStatesBelow rule.now.states (map_of plane.now) }
    requires kept { IfSome kept.old (IsRunOf rule.now (states_in_writes (map_of plane.now))) }
    ensures { IfSome kept.new (IsRunOf rule.now (states_in_writes (map_of plane.now))) }
{
    let text = export_on(alloc, rule, plane, generation, kept);
    match (text, export(alloc, rule, plane, generation)) {
        (Ok(text), Ok(expected)) => text == expected && is_at(kept, generation),
        _ => false,
    }
}

/// Whether a universe is kept at a generation.
fn is_at(kept: &Option<Engine>, generation: u32) -> bool {
    match kept {
        Some(engine) => engine.generation() == generation,
        None => false,
    }
}

/// How many of these generations one kept universe exports so.
fn agreed(alloc: Global, rule: &Rule, plane: &Plane, generations: &[u32]) -> usize
    requires { HasStatesBelow rule.now.states (map_of plane.now) }
{
    let mut kept = None;
    let mut agreed = 0_usize;
    for generation in generations {
        if agrees(alloc, rule, plane, *generation, &mut kept) {
            agreed = agreed.saturating_add(1);
        }
    }
    agreed
}

fn soup_agreed(alloc: Global) -> Result<usize, Fail> {
    let rule = Rule::parse(b"/2/3")?;
    let cells = soup(alloc)?;
    let plane = plane_of(alloc, &rule, &cells)?;
    Ok(agreed(alloc, &rule, &plane, &GENERATIONS))
}

#[test]
fn a_kept_universe_exports_as_a_new_one(rt: HostRuntime) -> Result<(), Fail> {
    assert_eq!(rt; soup_agreed(rt.alloc())?, 12);
    Ok(())
}

/// The number of the fault of an export past the last generation, 0 for none, and the generation of the
/// universe that is kept then.
fn refused(
    alloc: Global,
    rule: &Rule,
    plane: &Plane,
    kept: &mut Option<Engine>,
) -> (u8, Option<u32>)
    requires states { HasStatesBelow rule.now.states (map_of plane.now) }
    requires kept { IfSome kept.old (IsRunOf rule.now (states_in_writes (map_of plane.now))) }
    ensures { IfSome kept.new (IsRunOf rule.now (states_in_writes (map_of plane.now))) }
{
    let number = match export_on(alloc, rule, plane, 536_870_913, kept) {
        Ok(_) => 0,
        Err(fault) => fault.number(),
    };
    (number, generation_of(kept))
}

fn generation_of(kept: &Option<Engine>) -> Option<u32> {
    match kept {
        Some(engine) => Some(engine.generation()),
        None => None,
    }
}

/// A late generation before anything is kept, and behind an export of generation 5; and whether that
/// universe exports generation 7 then.
fn refused_twice(alloc: Global) -> Result<([(u8, Option<u32>); 2], bool), Fail> {
    let rule = Rule::parse(b"/2/3")?;
    let cells = soup(alloc)?;
    let plane = plane_of(alloc, &rule, &cells)?;
    let mut kept = None;
    let early = refused(alloc, &rule, &plane, &mut kept);
    let agrees_at_five = agrees(alloc, &rule, &plane, 5, &mut kept);
    let late = refused(alloc, &rule, &plane, &mut kept);
    let agrees_at_seven = agrees(alloc, &rule, &plane, 7, &mut kept);
    Ok(([early, late], agrees_at_five && agrees_at_seven))
}

#[test]
fn a_late_generation_leaves_what_is_kept(rt: HostRuntime) -> Result<(), Fail> {
    assert_eq!(rt;
        refused_twice(rt.alloc())?,
        ([(22, None), (22, Some(5))], true)
    );
    Ok(())
}
