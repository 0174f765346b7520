//! Planes of cells, and engines filled from them.

ghost use Rattle.std.specs.Prelude.{◌≡◌, IfOk};
ghost use Rattle.edit_stamps.specs.PlaneMap.{HasStatesBelow};
ghost use Rattle.stamped_tree.specs.Plane.{map_of};

use edit_stamps::{Cell, Edit, EditFault, Stamp};
use generation_engine::{Engine, StoreFault};
use generations_rule::Rule;
use stamped_tree::Plane;
use std::alloc::{AllocError, Global};

/// The plane of some cells, drawn under a rule.
pub fn plane_of(alloc: Global, rule: &Rule, cells: &[Cell]) -> Result<Plane, EditFault>
    ensures { IfOk result (λ plane. HasStatesBelow rule.now.states (map_of plane)) }
{
    let _states = rule.states();
    let Some(stamp) = Stamp::new(1, 1) else {
        return Err(EditFault::Nothing);
    };
    let edit = Edit::cells(alloc, rule, stamp, cells)?;
    let plane = Plane::of_edit(alloc, &edit)?;
    Ok(plane)
}

/// Whether an engine has these cells, at generation 0.
pub fn shows(engine: &Engine, cells: &[Cell]) -> Result<bool, AllocError> {
    let listed = engine.cells()?;
    Ok(
        listed.as_slice() == cells
            && engine.population() == cells.len() as u128
            && engine.generation() == 0,
    )
}

/// Whether an engine takes some cells, and has them then.
pub fn takes(
    alloc: Global,
    engine: &mut Engine,
    rule: &Rule,
    cells: &[Cell],
) -> Result<bool, EditFault>
    requires { engine.old.rule ≡ rule.now }
    ensures { engine.new.rule ≡ rule.now }
{
    let plane = plane_of(alloc, rule, cells)?;
    let loaded = engine.load(&plane);
    let shown = shows(engine, cells)?;
    Ok(loaded == Ok(()) && shown)
}

/// Whether an engine takes some cells, and lists and counts what the walk of their plane gives.
pub fn walks(
    alloc: Global,
    engine: &mut Engine,
    rule: &Rule,
    cells: &[Cell],
) -> Result<bool, EditFault>
    requires { engine.old.rule ≡ rule.now }
    ensures { engine.new.rule ≡ rule.now }
{
    let plane = plane_of(alloc, rule, cells)?;
    let loaded = engine.load(&plane);
    let shown = shows_walk(engine, &plane)?;
    Ok(loaded == Ok(()) && shown)
}

/// Whether an engine has the cells that the walk of a plane gives.
fn shows_walk(engine: &Engine, plane: &Plane) -> Result<bool, AllocError> {
    let walked = plane.walk()?;
    shows(engine, &walked)
}

/// Whether an engine is full where it is to take some cells, and has those that it had.
pub fn refuses(
    alloc: Global,
    engine: &mut Engine,
    rule: &Rule,
    cells: &[Cell],
    former: &[Cell],
) -> Result<bool, EditFault>
    requires { engine.old.rule ≡ rule.now }
    ensures { engine.new.rule ≡ rule.now }
{
    let plane = plane_of(alloc, rule, cells)?;
    let loaded = engine.load(&plane);
    let shown = shows(engine, former)?;
    Ok(loaded == Err(StoreFault::StoreFull) && shown)
}

/// Whether an engine runs so many generations further, and has these cells then, at this generation.
pub fn advances(
    engine: &mut Engine,
    generations: u32,
    generation: u32,
    cells: &[Cell],
) -> Result<bool, AllocError>
    ensures { engine.new.rule ≡ engine.old.rule }
{
    let run = engine.run(generations);
    let listed = engine.cells()?;
    Ok(
        run == Ok(())
            && listed.as_slice() == cells
            && engine.population() == cells.len() as u128
            && engine.generation() == generation,
    )
}
