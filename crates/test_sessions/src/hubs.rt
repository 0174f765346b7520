//! Hubs in memory.

ghost use Rattle.std.specs.Prelude.{IfOk};
ghost use Rattle.edit_stamps.specs.PlaneMap.{HasStatesBelow};
ghost use Rattle.stamped_tree.specs.Plane.{map_of};

use edit_stamps::Cell;
use generations_rule::Rule;
use memory_hub::MemoryHub;
use samples::plane_of;
use stamped_tree::Plane;
use std::alloc::{AllocError, Global};
use std::test::Fail;

/// Two cells that live.
static CELLS: [Cell; 2] = [
    Cell {
        x: 0,
        y: 0,
        state: 1,
    },
    Cell {
        x: 1,
        y: 0,
        state: 1,
    },
];

/// What a hub in memory begins with.
#[derive(Clone, Copy)]
pub struct Start {
    pub number: u16,
    /// How many cells its plane has, in row 0 from column 0 on: at most two.
    pub cells: usize,
    /// How many edits are said to be behind its plane.
    pub behind: u64,
}

/// A hub of seat 1 that has nothing.
pub const NOTHING: Start = Start {
    number: 1,
    cells: 0,
    behind: 0,
};

/// The hub of a seat under `/2/3`.
pub fn hub_of(alloc: Global, start: Start) -> Result<MemoryHub, Fail> {
    let rule = Rule::parse(b"/2/3")?;
    let plane = row_of(alloc, &rule, start.cells)?;
    Ok(MemoryHub::new(alloc, rule, start.number, plane, start.behind))
}

/// A plane with the first of the two cells, drawn by one edit.
pub fn row_of(alloc: Global, rule: &Rule, cells: usize) -> Result<Plane, Fail>
    ensures { IfOk result (λ plane. HasStatesBelow rule.now.states (map_of plane)) }
{
    if cells == 0 {
        let plane = blank(alloc, rule)?;
        return Ok(plane);
    }
    let plane = plane_of(alloc, rule, &CELLS[..cells.min(2)])?;
    Ok(plane)
}

/// The plane where nothing was written.
fn blank(alloc: Global, rule: &Rule) -> Result<Plane, AllocError>
    ensures { IfOk result (λ plane. HasStatesBelow rule.now.states (map_of plane)) }
{
    // For the proof alone: the call tells that what is held is a rule.
    let _states = rule.states();
    let plane = Plane::new(alloc)?;
    Ok(plane)
}
