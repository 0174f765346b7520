//! Cells so many generations later.

ghost use Rattle.std.specs.Prelude.{◌≡◌, ◌^◌, ◌≤◌, IfErr, IfOk, true};
ghost use Rattle.generations_rule.specs.Place.{Place};
ghost use Rattle.generations_rule.specs.Evolution.{at};
ghost use Rattle.pattern_cells.specs.Cells.{are_states_below};
ghost use Rattle.tile_cells.specs.Causes.{IsNotRun, IsRefused};
ghost use Rattle.tile_cells.specs.Listing.{IsListOf, states_in};

use crate::filled::tiles_of;
use crate::listing::cells_of;
use crate::order::are_in_order;
use generations_rule::Rule;
use keyed_hash::HashKey;
use pattern_cells::Cell;
use std::alloc::Global;
use tile_steps::{TileFault, TileLimits, run};

/// For how many tiles there is room.
const ROOM: usize = 0x1_0000;

/// Why no cells are given.
#[derive(Clone, Copy, Debug, PartialEq, Eq)]
pub enum CellsFault {
    /// `Full` where behind a step more than 2^16 tiles would not be dead; `Far` where a cell, or a tile that
    /// is not dead behind a step, lies within 128 of the least or the greatest coordinate; `Long` where more
    /// windows would be made than may be; `Memory` where the system refused it.
    Tiles(TileFault),
    /// The cells that were listed came out of order. No test has met it.
    Unsorted,
}

/// What tiles are made with.
#[derive(Clone, Copy)]
pub struct Means {
    /// The key by whose hashes tiles are found.
    pub key: HashKey,
    /// How many windows of 64 by 64 cells may be made, four for each tile of a step.
    pub windows: u64,
}

/// The cells of a list that are not dead so many generations later, sorted by `y`, then `x`, by tiles of
/// as many bit planes as the rule's states take. Where two cells of the list are at one place the first
/// counts.
pub fn cells_later(
    alloc: Global,
    rule: &Rule,
    cells: &[Cell],
    generation: u32,
    means: Means,
) -> Result<Vec<Cell>, CellsFault>
    requires { are_states_below rule.now.states cells.now ≡ true }
    ensures list { IfOk result (λ later. IsListOf (at rule.now (states_in cells.now) generation) later.items) }
    ensures cause { IfErr result (λ fault. IsRefused rule.now cells.now generation means.windows fault) }
{
    match rule.states() {
        0..=2 => on_planes::<1>(alloc, rule, cells, generation, means),
        3..=4 => on_planes::<2>(alloc, rule, cells, generation, means),
        5..=8 => on_planes::<3>(alloc, rule, cells, generation, means),
        9..=16 => on_planes::<4>(alloc, rule, cells, generation, means),
        17..=32 => on_planes::<5>(alloc, rule, cells, generation, means),
        33..=64 => on_planes::<6>(alloc, rule, cells, generation, means),
        _ => on_planes::<8>(alloc, rule, cells, generation, means),
    }
}

fn on_planes<const N: usize>(
    alloc: Global,
    rule: &Rule,
    cells: &[Cell],
    generation: u32,
    means: Means,
) -> Result<Vec<Cell>, CellsFault>
    requires few { (1 ≤ N) × (N ≤ 8) }
    requires enough { rule.now.states ≤ 2 ^ N }
    requires below { are_states_below rule.now.states cells.now ≡ true }
    ensures list { IfOk result (λ later. IsListOf (at rule.now (states_in cells.now) generation) later.items) }
    ensures cause { IfErr result (λ fault. IsRefused rule.now cells.now generation means.windows fault) }
{
    match listed_later::<N>(alloc, rule, cells, generation, means) {
        Ok(found) if are_in_order(&found) => Ok(found),
        Ok(_) => Err(CellsFault::Unsorted),
        Err(fault) => Err(CellsFault::Tiles(fault)),
    }
}

/// The same, whatever their order.
fn listed_later<const N: usize>(
    alloc: Global,
    rule: &Rule,
    cells: &[Cell],
    generation: u32,
    means: Means,
) -> Result<Vec<Cell>, TileFault>
    requires few { (1 ≤ N) × (N ≤ 8) }
    requires enough { rule.now.states ≤ 2 ^ N }
    requires below { are_states_below rule.now.states cells.now ≡ true }
    ensures states { IfOk result (λ later. (c : Place) → states_in later.items c ≡ at rule.now (states_in cells.now) generation c) }
    ensures cause { IfErr result (λ fault. IsNotRun rule.now cells.now generation means.windows fault) }
{
    let limits = TileLimits {
        room: ROOM,
        windows: means.windows,
    };
    let tiles = tiles_of::<N>(alloc, means.key, cells, rule.states())?;
    let later = run(alloc, &tiles, rule, generation, limits)?;
    match cells_of(alloc, &later) {
        Ok(found) => Ok(found),
        Err(_) => Err(TileFault::Memory),
    }
}
