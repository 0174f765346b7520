//! Any number of generations of a map of tiles.

ghost use Rattle.std.specs.Prelude.{◌≡◌, ◌+◌, ◌*◌, ◌^◌, ◌<◌, ◌≤◌, IfErr, IfOk, OnOk, length};
ghost use Rattle.tile_steps.specs.Tiles.{AllInside, IsEvolved};
ghost use Rattle.tile_steps.specs.Causes.{IsRefusedRun, IsWithin};

use crate::fault::TileFault;
use crate::step::later;
use crate::tiles::Tiles;
use generations_rule::Rule;
use std::alloc::Global;

/// What a run may take.
#[derive(Clone, Copy)]
pub struct TileLimits {
    /// For how many tiles there is room.
    pub room: usize,
    /// How many windows may be made, four for each tile of a step.
    pub windows: u64,
}

/// The tiles so many generations later, on one of the two grids, 16 generations at a time. `Full` and `Far`
/// are answered where a step does, and `Long` before a step that would make more windows than are left.
pub fn run<const N: usize>(
    alloc: Global,
    tiles: &Tiles<N>,
    rule: &Rule,
    generations: u32,
    limits: TileLimits,
) -> Result<Tiles<N>, TileFault>
    requires few { (1 ≤ N) × (N ≤ 8) }
    requires enough { rule.now.states ≤ 2 ^ N }
    requires inside { AllInside N tiles.now.map.entries }
    ensures evolved { IfOk result (λ new. IsEvolved N rule.now generations tiles.now.map.entries new.map.entries) }
    ensures inside { IfOk result (λ new. AllInside N new.map.entries) }
    ensures room { IfOk result (λ new. length new.map.entries ≤ limits.room) }
    ensures within { OnOk result (IsWithin N rule.now generations limits.room limits.windows tiles.now.map.entries) }
    ensures cause { IfErr result (λ fault. IsRefusedRun N rule.now generations limits.room limits.windows tiles.now.map.entries fault) }
{
    // For the proof alone: the call tells that what is held is a rule.
    let _states = rule.states();
    let mut left = windows_left(tiles, limits.windows)?;
    let mut now = later(alloc, tiles, rule, generations % 16, limits.room)?;
    for sixteen in 0..generations / 16 {
        left = windows_left(&now, left)?;
        now = later(alloc, &now, rule, 16, limits.room)?;
    }
    Ok(now)
}

/// How many windows are left behind a step.
fn windows_left<const N: usize>(tiles: &Tiles<N>, left: u64) -> Result<u64, TileFault>
    ensures left { IfOk result (λ rest. left ≡ rest + 4 * length tiles.now.map.entries) }
    ensures cause { IfErr result (λ fault. (fault ≡ TileFault.Long) × (left < 4 * length tiles.now.map.entries)) }
{
    match (tiles.len() as u64).checked_mul(4) {
        Some(windows) if windows <= left => Ok(left - windows),
        _ => Err(TileFault::Long),
    }
}
