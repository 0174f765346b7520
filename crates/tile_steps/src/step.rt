//! A step of a whole map of tiles.

ghost use Rattle.std.specs.Prelude.{◌≡◌, ℕ, ◌+◌, ◌^◌, ◌<◌, ◌≤◌, ◌↔◌, IfErr, IfOk, OnOk, IsTrue, None, is_some, true, length, slice_get, Some, pos, negsuc, ◌≤ℤ◌, ◌+ℤ◌};
ghost use Rattle.std.specs.List.{IsDistinct};
ghost use Rattle.std.specs.Map.{keys_of};
ghost use Rattle.generations_rule.specs.Rule.{IsRule};
ghost use Rattle.tile_steps.specs.declared.tile.Tile.{Tile};
ghost use Rattle.tile_steps.specs.Tiles.{AllInside, AllRight, AreLater, AreSettledAround, corner_from, IsInside, IsOnOtherGrid, IsPut, IsRight, IsSettled, IsUnderWay, KeepsSettled, is_corner, state_of, tile_of, tile_state};
ghost use Rattle.tile_steps.specs.Causes.{AreFewest, IsNotPut, IsRefusedStep};

use crate::fault::TileFault;
use crate::tile::Tile;
use crate::tiles::{Corner, Tiles};
use crate::window::{WindowPlane, advance, load, middle};
use generations_rule::Rule;
use indexmap::IndexMap;
use std::alloc::Global;

/// A step of a map of tiles: the rule, how many generations, and for how many tiles there is room.
#[derive(Clone, Copy)]
pub(crate) struct Step<'a, const N: usize> {
    tiles: &'a Tiles<N>,
    rule: &'a Rule,
    generations: u32,
    room: usize,
}

/// The tiles of the other grid, so many generations later, at most 16, each that is not dead. `Full` is
/// answered where more of them than there is room for would not be dead, and `Far` where one of them would
/// lie within 128 of the least or the greatest coordinate.
pub fn later<const N: usize>(
    alloc: Global,
    tiles: &Tiles<N>,
    rule: &Rule,
    generations: u32,
    room: usize,
) -> Result<Tiles<N>, TileFault>
    requires few { (1 ≤ N) × (N ≤ 8) }
    requires enough { rule.now.states ≤ 2 ^ N }
    requires generations { generations ≤ 16 }
    requires inside { AllInside N tiles.now.map.entries }
    ensures later { IfOk result (λ new. AreLater N rule.now generations tiles.now.map.entries new.map.entries) }
    ensures inside { IfOk result (λ new. AllInside N new.map.entries) }
    ensures room { IfOk result (λ new. length new.map.entries ≤ room) }
    ensures fewest { IfOk result (λ new. AreFewest N rule.now generations 1 tiles.now.map.entries new.map.entries) }
    ensures cause { IfErr result (λ fault. IsRefusedStep N rule.now generations room tiles.now.map.entries fault) }
{
    // For the proof alone: the call tells that what is held is a rule.
    let _states = rule.states();
    let mut new = Tiles {
        map: IndexMap::with_hasher(alloc, *tiles.map.hasher()),
    };
    let mut work = [WindowPlane { rows: [0; 64] }; N];
    let mut other = [WindowPlane { rows: [0; 64] }; N];
    let step = Step {
        tiles,
        rule,
        generations,
        room,
    };
    for index in 0..tiles.map.len() {
        let corner = corner_at(tiles, index);
        settle_around(&step, &mut new, &mut work, &mut other, corner)?;
    }
    Ok(new)
}

/// Settles the four tiles of the other grid that overlap the tile at a corner.
fn settle_around<const N: usize>(
    step: &Step<'_, N>,
    new: &mut Tiles<N>,
    work: &mut [WindowPlane; N],
    other: &mut [WindowPlane; N],
    corner: Corner,
) -> Result<(), TileFault>
    requires few { (1 ≤ N) × (N ≤ 8) }
    requires enough { step.now.rule.now.states ≤ 2 ^ N }
    requires generations { step.now.generations ≤ 16 }
    requires corner { IsInside 128 corner }
    requires there { is_some (tile_of N step.now.tiles.now.map.entries corner) ≡ true }
    requires way { IsUnderWay N step.now.rule.now step.now.generations step.now.room step.now.tiles.now.map.entries new.old.map.entries }
    ensures way { OnOk result (IsUnderWay N step.now.rule.now step.now.generations step.now.room step.now.tiles.now.map.entries new.new.map.entries) }
    ensures around { OnOk result (AreSettledAround N step.now.rule.now step.now.generations step.now.tiles.now.map.entries new.new.map.entries corner) }
    ensures kept { OnOk result (KeepsSettled N step.now.rule.now step.now.generations step.now.tiles.now.map.entries new.old.map.entries new.new.map.entries) }
    ensures cause { IfErr result (λ fault. IsRefusedStep N step.now.rule.now step.now.generations step.now.room step.now.tiles.now.map.entries fault) }
{
    let north_west = beside(corner, -16, -16);
    settle(step, new, work, other, north_west)?;
    let north_east = beside(corner, 16, -16);
    settle(step, new, work, other, north_east)?;
    let south_west = beside(corner, -16, 16);
    settle(step, new, work, other, south_west)?;
    let south_east = beside(corner, 16, 16);
    settle(step, new, work, other, south_east)?;
    Ok(())
}

/// Settles the tile at a corner of the other grid: it is made, unless it is there or is dead.
fn settle<const N: usize>(
    step: &Step<'_, N>,
    new: &mut Tiles<N>,
    work: &mut [WindowPlane; N],
    other: &mut [WindowPlane; N],
    corner: Corner,
) -> Result<(), TileFault>
    requires few { (1 ≤ N) × (N ≤ 8) }
    requires enough { step.now.rule.now.states ≤ 2 ^ N }
    requires generations { step.now.generations ≤ 16 }
    requires corner { IsInside 112 corner }
    requires grid { IsOnOtherGrid N step.now.tiles.now.map.entries corner }
    requires way { IsUnderWay N step.now.rule.now step.now.generations step.now.room step.now.tiles.now.map.entries new.old.map.entries }
    ensures way { OnOk result (IsUnderWay N step.now.rule.now step.now.generations step.now.room step.now.tiles.now.map.entries new.new.map.entries) }
    ensures settled { OnOk result (IsSettled N step.now.rule.now step.now.generations step.now.tiles.now.map.entries new.new.map.entries corner) }
    ensures kept { OnOk result (KeepsSettled N step.now.rule.now step.now.generations step.now.tiles.now.map.entries new.old.map.entries new.new.map.entries) }
    ensures cause { IfErr result (λ fault. IsRefusedStep N step.now.rule.now step.now.generations step.now.room step.now.tiles.now.map.entries fault) }
{
    if is_there(new, corner) {
        return Ok(());
    }
    let tile = made(step, work, other, corner);
    if tile.is_dead() {
        return Ok(());
    }
    put_tile(new, step.room, corner, &tile)?;
    Ok(())
}

/// The tile at a corner of the other grid.
fn made<const N: usize>(
    step: &Step<'_, N>,
    work: &mut [WindowPlane; N],
    other: &mut [WindowPlane; N],
    corner: Corner,
) -> Tile<N>
    requires few { (1 ≤ N) × (N ≤ 8) }
    requires enough { step.now.rule.now.states ≤ 2 ^ N }
    requires generations { step.now.generations ≤ 16 }
    requires corner { IsInside 112 corner }
    ensures { IsRight N step.now.rule.now step.now.generations step.now.tiles.now.map.entries (Some result) corner }
{
    let dead = Tile::dead();
    let north_west = tile_at(step.tiles, &dead, beside(corner, -16, -16));
    let north_east = tile_at(step.tiles, &dead, beside(corner, 16, -16));
    let south_west = tile_at(step.tiles, &dead, beside(corner, -16, 16));
    let south_east = tile_at(step.tiles, &dead, beside(corner, 16, 16));
    load(work, north_west, north_east, south_west, south_east);
    advance(work, other, step.rule, step.generations);
    middle(work)
}

/// The corner so far to the right and down.
fn beside(corner: Corner, right: i32, down: i32) -> Corner
    requires corner { IsInside 112 corner }
    requires right { (negsuc 15 ≤ℤ right) × (right ≤ℤ pos 16) }
    requires down { (negsuc 15 ≤ℤ down) × (down ≤ℤ pos 16) }
    ensures { result ≡ corner_from corner right down }
{
    Corner {
        y: corner.y + down,
        x: corner.x + right,
    }
}

/// The tile at a corner, or the dead one.
fn tile_at<'a, const N: usize>(
    tiles: &'a Tiles<N>,
    dead: &'a Tile<N>,
    corner: Corner,
) -> &'a Tile<N>
    requires { (x y : ℕ) → x < 32 → y < 32 → tile_state N dead.now x y ≡ 0 }
    ensures { (x y : ℕ) → x < 32 → y < 32 → tile_state N result.now x y ≡ state_of N (tile_of N tiles.now.map.entries corner) x y }
{
    match tiles.map.get(&corner) {
        Some(tile) => tile,
        None => dead,
    }
}

/// The corner of a tile, in the order in which they were put.
pub(crate) fn corner_at<const N: usize>(tiles: &Tiles<N>, index: usize) -> Corner
    requires { index < length tiles.now.map.entries }
    ensures { (tile : Tile N) × (slice_get tiles.now.map.entries index ≡ Some (result, tile)) }
{
    match tiles.map.get_index(index) {
        Some((corner, _)) => *corner,
        None => unreachable!(),
    }
}

fn is_there<const N: usize>(tiles: &Tiles<N>, corner: Corner) -> bool
    ensures { result ≡ is_some (tile_of N tiles.now.map.entries corner) }
{
    tiles.map.contains_key(&corner)
}

/// Puts a tile at a corner where none is.
fn put_tile<const N: usize>(
    tiles: &mut Tiles<N>,
    room: usize,
    corner: Corner,
    tile: &Tile<N>,
) -> Result<(), TileFault>
    requires { tile_of N tiles.old.map.entries corner ≡ None }
    ensures put { OnOk result (IsPut N tiles.old.map.entries tiles.new.map.entries corner tile.now) }
    ensures room { OnOk result (length tiles.old.map.entries < room) }
    ensures inside { OnOk result (IsInside 128 corner) }
    ensures once { OnOk result (IsDistinct is_corner (keys_of tiles.new.map.entries)) }
    ensures cause { IfErr result (λ fault. IsNotPut N room tiles.old.map.entries corner fault) }
{
    if room <= tiles.map.len() {
        return Err(TileFault::Full);
    }
    if !is_inside(corner) {
        return Err(TileFault::Far);
    }
    match tiles.map.insert(corner, *tile) {
        Ok(_) => Ok(()),
        Err(_) => Err(TileFault::Memory),
    }
}

/// Whether a corner lies so far inside of 32 bits that its neighbours' neighbours do.
pub(crate) fn is_inside(corner: Corner) -> bool
    ensures { IsTrue result ↔ IsInside 128 corner }
{
    FIRST <= corner.x && corner.x <= LAST && FIRST <= corner.y && corner.y <= LAST
}

/// The least coordinate that a corner may have.
const FIRST: i32 = -0x7fff_ff80;

/// The greatest.
const LAST: i32 = 0x7fff_ff7f;
