//! Tiles that are filled cell by cell.

ghost use Rattle.std.specs.Prelude.{◌≡◌, ◌⊎◌, ℕ, ◌<◌, ◌≤◌, ◌^◌, ◌∷◌, cond, length, pos, IfErr, IfOk, OnErr, OnOk, Some};
ghost use Rattle.std.specs.List.{IsDistinct};
ghost use Rattle.std.specs.Map.{keys_of};
ghost use Rattle.generations_rule.specs.Place.{Place, at_place};
ghost use Rattle.tile_steps.specs.Tiles.{HasTile, IsCornerOn, IsInTile, IsSplit, Shows, is_corner, state_of, tile_of, tile_state, with_state};

use crate::fault::TileFault;
use crate::tile::{Tile, set_state};
use crate::tiles::{Corner, Tiles};
use keyed_hash::HashKey;
use std::alloc::Global;

/// Tiles on the grid of the origin that are filled cell by cell. The tile that was written last is held
/// beside the others, so that cells side by side cost one look-up.
#[derive(Drop)]
pub struct Filling<const N: usize> {
    tiles: Tiles<N>,
    corner: Corner,
    tile: Tile<N>,
}

impl<const N: usize> Filling<N> {
    /// All cells are dead. Tiles are found by the key's hashes.
    pub fn new(alloc: Global, key: HashKey) -> Filling<N>
        ensures shows { Shows N 0 ((result.corner, result.tile) ∷ result.tiles.map.entries) (λ _. 0) }
        ensures corner { (result.corner.x ≡ pos 0) × (result.corner.y ≡ pos 0) }
        ensures none { length result.tiles.map.entries ≡ 0 }
    {
        Filling {
            tiles: Tiles::new(alloc, key),
            corner: Corner { y: 0, x: 0 },
            tile: Tile::dead(),
        }
    }

    /// Gives a cell a state. The only error is `Memory`, and then it holds what it held.
    pub fn put(&mut self, x: i32, y: i32, state: u8) -> Result<(), TileFault>
        requires few { N ≤ 8 }
        requires state { state < 2 ^ N }
        ensures put { OnOk result ((f : Place → ℕ) → Shows N 0 ((self.old.corner, self.old.tile) ∷ self.old.tiles.map.entries) f → Shows N 0 ((self.new.corner, self.new.tile) ∷ self.new.tiles.map.entries) (with_state f (at_place x y) state)) }
        ensures corners { OnOk result ((c : Corner) → HasTile N ((self.new.corner, self.new.tile) ∷ self.new.tiles.map.entries) c → HasTile N ((self.old.corner, self.old.tile) ∷ self.old.tiles.map.entries) c ⊎ IsInTile x y c) }
        ensures same { OnErr result ((self.new.corner ≡ self.old.corner) × (self.new.tile ≡ self.old.tile) × (self.new.tiles.map.entries ≡ self.old.tiles.map.entries)) }
        ensures cause { IfErr result (λ fault. fault ≡ TileFault.Memory) }
    {
        let column = split_of(x);
        let row = split_of(y);
        self.turn_to(Corner {
            y: row.first,
            x: column.first,
        })?;
        set_state(&mut self.tile.planes, column.offset, row.offset, state);
        Ok(())
    }

    /// The tiles. The only error is `Memory`.
    pub fn into_tiles(self) -> Result<Tiles<N>, TileFault>
        ensures tiles { IfOk result (λ tiles. (f : Place → ℕ) → Shows N 0 ((self.entry.corner, self.entry.tile) ∷ self.entry.tiles.map.entries) f → Shows N 0 tiles.map.entries f) }
        ensures corners { IfOk result (λ tiles. (c : Corner) → HasTile N tiles.map.entries c → HasTile N ((self.entry.corner, self.entry.tile) ∷ self.entry.tiles.map.entries) c) }
        ensures once { IfOk result (λ tiles. IsDistinct is_corner (keys_of tiles.map.entries)) }
        ensures cause { IfErr result (λ fault. fault ≡ TileFault.Memory) }
    {
        let Filling {
            mut tiles,
            corner,
            tile,
        } = self;
        store(&mut tiles, corner, &tile)?;
        Ok(tiles)
    }

    /// Holds the tile at a corner, and puts the one that was held among the others.
    fn turn_to(&mut self, corner: Corner) -> Result<(), TileFault>
        requires grid { IsCornerOn 0 corner }
        ensures shows { OnOk result ((f : Place → ℕ) → Shows N 0 ((self.old.corner, self.old.tile) ∷ self.old.tiles.map.entries) f → Shows N 0 ((self.new.corner, self.new.tile) ∷ self.new.tiles.map.entries) f) }
        ensures corners { OnOk result ((c : Corner) → HasTile N ((self.new.corner, self.new.tile) ∷ self.new.tiles.map.entries) c → HasTile N ((self.old.corner, self.old.tile) ∷ self.old.tiles.map.entries) c ⊎ (c ≡ corner)) }
        ensures corner { OnOk result (self.new.corner ≡ corner) }
        ensures same { OnErr result ((self.new.corner ≡ self.old.corner) × (self.new.tile ≡ self.old.tile) × (self.new.tiles.map.entries ≡ self.old.tiles.map.entries)) }
        ensures cause { IfErr result (λ fault. fault ≡ TileFault.Memory) }
    {
        if is_one_corner(corner, self.corner) {
            return Ok(());
        }
        store(&mut self.tiles, self.corner, &self.tile)?;
        self.tile = found(&self.tiles, corner);
        self.corner = corner;
        Ok(())
    }
}

fn is_one_corner(a: Corner, b: Corner) -> bool
    ensures { result ≡ is_corner a b }
{
    a == b
}

/// The tile at a corner, or a dead one.
fn found<const N: usize>(tiles: &Tiles<N>, corner: Corner) -> Tile<N>
    ensures { (x y : ℕ) → x < 32 → y < 32 → tile_state N result x y ≡ state_of N (tile_of N tiles.now.map.entries corner) x y }
{
    match tiles.map.get(&corner) {
        Some(tile) => *tile,
        None => Tile::dead(),
    }
}

/// Puts a tile at a corner.
fn store<const N: usize>(
    tiles: &mut Tiles<N>,
    corner: Corner,
    tile: &Tile<N>,
) -> Result<(), TileFault>
    ensures stored { OnOk result ((q : Corner) → tile_of N tiles.new.map.entries q ≡ cond (is_corner corner q) (Some tile.now) (tile_of N tiles.old.map.entries q)) }
    ensures once { OnOk result (IsDistinct is_corner (keys_of tiles.new.map.entries)) }
    ensures same { OnErr result (tiles.new.map.entries ≡ tiles.old.map.entries) }
    ensures cause { IfErr result (λ fault. fault ≡ TileFault.Memory) }
{
    match tiles.map.insert(corner, *tile) {
        Ok(_) => Ok(()),
        Err(_) => Err(TileFault::Memory),
    }
}

/// Where the tile of a coordinate begins, on the grid of the origin, and how far from there it is.
#[derive(Clone, Copy)]
struct Split {
    first: i32,
    offset: usize,
}

fn split_of(n: i32) -> Split
    ensures { IsSplit n result.first result.offset }
{
    let from_least = (i64::from(n) + 0x8000_0000) as u32;
    let offset = from_least % 32;
    Split {
        first: (i64::from(n) - i64::from(offset)) as i32,
        offset: offset as usize,
    }
}
