//! Tiles by where they lie.

ghost use Rattle.std.specs.Prelude.{◌≡◌, ℕ, ◌<◌, ◌↔◌, IsTrue, IfSome, IfNone, Some, length, slice_get};
ghost use Rattle.tile_steps.specs.declared.tile.Tile.{Tile};
ghost use Rattle.tile_steps.specs.Tiles.{AllInside, state_of, tile_of, tile_state};

use crate::step::{corner_at, is_inside};
use crate::tile::Tile;
use indexmap::IndexMap;
use keyed_hash::HashKey;
use std::alloc::Global;

/// The place of a tile's first cell.
#[derive(Clone, Copy, PartialEq, Eq, Hash)]
pub struct Corner {
    /// Its row.
    pub y: i32,
    /// Its column.
    pub x: i32,
}

/// Tiles, at the corners of a grid of 32 columns and rows. Where there is none, all cells are dead.
pub struct Tiles<const N: usize> {
    pub(crate) map: IndexMap<Corner, Tile<N>, HashKey>,
}

/// By hand, so that a caller's proof sees one step where tiles are dropped.
impl<const N: usize> Drop for Tiles<N> {
    fn drop(self) {
        let Tiles { map: _ } = self;
    }
}

impl<const N: usize> Tiles<N> {
    /// No tile: all cells are dead. Tiles are found by the key's hashes.
    pub fn new(alloc: Global, key: HashKey) -> Tiles<N>
        ensures { length result.map.entries ≡ 0 }
    {
        Tiles {
            map: IndexMap::with_hasher(alloc, key),
        }
    }

    /// Whether all tiles lie so far inside of 32 bits that they can be run: at 128 or more from the least and
    /// the greatest coordinate.
    pub fn are_inside(&self) -> bool
        ensures { IsTrue result ↔ AllInside N self.now.map.entries }
    {
        for index in 0..self.map.len() {
            if !is_inside(corner_at(self, index)) {
                return false;
            }
        }
        true
    }

    /// How many tiles there are.
    pub fn len(&self) -> usize
        ensures { result ≡ length self.now.map.entries }
    {
        self.map.len()
    }

    /// The corner of a tile, by how many were put before it.
    pub fn corner(&self, index: usize) -> Corner
        requires { index < length self.now.map.entries }
        ensures { (tile : Tile N) × (slice_get self.now.map.entries index ≡ Some (result, tile)) }
    {
        corner_at(self, index)
    }

    /// The tile at a corner, if there is one.
    pub fn tile(&self, corner: Corner) -> Option<&Tile<N>>
        ensures some { IfSome result (λ tile. (x y : ℕ) → x < 32 → y < 32 → tile_state N tile.now x y ≡ state_of N (tile_of N self.now.map.entries corner) x y) }
        ensures none { IfNone result ((x y : ℕ) → x < 32 → y < 32 → state_of N (tile_of N self.now.map.entries corner) x y ≡ 0) }
    {
        self.map.get(&corner)
    }
}
