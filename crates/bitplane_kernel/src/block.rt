//! A block of 16 by 16 cells.

ghost use Rattle.std.specs.Prelude.{◌≡◌, ◌⊎◌, ◌<◌, ◌*◌, length};
ghost use Rattle.bitplane_kernel.specs.Square.{state_at, IsJoined, IsCentre};
ghost use Rattle.bitplane_kernel.specs.Advance.{Advances};

use crate::leaf::BitLeaf;
use crate::planes::BitPlane;
use crate::quarters::{joined, middle};
use crate::step::step;
use generations_rule::Rule;
use std::marker::Model;
use std::simd::prelude::*;

/// The states of 16 by 16 cells.
#[derive(Drop)]
pub struct Block {
    planes: [BitPlane; 8],
}

impl Model for Block {
    ghost use Rattle.std.specs.Prelude.{List, ℕ};
    ghost use Rattle.bitplane_kernel.specs.Planes.{block_states};

    ghost Value = { List ℕ };

    ghost view = { λ b. block_states b.planes };
}

impl Block {
    /// The block whose quarters are four leaves: north-west, north-east, south-west, south-east.
    pub fn from_leaves(nw: &BitLeaf, ne: &BitLeaf, sw: &BitLeaf, se: &BitLeaf) -> Block
        ensures states { IsJoined nw.now ne.now sw.now se.now result }
        ensures side { length result ≡ 256 }
    {
        let mut planes = [BitPlane {
            rows: u16x16::splat(0),
        }; 8];
        for p in 0..8 {
            planes[p].rows = joined(nw.plane(p), ne.plane(p), sw.plane(p), se.plane(p));
        }
        Block { planes }
    }

    /// The state in column x of row y, both from 0.
    pub fn get(&self, x: usize, y: usize) -> u8
        requires column { x < 16 }
        requires row { y < 16 }
        ensures { result ≡ state_at 16 self.now x y }
    {
        let mut state = 0u8;
        for p in 0..8 {
            if self.planes[p].rows.as_array()[y] >> x & 1 == 1 {
                state += 1 << p;
            }
        }
        state
    }

    /// One, two or four generations. The cells that lie g from the edge or further in are right in
    /// whatever map the block lies, if the map's states are below the rule's number of states; what
    /// becomes of the others is open.
    pub fn advance(&mut self, rule: &Rule, g: u8)
        requires { (g ≡ 1) ⊎ (g ≡ 2) ⊎ (g ≡ 4) }
        ensures states { Advances rule.now g self.old self.new }
        ensures side { length self.new ≡ 256 }
    {
        for done in 0..g {
            step(&mut self.planes, rule);
        }
    }

    /// The 8 by 8 cells in the middle.
    pub fn centre(&self) -> BitLeaf
        ensures states { IsCentre self.now result }
        ensures side { length result ≡ 64 }
    {
        let mut leaf = [0; 8];
        for p in 0..8 {
            leaf[p] = middle(self.planes[p].rows);
        }
        BitLeaf::of_planes(leaf)
    }
}
