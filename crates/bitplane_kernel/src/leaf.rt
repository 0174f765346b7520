//! A leaf of 8 by 8 cells.

ghost use Rattle.std.specs.Prelude.{◌≡◌, ℕ, ◌<◌, ◌↔◌, IsTrue, length, slice_index};
ghost use Rattle.std.specs.Int.{bit_at};
ghost use Rattle.bitplane_kernel.specs.Planes.{leaf_states};

use std::hash::{Hash, Hasher};
use std::marker::Model;
use std::simd::prelude::*;

/// The states of 8 by 8 cells, row by row.
#[derive(Clone, Copy, Debug)]
pub struct BitLeaf {
    planes: [u64; 8],
}

impl Model for BitLeaf {
    ghost use Rattle.std.specs.Prelude.{List, ℕ};
    ghost use Rattle.bitplane_kernel.specs.Planes.{leaf_states};
    ghost use Rattle.bitplane_kernel.specs.Same.{ArePlanes, inside, inside_back, planes_of};

    ghost Value = { List ℕ };

    ghost view = { λ l. leaf_states l.planes };

    ghost invariant = { λ l. ArePlanes l.planes };

    ghost inverse = { λ states. inside (planes_of states) };

    ghost inverse_ok = { λ l h. inside_back l.planes h };
}

impl BitLeaf {
    ghost use Rattle.bitplane_kernel.specs.Population.{AreDead, population};
    ghost use Rattle.bitplane_kernel.specs.Square.{state_at};

    /// The leaf of 64 states, row by row.
    pub fn of_states(states: &[u8; 64]) -> BitLeaf
        ensures { result ≡ states.now }
    {
        let states = u8x64::from_array(*states);
        let mut planes = [0; 8];
        for p in 0..8 {
            planes[p] = digits(states, p);
        }
        BitLeaf::of_planes(planes)
    }

    /// The state of cell i, row by row.
    pub fn get(&self, i: usize) -> u8
        requires { i < 64 }
        ensures { result ≡ slice_index self.now i }
    {
        let mut state = 0u8;
        for p in 0..8 {
            if self.planes[p] >> i & 1 == 1 {
                state += 1 << p;
            }
        }
        state
    }

    /// Whether all 64 cells are in state 0.
    pub fn is_dead(&self) -> bool
        ensures dead { IsTrue result ↔ AreDead self.now }
        ensures side { length self.now ≡ 64 }
    {
        are_same(&self.planes, &[0; 8])
    }

    /// How many of the 64 cells are in another state than 0.
    pub fn population(&self) -> u32
        ensures { result ≡ population 8 (state_at 8 self.now) }
    {
        let mut any = 0u64;
        for p in 0..8 {
            any |= self.planes[p];
        }
        any.count_ones()
    }

    pub(crate) fn of_planes(planes: [u64; 8]) -> BitLeaf
        ensures { result ≡ leaf_states planes }
    {
        BitLeaf { planes }
    }

    /// Plane p, cell i in bit i.
    pub(crate) fn plane(&self, p: usize) -> u64
        requires { p < 8 }
        ensures digits { (i : ℕ) → i < 64 → bit_at result i ≡ bit_at (slice_index self.now i) p }
        ensures below { (i : ℕ) → i < 64 → slice_index self.now i < 256 }
    {
        self.planes[p]
    }
}

/// Two leaves are equal where all 64 states are.
impl PartialEq for BitLeaf {
    ghost use Rattle.bitplane_kernel.specs.Same.{is_same, laws as the_laws};
    ghost use Rattle.std.specs.Cmp.{partial_equiv_from_equiv};

    ghost eq = { is_same };

    ghost laws = { partial_equiv_from_equiv the_laws };

    fn eq(&self, other: &BitLeaf) -> bool {
        are_same(&self.planes, &other.planes)
    }
}

impl Eq for BitLeaf {
    ghost use Rattle.bitplane_kernel.specs.Same.{laws as the_laws};

    ghost laws = { the_laws };
}

/// The planes, one by one.
impl Hash for BitLeaf {
    ghost use Rattle.bitplane_kernel.specs.Same.{hash_planes, alike};

    ghost hash_input = { hash_planes };

    ghost respects_eq = { alike.fed };

    fn hash<H: Hasher>(&self, state: &mut H) {
        self.planes.hash(state);
    }
}

fn are_same(a: &[u64; 8], b: &[u64; 8]) -> bool
    ensures { IsTrue result ↔ (a.now ≡ b.now) }
{
    *a == *b
}

/// The digit of worth 2 ^ p of each state, cell i in bit i.
fn digits(states: u8x64, p: usize) -> u64
    requires { p < 8 }
    ensures { (i : ℕ) → i < 64 → bit_at result i ≡ bit_at (slice_index states i) p }
{
    let worth = u8x64::splat(1 << p);
    (states & worth).simd_eq(worth).to_bitmask()
}
