//! Leaves, and how two merge.

ghost use Rattle.std.specs.Hash as fed;
ghost use Rattle.std.specs.List.{flat_map, fold};
ghost use Rattle.leaf_merge_lanes.specs.Same.{words_of};
ghost use Rattle.std.specs.Prelude.{◌≡◌, ◌<◌, ◌↔◌, slice_get, slice_set, replicate, Some, IsTrue, IfSome, IfNone, ℕ};

use crate::{bounds, lanes};
use stamped_writes::Write;
use std::hash::{Hash, Hasher};
use std::marker::Model;
use std::simd::prelude::*;

/// 8 by 8 writes, row by row: the write in a row and a column stands at place 8 * row + column.
///
/// Each place is a last-writer-wins register (Shapiro et al., INRIA RR-7506).
#[derive(Clone, Copy, Debug)]
pub struct Leaf {
    stamps: [u64; 64],
    states: [u8; 64],
}

impl Model for Leaf {
    ghost use Rattle.std.specs.Prelude.{◌≡◌, List, length};
    ghost use Rattle.stamped_writes.specs.declared.write.Write.{Write};
    ghost use Rattle.leaf_merge_lanes.specs.Lanes.{zip2};
    ghost use Rattle.leaf_merge_lanes.specs.Leaf.{write_of, stamps_of, states_of};
    ghost use Rattle.leaf_merge_lanes.specs.Same.{inside, split_zip};

    ghost Value = { List Write };

    ghost view = { λ l. zip2 write_of l.stamps l.states };

    ghost invariant = { λ l. (length l.stamps ≡ 64) × (length l.states ≡ 64) };

    ghost inverse = { λ writes. inside (stamps_of writes) (states_of writes) };

    ghost inverse_ok = { λ l h. split_zip l.stamps l.states h.0 h.1 };
}

impl Leaf {
    ghost use Rattle.stamped_writes.specs.Write.{greater};
    ghost use Rattle.leaf_merge_lanes.specs.Lanes.{zip2};
    ghost use Rattle.leaf_merge_lanes.specs.Leaf.{write_of, write_on_leaf, states_of, IsLeaf, AreBlank, AreMerged, AreAtMost, IsLeastOfStamps, IsGreatestOfStamps};

    /// A leaf whose every place holds state 0, written with one stamp; stamp 0 where nothing was
    /// written.
    pub fn blank(stamp: u64) -> Leaf
        ensures whole { result ≡ replicate 64 (write_of stamp 0) }
        ensures blank { AreBlank result stamp }
    {
        Leaf {
            stamps: [stamp; 64],
            states: [0; 64],
        }
    }

    /// The write at place i.
    pub fn get(&self, i: usize) -> Write
        requires { i < 64 }
        ensures leaf { IsLeaf self.now }
        ensures there { result ≡ write_on_leaf self.now i }
        ensures listed { slice_get self.now i ≡ Some result }
    {
        Write {
            stamp: self.stamps[i],
            state: self.states[i],
        }
    }

    /// The states, place by place.
    pub fn states(&self) -> [u8; 64]
        ensures { result ≡ states_of self.now }
    {
        self.states
    }

    /// The least and the greatest stamp of the 64.
    pub fn stamp_bounds(&self) -> (u64, u64)
        ensures least { IsLeastOfStamps self.now result.0 }
        ensures greatest { IsGreatestOfStamps self.now result.1 }
    {
        (bounds::least(&self.stamps), bounds::greatest(&self.stamps))
    }

    /// The stamp of all 64 places, where they have one and all states are 0.
    pub fn is_blank(&self) -> Option<u64>
        ensures some { IfSome result (AreBlank self.now) }
        ensures none { IfNone result ((t : ℕ) → ¬ AreBlank self.now t) }
    {
        let stamp = self.stamps[0];
        if *self == Leaf::blank(stamp) {
            Some(stamp)
        } else {
            None
        }
    }

    /// Whether a merge with `a` leaves `b` as it is.
    pub fn at_most(a: &Leaf, b: &Leaf) -> bool
        ensures { IsTrue result ↔ AreAtMost a.now b.now }
    {
        Leaf::merge(a, b) == *b
    }

    /// The write that wins at each place, as RR-7506 merges a register.
    pub fn merge(a: &Leaf, b: &Leaf) -> Leaf
        ensures leaves { IsLeaf a.now × IsLeaf b.now }
        ensures whole { result ≡ zip2 greater a.now b.now }
        ensures places { AreMerged a.now b.now result }
    {
        let a_stamps = u64x64::from_array(a.stamps);
        let b_stamps = u64x64::from_array(b.stamps);
        let stamps = lanes::greater(a_stamps, b_stamps);
        let a_states = lanes::unless_older(a_stamps, b_stamps, u8x64::from_array(a.states));
        let b_states = lanes::unless_older(b_stamps, a_stamps, u8x64::from_array(b.states));
        let states = lanes::greater_states(a_states, b_states);
        Leaf {
            stamps: stamps.to_array(),
            states: states.to_array(),
        }
    }

    /// Makes the write at place i this one, whichever is the greater.
    pub fn put(&mut self, i: usize, write: Write)
        requires { i < 64 }
        ensures { self.new ≡ slice_set self.old i write }
    {
        self.stamps[i] = write.stamp;
        self.states[i] = write.state;
    }
}

/// Two leaves are equal where all 64 writes are.
impl PartialEq for Leaf {
    ghost use Rattle.leaf_merge_lanes.specs.Same.{is_same, laws as the_laws};
    ghost use Rattle.std.specs.Cmp.{partial_equiv_from_equiv};

    ghost eq = { is_same };

    ghost laws = { partial_equiv_from_equiv the_laws };

    fn eq(&self, other: &Leaf) -> bool {
        lanes::are_same(
            u64x64::from_array(self.stamps),
            u64x64::from_array(other.stamps),
            u8x64::from_array(self.states),
            u8x64::from_array(other.states),
        )
    }
}

impl Eq for Leaf {
    ghost use Rattle.leaf_merge_lanes.specs.Same.{laws as the_laws};

    ghost laws = { the_laws };
}

/// The stamps, and then the states, eight to a number.
impl Hash for Leaf {
    ghost use Rattle.leaf_merge_lanes.specs.Same.{hash_writes, alike};

    ghost hash_input = { hash_writes };

    ghost respects_eq = { alike.fed };

    #[inline(always)]
    fn hash<H: Hasher>(&self, state: &mut H) {
        feed_rows(&self.stamps, state);
        feed(&words(&self.states), state);
    }
}

/// Feeds stamps, a row of eight at a time, so that a hasher of rows of eight has its branches done with when
/// it is compiled.
#[inline(always)]
fn feed_rows<H: Hasher>(stamps: &[u64; 64], state: &mut H)
    ensures { state.new ≡ fold H.write state.old (flat_map fed.u64 stamps.now) }
{
    for row in 0..8 {
        feed(&stamps[8 * row..8 * row + 8], state);
    }
}

#[inline(always)]
fn feed<H: Hasher>(numbers: &[u64], state: &mut H)
    ensures { state.new ≡ fold H.write state.old (flat_map fed.u64 numbers.now) }
{
    for number in numbers {
        state.write_u64(*number);
    }
}

/// The states, eight to a number.
#[inline(always)]
fn words(states: &[u8; 64]) -> [u64; 8]
    ensures { result ≡ words_of states.now }
{
    u64x8::from_le_bytes(u8x64::from_array(*states)).to_array()
}
