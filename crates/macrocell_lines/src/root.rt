//! The root of a macrocell: a square about the middle of a universe, one row on.

ghost use Rattle.std.specs.Prelude.{◌≡◌, ◌<◌, ◌≤◌, ◌-◌, ◌/◌, ◌%◌, ◌^◌, ℕ, IfOk, IsTrue, slice_index};
ghost use Rattle.square_store.specs.Squares.{IsAt};
ghost use Rattle.macrocell_lines.specs.Squares.{square_of};
ghost use Rattle.macrocell_lines.specs.Listing.{IsWalked};
ghost use Rattle.macrocell_lines.specs.Raised.{square_of_pair};
ghost use Rattle.macrocell_lines.specs.Middle.{AreMiddleLeaves, states_about};

use crate::block::{Block, half_of};
use crate::line::Line;
use crate::lines::{Lines, Pair};
use crate::middle::middle_of;
use crate::pairs::{LEAF_LEVEL, states_at};
use generation_engine::EngineLeaf;
use square_store::{Part, Store};
use std::alloc::AllocError;

impl Lines {
    /// What stands for the square of a level about the middle of a universe, one row on. Of two states it has
    /// at least four leaves.
    pub(crate) fn number_of_root(
        &mut self,
        store: &Store<EngineLeaf>,
        of_two: bool,
        root: Part,
        level: u32,
    ) -> Result<usize, AllocError>
        requires root { IsAt store.now 30 root }
        requires least { 1 ≤ level }
        requires most { level ≤ 32 }
        requires two { IsTrue of_two → 4 ≤ level }
        ensures { IfOk result (IsWalked of_two (square_of_pair store.now) self.old self.new (square_of level (states_about store.now root (2 ^ (level - 1))))) }
    {
        if level > LEAF_LEVEL {
            return self.number_of_squares(store, of_two, root, level);
        }
        let states = states_in_middle(store, root);
        let corner = 4 - half_of(level);
        let block = Block {
            level,
            column: corner,
            row: corner,
        };
        self.number_of_block(&states, block)
    }

    /// The same of a square that has at least four leaves.
    fn number_of_squares(
        &mut self,
        store: &Store<EngineLeaf>,
        of_two: bool,
        root: Part,
        level: u32,
    ) -> Result<usize, AllocError>
        requires root { IsAt store.now 30 root }
        requires least { 4 ≤ level }
        requires most { level ≤ 32 }
        ensures { IfOk result (IsWalked of_two (square_of_pair store.now) self.old self.new (square_of level (states_about store.now root (2 ^ (level - 1))))) }
    {
        let middle = middle_of(store, root, level - LEAF_LEVEL);
        let upper_left = store.quarters(middle.level, middle.nw);
        let upper_right = store.quarters(middle.level, middle.ne);
        let left = store.quarters(middle.level, middle.sw);
        let right = store.quarters(middle.level, middle.se);
        let below = middle.level - 1;
        let nw = self.number_of_pair(store, of_two, pair(below, upper_left[3], left[1]))?;
        let ne = self.number_of_pair(store, of_two, pair(below, upper_right[2], right[0]))?;
        let sw = self.number_of_pair(store, of_two, pair(below, left[1], left[3]))?;
        let se = self.number_of_pair(store, of_two, pair(below, right[0], right[2]))?;
        self.put(Line::Four {
            level,
            nw,
            ne,
            sw,
            se,
        })
    }
}

fn pair(level: u32, upper: Part, lower: Part) -> Pair
    ensures { result ≡ record { level = level; upper = upper; lower = lower } }
{
    Pair {
        level,
        upper,
        lower,
    }
}

/// The states of four leaves about the middle of a universe, each row by row.
#[derive(Drop)]
pub(crate) struct MiddleLeaves {
    pub nw: [u8; 64],
    pub ne: [u8; 64],
    pub sw: [u8; 64],
    pub se: [u8; 64],
}

fn leaves_in_middle(store: &Store<EngineLeaf>, root: Part) -> MiddleLeaves
    requires { IsAt store.now 30 root }
    ensures { AreMiddleLeaves store.now root result }
{
    let middle = middle_of(store, root, 0);
    MiddleLeaves {
        nw: states_at(store, middle.nw),
        ne: states_at(store, middle.ne),
        sw: states_at(store, middle.sw),
        se: states_at(store, middle.se),
    }
}

/// The 8 by 8 states about the middle of a universe, one row on, row by row.
fn states_in_middle(store: &Store<EngineLeaf>, root: Part) -> [u8; 64]
    requires { IsAt store.now 30 root }
    ensures { (i : ℕ) → i < 64 → slice_index result i ≡ states_about store.now root 4 (i % 8) (i / 8) }
{
    let leaves = leaves_in_middle(store, root);
    let mut states = [0; 64];
    for i in 0..64 {
        states[i] = state_about(store, root, &leaves, i);
    }
    states
}

/// The state at a place of them. The universe and its root are named in the contract alone.
fn state_about(store: &Store<EngineLeaf>, root: Part, leaves: &MiddleLeaves, i: usize) -> u8
    requires leaves { AreMiddleLeaves store.now root leaves.now }
    requires place { i < 64 }
    ensures { result ≡ states_about store.now root 4 (i % 8) (i / 8) }
{
    let _ = store;
    let _ = root;
    let is_left = i % 8 < 4;
    let is_above = i / 8 < 3;
    if is_above {
        if is_left {
            leaves.nw[i + 44]
        } else {
            leaves.ne[i + 36]
        }
    } else if is_left {
        leaves.sw[i - 20]
    } else {
        leaves.se[i - 28]
    }
}
