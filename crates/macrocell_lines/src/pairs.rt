//! Squares one row on, as lines.

ghost use Rattle.std.specs.Prelude.{◌≡◌, ◌<◌, ◌≤◌, ◌+◌, ◌-◌, ◌/◌, ◌%◌, ℕ, true, Some, IfOk, OnOk, IsTrue, cond, slice_index, slice_index_or, length, if◌then◌else◌, nat_lt};
ghost use Rattle.indexmap.specs.IndexMap.{get};
ghost use Rattle.square_store.specs.Squares.{IsAt, grid_at};
ghost use Rattle.generation_engine.specs.EngineLeaf.{leaf_grid};
ghost use Rattle.macrocell_lines.specs.declared.lines.Pair.{Pair as AnyPair};
ghost use Rattle.macrocell_lines.specs.Squares.{StateSquare, is_dead};
ghost use Rattle.macrocell_lines.specs.Listing.{IsWalked, is_pair};
ghost use Rattle.macrocell_lines.specs.Raised.{square_of_pair};

use crate::block::Block;
use crate::line::Line;
use crate::lines::{Lines, Pair};
use bitplane_kernel::BitLeaf;
use generation_engine::EngineLeaf;
use square_store::{Part, Square, Store};
use std::alloc::AllocError;

/// The level of a leaf, which has 8 columns and rows.
pub(crate) const LEAF_LEVEL: u32 = 3;

impl Pair {
    /// A pair of squares of the level below.
    fn below(self, upper: Part, lower: Part) -> Pair
        requires { 0 < self.level }
        ensures { result ≡ record { level = self.level - 1; upper = upper; lower = lower } }
    {
        Pair {
            level: self.level - 1,
            upper,
            lower,
        }
    }
}

impl Lines {
    /// What stands for the square one row on of a pair. Its squares are put where they are new, those of
    /// its quarters first; a pair that was walked over is looked up.
    pub(crate) fn number_of_pair(
        &mut self,
        store: &Store<EngineLeaf>,
        of_two: bool,
        pair: Pair,
    ) -> Result<usize, AllocError>
        requires level { pair.level ≤ 30 }
        requires upper { IsAt store.now pair.level pair.upper }
        requires lower { IsAt store.now pair.level pair.lower }
        ensures { IfOk result (IsWalked of_two (square_of_pair store.now) self.old self.new (square_of_pair store.now pair)) }
    {
        if are_blank(store, pair) {
            return Ok(0);
        }
        if let Some(number) = self.numbers.get(&pair) {
            return Ok(*number);
        }
        if pair.level == 0 {
            let number = self.number_of_leaf(store, of_two, pair)?;
            return self.note(pair, number);
        }
        let above = store.quarters(pair.level, pair.upper);
        let below = store.quarters(pair.level, pair.lower);
        let nw = self.number_of_pair(store, of_two, pair.below(above[0], above[2]))?;
        let ne = self.number_of_pair(store, of_two, pair.below(above[1], above[3]))?;
        let sw = self.number_of_pair(store, of_two, pair.below(above[2], below[0]))?;
        let se = self.number_of_pair(store, of_two, pair.below(above[3], below[1]))?;
        let number = self.put(Line::Four {
            level: pair.level + LEAF_LEVEL,
            nw,
            ne,
            sw,
            se,
        })?;
        self.note(pair, number)
    }

    /// The same of leaves.
    fn number_of_leaf(
        &mut self,
        store: &Store<EngineLeaf>,
        of_two: bool,
        pair: Pair,
    ) -> Result<usize, AllocError>
        requires level { pair.level ≡ 0 }
        requires upper { IsAt store.now 0 pair.upper }
        requires lower { IsAt store.now 0 pair.lower }
        ensures { IfOk result (IsWalked of_two (square_of_pair store.now) self.old self.new (square_of_pair store.now pair)) }
    {
        let upper = states_at(store, pair.upper);
        let lower = states_at(store, pair.lower);
        let states = one_row_on(&upper, &lower);
        if of_two {
            return self.put(Line::Leaf(BitLeaf::of_states(&states)));
        }
        let whole = Block {
            level: LEAF_LEVEL,
            column: 0,
            row: 0,
        };
        self.number_of_block(&states, whole)
    }

    /// Notes what stands for a pair.
    fn note(&mut self, pair: Pair, number: usize) -> Result<usize, AllocError>
        ensures number { IfOk result (λ n. n ≡ number) }
        ensures lines { OnOk result (self.new.lines ≡ self.old.lines) }
        ensures noted { OnOk result ((other : AnyPair) → get is_pair self.new.numbers other ≡ cond (is_pair pair other) (Some number) (get is_pair self.old.numbers other)) }
    {
        match self.numbers.insert(pair, number) {
            Ok(_) => Ok(number),
            Err(_) => Err(AllocError),
        }
    }
}

/// Whether both squares are blanks.
fn are_blank(store: &Store<EngineLeaf>, pair: Pair) -> bool
    requires upper { IsAt store.now pair.level pair.upper }
    requires lower { IsAt store.now pair.level pair.lower }
    ensures { IsTrue result → is_dead (square_of_pair store.now pair) ≡ true }
{
    match (store.square(pair.upper), store.square(pair.lower)) {
        (Square::Blank(_), Square::Blank(_)) => true,
        _ => false,
    }
}

/// The states of the leaf at a part of level 0, row by row.
pub(crate) fn states_at(store: &Store<EngineLeaf>, part: Part) -> [u8; 64]
    requires { IsAt store.now 0 part }
    ensures { (i : ℕ) → i < 64 → slice_index result i ≡ (grid_at leaf_grid 8 store.now 0 part (i % 8) (i / 8)).state }
{
    match store.square(part) {
        Square::Blank(_) => no_states(),
        Square::Leaf(leaf) => states_of(&leaf.leaf),
        Square::Four { .. } => unreachable!(),
    }
}

/// 64 times the state 0.
fn no_states() -> [u8; 64]
    ensures { (i : ℕ) → i < 64 → slice_index result i ≡ 0 }
{
    [0; 64]
}

/// The states of a leaf, row by row.
fn states_of(leaf: &BitLeaf) -> [u8; 64]
    ensures { (i : ℕ) → i < 64 → slice_index result i ≡ slice_index leaf.now i }
{
    let mut states = [0; 64];
    for i in 0..64 {
        states[i] = leaf.get(i);
    }
    states
}

/// All rows of the upper leaf but the first, and the first of the lower one.
fn one_row_on(upper: &[u8; 64], lower: &[u8; 64]) -> [u8; 64]
    ensures count { length result ≡ 64 }
    ensures states { (i : ℕ) → i < 64 → slice_index result i ≡ (if nat_lt i 56 then slice_index upper.now (i + 8) else slice_index lower.now (i - 56)) }
{
    let mut states = [0; 64];
    for i in 0..64 {
        states[i] = if i < 56 { upper[i + 8] } else { lower[i - 56] };
    }
    states
}
