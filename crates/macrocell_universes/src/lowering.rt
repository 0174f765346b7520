//! Squares one row further down, each distinct one once.

ghost use Rattle.std.specs.Prelude.{◌≡◌, ◌≤◌, ◌<◌, ◌-◌, ℕ, [], true, cond, IfOk, OnOk, Err, None, Some};
ghost use Rattle.indexmap.specs.IndexMap.{get};
ghost use Rattle.square_store.specs.Store.{nothing_held};
ghost use Rattle.macrocell_text.specs.Macrocells.{AreLevelled, AreSquares, are_entries, squares_of};
ghost use Rattle.macrocell_universes.specs.declared.lowering.Pair.{Pair as AnyPair};
ghost use Rattle.macrocell_universes.specs.Lowered.{AreNoted, IsFullBefore, IsLowered, is_pair, lowered_pair, numbered_above};
ghost use Rattle.macrocell_universes.specs.Numbered.{AreQuarters, IsNumbered};

use crate::leaf::lowered_states;
use crate::quarters::{Cut, Numbered, Quarters, one_step};
use bitplane_kernel::BitLeaf;
use generation_engine::EngineLeaf;
use indexmap::IndexMap;
use keyed_hash::HashKey;
use macrocell_text::Entry;
use square_store::{Limits, Part, Store, StoreFault};
use std::alloc::Global;

/// The level of a leaf, which has 8 columns and rows.
pub(crate) const LEAF_LEVEL: u8 = 3;

/// Two squares of a level above a leaf, one above the other, by what stands for them: together the square one row
/// further down.
#[derive(Clone, Copy, PartialEq, Eq, Hash)]
pub(crate) struct Pair {
    pub level: u8,
    pub upper: u32,
    pub lower: u32,
}

impl Pair {
    /// Its upper square, and its lower one.
    fn squares(self) -> (Numbered, Numbered)
        requires { self.level ≤ 60 }
        ensures { result ≡ (numbered_above self.level self.upper, numbered_above self.level self.lower) }
    {
        let level = self.level + LEAF_LEVEL;
        (
            Numbered {
                level,
                number: self.upper as usize,
            },
            Numbered {
                level,
                number: self.lower as usize,
            },
        )
    }

    /// A pair of the level below.
    fn below(self, upper: u32, lower: u32) -> Pair
        requires { 0 < self.level }
        ensures { result ≡ record { level = self.level - 1; upper = upper; lower = lower } }
    {
        Pair {
            level: self.level - 1,
            upper,
            lower,
        }
    }
}

/// A store of squares, and the pairs that stand in it one row further down.
pub(crate) struct Lowering {
    pub store: Store<EngineLeaf>,
    pub notes: IndexMap<Pair, Part, HashKey>,
}

/// By hand, so that a caller's proof sees one step where they are dropped.
impl Drop for Lowering {
    fn drop(self) {
        let Lowering { store: _, notes: _ } = self;
    }
}

impl Lowering {
    /// None.
    pub(crate) fn new(alloc: Global, limits: Limits) -> Lowering
        ensures store { result.store ≡ nothing_held limits.room }
        ensures notes { (pair : AnyPair) → get is_pair result.notes pair ≡ None }
    {
        let store = Store::new(alloc, limits);
        Lowering {
            store,
            notes: IndexMap::with_hasher(alloc, limits.key),
        }
    }

    /// The store alone.
    pub(crate) fn into_store(self) -> Store<EngineLeaf>
        ensures { result ≡ self.store }
    {
        let Lowering { store, notes: _ } = self;
        store
    }

    /// A pair one row further down. One that was noted is looked up, so time goes by distinct pairs.
    pub(crate) fn lower(&mut self, entries: &[Entry], pair: Pair) -> Result<Part, StoreFault>
        requires squares { AreSquares (squares_of entries.now) }
        requires levels { AreLevelled entries.now }
        requires entries { are_entries entries.now ≡ true }
        requires noted { AreNoted entries.now self.old }
        requires level { pair.level ≤ 60 }
        requires upper { IsNumbered entries.now (numbered_above pair.level pair.upper) }
        requires lower { IsNumbered entries.now (numbered_above pair.level pair.lower) }
        ensures lowered { IfOk result (IsLowered entries.now self.old self.new pair) }
        ensures full { result ≡ Err StoreFault.StoreFull → IsFullBefore self.old.store self.new.store pair.level (lowered_pair entries.now pair) }
    {
        if let Some(part) = self.notes.get(&pair) {
            return Ok(*part);
        }
        let (upper, lower) = pair.squares();
        if pair.level == 0 {
            let states = lowered_states(entries, upper, lower);
            let part = self.store.add_leaf(EngineLeaf {
                leaf: BitLeaf::of_states(&states),
            })?;
            return self.note(pair, part);
        }
        let above = quarters_of(entries, upper);
        let below = quarters_of(entries, lower);
        let nw = self.lower(entries, pair.below(above.sw, below.nw))?;
        let ne = self.lower(entries, pair.below(above.se, below.ne))?;
        let sw = self.lower(entries, pair.below(below.nw, below.sw))?;
        let se = self.lower(entries, pair.below(below.ne, below.se))?;
        let part = self
            .store
            .add_four(u32::from(pair.level), [nw, ne, sw, se])?;
        self.note(pair, part)
    }

    /// Notes where a pair stands.
    fn note(&mut self, pair: Pair, part: Part) -> Result<Part, StoreFault>
        ensures part { IfOk result (λ p. p ≡ part) }
        ensures store { OnOk result (self.new.store ≡ self.old.store) }
        ensures noted { OnOk result ((other : AnyPair) → get is_pair self.new.notes other ≡ cond (is_pair pair other) (Some part) (get is_pair self.old.notes other)) }
        ensures memory { result ≡ Err StoreFault.StoreFull → ⊥ }
    {
        match self.notes.insert(pair, part) {
            Ok(_) => Ok(part),
            Err(_) => Err(StoreFault::Memory),
        }
    }
}

/// What stands for the quarters of a square of a level above 3.
pub(crate) fn quarters_of(entries: &[Entry], square: Numbered) -> Quarters
    requires squares { AreSquares (squares_of entries.now) }
    requires levels { AreLevelled entries.now }
    requires entries { are_entries entries.now ≡ true }
    requires level { 3 < square.level }
    requires is { IsNumbered entries.now square }
    ensures { AreQuarters entries.now square result }
{
    match one_step(entries, square) {
        Cut::Four(four) => four,
        Cut::Rows(_) => unreachable!(),
    }
}
