//! The root of a macrocell in a universe.

ghost use Rattle.std.specs.Prelude.{◌≡◌, ◌≤◌, ◌<◌, ◌+◌, ◌-◌, ◌/◌, ◌%◌, ℕ, List, true, length, IfOk, OnOk, slice_index};
ghost use Rattle.generations_rule.specs.Place.{Place};
ghost use Rattle.macrocell_lines.specs.Middle.{half_universe};
ghost use Rattle.macrocell_text.specs.Macrocells.{AreLevelled, AreSquares, are_entries, squares_of};
ghost use Rattle.macrocell_text.specs.Maps.{map_of_root, map_of_squares};
ghost use Rattle.square_store.specs.Store.{IsGrown};
ghost use Rattle.generation_engine.specs.EngineLeaf.{leaf_grid};
ghost use Rattle.macrocell_universes.specs.Lowered.{AreNoted, IsLowered};
ghost use Rattle.macrocell_universes.specs.Middles.{AreAbout, IsBlock, IsMiddleOf, LiesInPlane, at_level, place_at};
ghost use Rattle.macrocell_universes.specs.Numbered.{IsNumbered, square_of};

use crate::lowering::{LEAF_LEVEL, Lowering, Pair};
use crate::middle::{Middle, middle_of};
use crate::quarters::{Numbered, entry_at};
use crate::state::{half_of, state_of};
use crate::widening::Parts;
use bitplane_kernel::BitLeaf;
use generation_engine::EngineLeaf;
use macrocell_text::Entry;
use square_store::{Part, Store, StoreFault};

/// What stands for the root: the last square line, or a square whose states are all 0 where there is none.
pub(crate) fn root_of(entries: &[Entry]) -> Numbered
    requires squares { AreSquares (squares_of entries.now) }
    requires levels { AreLevelled entries.now }
    requires entries { are_entries entries.now ≡ true }
    ensures is { IsNumbered entries.now result }
    ensures map { (c : Place) → map_of_root (square_of entries.now result) c ≡ map_of_squares (squares_of entries.now) c }
    ensures least { 1 ≤ result.level }
    ensures most { result.level ≤ 63 }
    ensures number { result.number ≡ length entries.now }
{
    let count = entries.len();
    if count == 0 {
        return Numbered {
            level: 1,
            number: 0,
        };
    }
    match entry_at(entries, count - 1) {
        Some(entry) => Numbered {
            level: entry.level(),
            number: count,
        },
        None => unreachable!(),
    }
}

impl Lowering {
    /// The squares about the middle of a universe that have the live cells of a root, which lie in the plane.
    pub(crate) fn about_middle(
        &mut self,
        entries: &[Entry],
        root: Numbered,
    ) -> Result<Parts, StoreFault>
        requires squares { AreSquares (squares_of entries.now) }
        requires levels { AreLevelled entries.now }
        requires entries { are_entries entries.now ≡ true }
        requires noted { AreNoted entries.now self.old }
        requires some { 1 ≤ root.level }
        requires is { IsNumbered entries.now root }
        requires plane { LiesInPlane (map_of_root (square_of entries.now root)) }
        ensures grows { OnOk result (IsGrown leaf_grid 8 self.old.store self.new.store) }
        ensures about { IfOk result (AreAbout (map_of_root (square_of entries.now root)) self.new.store) }
        ensures level { IfOk result (λ parts. parts.level < 29) }
    {
        if root.level <= LEAF_LEVEL {
            return leaves_about(&mut self.store, entries, root);
        }
        let middle = middle_of(entries, root);
        self.lower_middle(entries, root, middle)
    }

    /// Two squares of a level, one above the other, one row further down.
    fn lower_squares(
        &mut self,
        entries: &[Entry],
        level: u8,
        upper: u32,
        lower: u32,
    ) -> Result<Part, StoreFault>
        requires squares { AreSquares (squares_of entries.now) }
        requires levels { AreLevelled entries.now }
        requires entries { are_entries entries.now ≡ true }
        requires noted { AreNoted entries.now self.old }
        requires least { 3 ≤ level }
        requires most { level ≤ 63 }
        requires upper { IsNumbered entries.now (at_level level upper) }
        requires lower { IsNumbered entries.now (at_level level lower) }
        ensures { IfOk result (IsLowered entries.now self.old self.new (record { level = level - 3; upper = upper; lower = lower })) }
    {
        let pair = Pair {
            level: level - LEAF_LEVEL,
            upper,
            lower,
        };
        let part = self.lower(entries, pair)?;
        Ok(part)
    }

    /// The same of four squares about the middle of a macrocell. Their root is named in the contract alone.
    fn lower_middle(
        &mut self,
        entries: &[Entry],
        root: Numbered,
        middle: Middle,
    ) -> Result<Parts, StoreFault>
        requires squares { AreSquares (squares_of entries.now) }
        requires levels { AreLevelled entries.now }
        requires entries { are_entries entries.now ≡ true }
        requires noted { AreNoted entries.now self.old }
        requires least { 3 ≤ middle.level }
        requires most { middle.level ≤ 31 }
        requires middle { IsMiddleOf entries.now (map_of_root (square_of entries.now root)) middle }
        ensures grows { OnOk result (IsGrown leaf_grid 8 self.old.store self.new.store) }
        ensures about { IfOk result (AreAbout (map_of_root (square_of entries.now root)) self.new.store) }
        ensures level { IfOk result (λ parts. parts.level < 29) }
    {
        let _ = root;
        let level = middle.level;
        let four = middle.four;
        let nw = self.lower_squares(entries, level, 0, four.nw)?;
        let ne = self.lower_squares(entries, level, 0, four.ne)?;
        let sw = self.lower_squares(entries, level, four.nw, four.sw)?;
        let se = self.lower_squares(entries, level, four.ne, four.se)?;
        let below_sw = self.lower_squares(entries, level, four.sw, 0)?;
        let below_se = self.lower_squares(entries, level, four.se, 0)?;
        Ok(Parts {
            level: u32::from(level - LEAF_LEVEL),
            nw,
            ne,
            sw,
            se,
            below_sw,
            below_se,
        })
    }
}

/// The leaves about the middle of a universe that have the live cells of a root of level 3 at most.
fn leaves_about(
    store: &mut Store<EngineLeaf>,
    entries: &[Entry],
    root: Numbered,
) -> Result<Parts, StoreFault>
    requires squares { AreSquares (squares_of entries.now) }
    requires levels { AreLevelled entries.now }
    requires entries { are_entries entries.now ≡ true }
    requires some { 1 ≤ root.level }
    requires few { root.level ≤ 3 }
    requires is { IsNumbered entries.now root }
    ensures grows { OnOk result (IsGrown leaf_grid 8 store.old store.new) }
    ensures about { IfOk result (AreAbout (map_of_root (square_of entries.now root)) store.new) }
    ensures level { IfOk result (λ parts. parts.level < 29) }
{
    let nw = add_corner(store, entries, root, 0, 0)?;
    let ne = add_corner(store, entries, root, 8, 0)?;
    let sw = add_corner(store, entries, root, 0, 8)?;
    let se = add_corner(store, entries, root, 8, 8)?;
    let dead = store.add_blank(0)?;
    Ok(Parts {
        level: 0,
        nw,
        ne,
        sw,
        se,
        below_sw: dead,
        below_se: dead,
    })
}

/// The leaf from a column and a row of the 16 by 16 cells about the middle of a universe on.
fn add_corner(
    store: &mut Store<EngineLeaf>,
    entries: &[Entry],
    root: Numbered,
    column: u32,
    row: u32,
) -> Result<Part, StoreFault>
    requires squares { AreSquares (squares_of entries.now) }
    requires levels { AreLevelled entries.now }
    requires entries { are_entries entries.now ≡ true }
    requires some { 1 ≤ root.level }
    requires few { root.level ≤ 3 }
    requires is { IsNumbered entries.now root }
    requires column { column ≤ 8 }
    requires row { row ≤ 8 }
    ensures grows { IsGrown leaf_grid 8 store.old store.new }
    ensures block { IfOk result (IsBlock (map_of_root (square_of entries.now root)) store.new 0 (half_universe - 8 + column) (half_universe - 8 + row)) }
{
    let states = states_about(entries, root, column, row);
    let part = store.add_leaf(EngineLeaf {
        leaf: BitLeaf::of_states(&states),
    })?;
    Ok(part)
}

/// Its states, row by row.
fn states_about(entries: &[Entry], root: Numbered, column: u32, row: u32) -> [u8; 64]
    requires squares { AreSquares (squares_of entries.now) }
    requires levels { AreLevelled entries.now }
    requires entries { are_entries entries.now ≡ true }
    requires some { 1 ≤ root.level }
    requires few { root.level ≤ 3 }
    requires is { IsNumbered entries.now root }
    requires column { column ≤ 8 }
    requires row { row ≤ 8 }
    ensures { (i : ℕ) → i < 64 → slice_index result i ≡ map_of_root (square_of entries.now root) (place_at (half_universe - 8 + (column + i % 8)) (half_universe - 8 + (row + i / 8))) }
{
    let mut states = [0; 64];
    for i in 0..64u32 {
        states[i as usize] = state_about(entries, root, column + i % 8, row + i / 8);
    }
    states
}

/// The state in a column and a row of the 16 by 16 cells about the middle of a universe.
fn state_about(entries: &[Entry], root: Numbered, column: u32, row: u32) -> u8
    requires squares { AreSquares (squares_of entries.now) }
    requires levels { AreLevelled entries.now }
    requires entries { are_entries entries.now ≡ true }
    requires some { 1 ≤ root.level }
    requires few { root.level ≤ 3 }
    requires is { IsNumbered entries.now root }
    requires column { column < 16 }
    requires row { row < 16 }
    ensures { result ≡ map_of_root (square_of entries.now root) (place_at (half_universe - 8 + column) (half_universe - 8 + row)) }
{
    let half = half_of(root.level);
    if column + half < 8 || 8 + half <= column {
        return 0;
    }
    // The root is one row further down.
    if row + half < 9 || 9 + half <= row {
        return 0;
    }
    state_of(entries, root, column + half - 8, row + half - 9)
}
