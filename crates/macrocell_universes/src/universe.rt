//! A macrocell as a universe.

ghost use Rattle.std.specs.Prelude.{◌≡◌, ◌<◌, ◌≤◌, ℕ, true, length, IfErr, IfOk, OnOk};
ghost use Rattle.generations_rule.specs.Place.{Place};
ghost use Rattle.generation_engine.specs.Universe.{AreSameStates, IsEngine, states_of};
ghost use Rattle.square_store.specs.Squares.{Draws};
ghost use Rattle.generation_engine.specs.EngineLeaf.{leaf_grid};
ghost use Rattle.macrocell_text.specs.Macrocells.{AreLevelled, AreSquares, are_entries, squares_of};
ghost use Rattle.macrocell_text.specs.Maps.{map_of_root, map_of_squares};
ghost use Rattle.macrocell_text.specs.Readings.{macrocell_told};
ghost use Rattle.macrocell_universes.specs.Lowered.{AreNoted};
ghost use Rattle.macrocell_universes.specs.Middles.{LiesInPlane, grid_in_universe};
ghost use Rattle.macrocell_universes.specs.Numbered.{IsNumbered, square_of};
ghost use Rattle.macrocell_universes.specs.Refusals.{HasStatesBelow, IsRefused};

use crate::fault::UniverseFault;
use crate::lowering::Lowering;
use crate::quarters::Numbered;
use crate::reaches::{reach_numbered, reaches_of};
use crate::root::root_of;
use crate::widening::widened;
use generation_engine::EngineLeaf;
use generations_rule::Rule;
use macrocell_text::{Entry, Macrocell};
use square_store::{Limits, Part, Store, StoreFault};
use std::alloc::Global;

/// The squares of a universe at generation 0, and which of them it is.
#[derive(Drop)]
pub struct UniverseSquares {
    pub store: Store<EngineLeaf>,
    /// The universe: a square of level 33, 30 levels above a leaf.
    pub root: Part,
}

/// The squares of the universe of a macrocell's map under a rule, at generation 0, within limits. Its cells are not listed,
/// so how many there are does not matter. `OutOfPlane` is answered where a live cell lies outside the plane of edits, else
/// `StateRange` where a state is not below the rule's number of states, and `StoreFull` only where neither is so. `Memory`
/// may come in their place: the list by which they are found takes some.
pub fn universe_of(
    alloc: Global,
    rule: &Rule,
    macrocell: &Macrocell,
    limits: Limits,
) -> Result<UniverseSquares, UniverseFault>
    ensures states { IfOk result (λ squares. AreSameStates (states_of (record { rule = rule.now; store = squares.store; root = squares.root; generation = 0 })) (map_of_squares (macrocell_told macrocell.now).squares)) }
    ensures engine { IfOk result (λ squares. IsEngine (record { rule = rule.now; store = squares.store; root = squares.root; generation = 0 })) }
    ensures room { IfOk result (λ squares. squares.store.room ≡ limits.room) }
    ensures plane { OnOk result (LiesInPlane (map_of_squares (macrocell_told macrocell.now).squares)) }
    ensures below { OnOk result (HasStatesBelow rule.now.states (map_of_squares (macrocell_told macrocell.now).squares)) }
    ensures refused { IfErr result (IsRefused rule.now.states (map_of_squares (macrocell_told macrocell.now).squares)) }
{
    let entries = macrocell.entries();
    let root = root_of(entries);
    in_universe(alloc, rule, entries, root)?;
    let mut lowering = Lowering::new(alloc, limits);
    let part = root_part(&mut lowering, entries, root)?;
    Ok(UniverseSquares {
        store: lowering.into_store(),
        root: part,
    })
}

/// Refuses a root that has a live cell outside the plane, or else a state that is not below the rule's number.
fn in_universe(
    alloc: Global,
    rule: &Rule,
    entries: &[Entry],
    root: Numbered,
) -> Result<(), UniverseFault>
    requires squares { AreSquares (squares_of entries.now) }
    requires levels { AreLevelled entries.now }
    requires entries { are_entries entries.now ≡ true }
    requires some { 1 ≤ root.level }
    requires few { root.level ≤ 63 }
    requires is { IsNumbered entries.now root }
    requires number { root.number ≡ length entries.now }
    ensures plane { OnOk result (LiesInPlane (map_of_root (square_of entries.now root))) }
    ensures below { OnOk result (HasStatesBelow rule.now.states (map_of_root (square_of entries.now root))) }
    ensures refused { IfErr result (IsRefused rule.now.states (map_of_root (square_of entries.now root))) }
{
    let reaches = reaches_of(alloc, entries)?;
    let reach = reach_numbered(&reaches, root);
    if !reach.is_within_plane(root.level) {
        return Err(UniverseFault::OutOfPlane);
    }
    if u16::from(reach.state) >= rule.states() {
        return Err(UniverseFault::StateRange);
    }
    Ok(())
}

/// The root of a universe that has the live cells of a root, which lie in the plane.
fn root_part(lowering: &mut Lowering, entries: &[Entry], root: Numbered) -> Result<Part, StoreFault>
    requires squares { AreSquares (squares_of entries.now) }
    requires levels { AreLevelled entries.now }
    requires entries { are_entries entries.now ≡ true }
    requires noted { AreNoted entries.now lowering.old }
    requires some { 1 ≤ root.level }
    requires is { IsNumbered entries.now root }
    requires plane { LiesInPlane (map_of_root (square_of entries.now root)) }
    ensures root { IfOk result (Draws leaf_grid 8 lowering.new.store 30 (grid_in_universe (map_of_root (square_of entries.now root)))) }
    ensures room { OnOk result (lowering.new.store.room ≡ lowering.old.store.room) }
{
    let parts = lowering.about_middle(entries, root)?;
    let part = widened(&mut lowering.store, parts)?;
    Ok(part)
}
