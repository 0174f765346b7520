//! Squares of a plane, brought into the store of an engine.

ghost use Rattle.std.specs.Prelude.{◌≡◌, ◌-◌, IfOk, OnOk, Err, length};
ghost use Rattle.square_store.specs.Pieces.{AddsPiecesOfGrid};
ghost use Rattle.square_store.specs.Squares.{IsAt, Draws};
ghost use Rattle.square_store.specs.Store.{IsAbsent, IsGrown, IsNoneKept, IsOnePartEach, IsStore};
ghost use Rattle.leaf_merge_lanes.specs.Leaf.{states_of};
ghost use Rattle.generation_engine.specs.EngineLeaf.{IsEngineLeaf, leaf_grid};
ghost use Rattle.generation_engine.specs.Loading.{AreBrought, IsBrought, IsBroughtNoted, IsStoreFull, IsTooSmallFor, plane_in_universe, states_of_square};

use crate::leaf_kind::EngineLeaf;
use crate::quarters::padded;
use bitplane_kernel::BitLeaf;
use indexmap::IndexMap;
use leaf_merge_lanes::Leaf;
use square_store::{Part, Store, StoreFault};
use stamped_tree::{Plane, Square, View};
use std::alloc::{AllocError, Global};

/// How many levels a plane's root is above a leaf.
const PLANE_ABOVE_LEAF: u32 = 28;

/// Brings the states of a plane's square, so many levels above a leaf, and notes each square that is no
/// blank, so that one that stands in many places is brought once.
pub(crate) fn bring(
    target: &mut Store<EngineLeaf>,
    brought: &mut IndexMap<Part, Part>,
    level: u32,
    square: &Square,
) -> Result<Part, StoreFault>
    requires square { IsAt square.now.store level square.now.part }
    requires brought { AreBrought square.now.store target.old brought.old.entries }
    ensures grows { IsGrown leaf_grid 8 target.old target.new }
    ensures brought { OnOk result (AreBrought square.now.store target.new brought.new.entries) }
    ensures part { IfOk result (IsBrought square.now.store target.new square.now.part) }
    // After a refusal too.
    ensures firsts { IsNoneKept target.old target.new }
    ensures pieces { AddsPiecesOfGrid leaf_grid 8 target.old target.new level (states_of_square square.now.store level square.now.part) }
    ensures full { result ≡ Err StoreFault.StoreFull → IsStoreFull target.new }
    ensures absent { result ≡ Err StoreFault.StoreFull → IsStore leaf_grid 8 IsEngineLeaf target.new → IsAbsent leaf_grid 8 target.new level (states_of_square square.now.store level square.now.part) }
{
    let part = square.part();
    if let Some(there) = brought.get(&part) {
        return Ok(*there);
    }
    match square.view() {
        View::Blank(_) => {
            let dead = target.add_blank(0)?;
            Ok(dead)
        }
        View::Leaf(leaf) => {
            let there = target.add_leaf(states_of_leaf(leaf))?;
            note(brought, part, there)?;
            Ok(there)
        }
        View::Four { nw, ne, sw, se } => {
            let nw = bring(target, brought, level - 1, &nw)?;
            let ne = bring(target, brought, level - 1, &ne)?;
            let sw = bring(target, brought, level - 1, &sw)?;
            let se = bring(target, brought, level - 1, &se)?;
            let there = target.add_four(level, [nw, ne, sw, se])?;
            note(brought, part, there)?;
            Ok(there)
        }
    }
}

/// The states of 64 writes.
fn states_of_leaf(leaf: &Leaf) -> EngineLeaf
    ensures { result.leaf ≡ states_of leaf.now }
{
    EngineLeaf {
        leaf: BitLeaf::of_states(&leaf.states()),
    }
}

fn note(brought: &mut IndexMap<Part, Part>, part: Part, there: Part) -> Result<(), AllocError>
    ensures { OnOk result (IsBroughtNoted brought.old.entries brought.new.entries part there) }
{
    match brought.insert(part, there) {
        Ok(_) => Ok(()),
        Err(_) => Err(AllocError),
    }
}

/// Brings a plane's states into the middle of a dead universe, in a store that was empty. `StoreFull` is
/// answered only where no store of that room would do.
pub(crate) fn universe_of(
    alloc: Global,
    target: &mut Store<EngineLeaf>,
    plane: &Plane,
) -> Result<Part, StoreFault>
    requires { length target.old.squares ≡ 0 }
    ensures draws { IfOk result (Draws leaf_grid 8 target.new 30 (plane_in_universe plane.now)) }
    ensures grows { IsGrown leaf_grid 8 target.old target.new }
    ensures firsts { IsNoneKept target.old target.new }
    ensures full { result ≡ Err StoreFault.StoreFull → IsStoreFull target.new }
    ensures small { result ≡ Err StoreFault.StoreFull → IsTooSmallFor target.old.room plane.now }
{
    let root = add_universe(alloc, target, plane);
    // For the proof alone: the call tells what holds of the store, after a refusal too.
    target.store_laws();
    root
}

fn add_universe(
    alloc: Global,
    target: &mut Store<EngineLeaf>,
    plane: &Plane,
) -> Result<Part, StoreFault>
    requires { length target.old.squares ≡ 0 }
    ensures draws { IfOk result (Draws leaf_grid 8 target.new 30 (plane_in_universe plane.now)) }
    ensures grows { IsGrown leaf_grid 8 target.old target.new }
    ensures firsts { IsNoneKept target.old target.new }
    ensures full { result ≡ Err StoreFault.StoreFull → IsStoreFull target.new }
    ensures small { result ≡ Err StoreFault.StoreFull → IsStore leaf_grid 8 IsEngineLeaf target.new → IsOnePartEach leaf_grid 8 target.new → IsTooSmallFor target.new.room plane.now }
{
    let mut brought = IndexMap::new(alloc);
    let middle = bring(target, &mut brought, PLANE_ABOVE_LEAF, &plane.root())?;
    let wider = padded(target, PLANE_ABOVE_LEAF, middle)?;
    let root = padded(target, PLANE_ABOVE_LEAF + 1, wider)?;
    Ok(root)
}
