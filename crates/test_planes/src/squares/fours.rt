//! Squares of leaves of a plane: what is seen of them.

use crate::squares::steps::four;
use edit_stamps::Write;
use leaf_merge_lanes::Leaf;
use square_store::{Limits, Part, Square, Store, StoreFault};
use stamped_tree::{PlaneLeaf, StampBounds};
use std::alloc::Global;

/// A leaf with one write at its last place.
fn last(stamp: u64, state: u8) -> PlaneLeaf {
    let mut leaf = Leaf::blank(0);
    leaf.put(63, Write { stamp, state });
    PlaneLeaf { leaf }
}

/// A square of three blanks and a leaf.
fn add_small(store: &mut Store<PlaneLeaf>) -> Result<Part, StoreFault> {
    let blank = store.add_blank(7)?;
    let leaf = store.add_leaf(last(65537, 3))?;
    four(store, 1, [blank, blank, leaf, blank])
}

/// A square of a level, of three blanks and one of another stamp.
fn add_blanks(store: &mut Store<PlaneLeaf>, level: u32, stamp: u64) -> Result<Part, StoreFault> {
    let blank = store.add_blank(7)?;
    let other = store.add_blank(stamp)?;
    four(store, level, [blank, blank, blank, other])
}

/// What stands at a part of a level: a blank's stamp, the state at a leaf's last place, or the level
/// of four.
fn seen(store: &Store<PlaneLeaf>, part: Part, level: u32) -> (u8, u64) {
    if !store.is_at(part, level) {
        return (9, 9);
    }
    match store.square(part) {
        Square::Blank(stamp) => (0, stamp),
        Square::Leaf(plane_leaf) => (1, u64::from(plane_leaf.leaf.get(63).state)),
        Square::Four { level, .. } => (2, u64::from(level)),
    }
}

fn seen_blank(alloc: Global) -> Result<(u8, u64), StoreFault> {
    let mut store = Store::new(alloc, Limits::of_room(9));
    let blank = add_blanks(&mut store, 5, 7)?;
    Ok(seen(&store, blank, 30))
}

fn seen_leaf(alloc: Global) -> Result<(u8, u64), StoreFault> {
    let mut store = Store::new(alloc, Limits::of_room(9));
    let leaf = store.add_leaf(last(65537, 3))?;
    Ok(seen(&store, leaf, 0))
}

fn seen_small(alloc: Global) -> Result<(u8, u64), StoreFault> {
    let mut store = Store::new(alloc, Limits::of_room(9));
    let small = add_small(&mut store)?;
    Ok(seen(&store, small, 1))
}

/// The least and the greatest stamp of that square.
fn bounds(alloc: Global) -> Result<StampBounds, StoreFault> {
    let mut store = Store::new(alloc, Limits::of_room(9));
    let small = add_small(&mut store)?;
    if store.is_at(small, 1) {
        return Ok(store.summary(small));
    }
    Err(StoreFault::StoreFull)
}

/// Whether squares of three blanks and another, of levels 1 and 2, are one part.
fn are_same(alloc: Global, stamp: u64) -> Result<bool, StoreFault> {
    let mut store = Store::new(alloc, Limits::of_room(9));
    let small = add_blanks(&mut store, 1, stamp)?;
    let large = add_blanks(&mut store, 2, stamp)?;
    Ok(small == large)
}

#[test]
fn sees_what_was_added(rt: HostRuntime) -> Result<(), StoreFault> {
    let alloc = rt.alloc();
    assert_eq!(rt; seen_blank(alloc)?, (0, 7));
    assert_eq!(rt; seen_leaf(alloc)?, (1, 3));
    assert_eq!(rt; seen_small(alloc)?, (2, 1));
    Ok(())
}

#[test]
fn bounds_the_stamps(rt: HostRuntime) -> Result<(), StoreFault> {
    assert_eq!(rt;
        bounds(rt.alloc())?,
        StampBounds {
            least: 0,
            greatest: 65537
        }
    );
    Ok(())
}

#[test]
fn keeps_levels_apart_but_not_those_of_blanks(rt: HostRuntime) -> Result<(), StoreFault> {
    let alloc = rt.alloc();
    assert_eq!(rt; (are_same(alloc, 7)?, are_same(alloc, 8)?), (true, false));
    Ok(())
}
