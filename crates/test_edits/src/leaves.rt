//! Leaves: each call once, and merges of scattered ones place by place.

use edit_stamps::Write;
use leaf_merge_lanes::Leaf;
use std::hash::{DefaultHasher, Hash, Hasher};

fn write(stamp: u64, state: u8) -> Write {
    Write { stamp, state }
}

/// Few stamps and states, so that many are equal; by Knuth's generator MMIX.
fn scattered(seed: u64) -> Leaf {
    let mut number = seed;
    let mut leaf = Leaf::blank(0);
    for i in 0..64 {
        number = number
            .wrapping_mul(6_364_136_223_846_793_005)
            .wrapping_add(1_442_695_040_888_963_407);
        leaf.put(i, write(65537 + (number >> 62), (number >> 60 & 3) as u8));
    }
    leaf
}

/// A leaf with one write at the last place, and nothing elsewhere.
fn last(stamp: u64, state: u8) -> Leaf {
    let mut leaf = Leaf::blank(0);
    leaf.put(63, write(stamp, state));
    leaf
}

fn hash_of(leaf: &Leaf) -> u64 {
    let mut hasher = DefaultHasher::default();
    leaf.hash(&mut hasher);
    hasher.finish()
}

/// Whether one leaf is at most another and not the other way round, and both merge to the greater.
fn is_less(one: &Leaf, other: &Leaf) -> bool {
    Leaf::at_most(one, other)
        && !Leaf::at_most(other, one)
        && Leaf::merge(one, other) == *other
        && Leaf::merge(other, one) == *other
}

#[test]
fn breaks_ties_by_state(rt: HostRuntime) {
    let greater = last(65537, 2);
    assert!(rt; is_less(&last(65537, 1), &greater));
    assert!(rt; greater.get(63) == write(65537, 2) && greater.get(62) == Write::UNWRITTEN);
    assert!(rt; greater.stamp_bounds() == (0, 65537));
}

/// How many places of two leaves' merge hold the greater write, and its state among the states.
fn merged_places(a: &Leaf, b: &Leaf) -> u32 {
    let merged = Leaf::merge(a, b);
    let states = merged.states();
    let mut places = 0u32;
    for i in 0..64 {
        let write = merged.get(i);
        if write == a.get(i).max(b.get(i)) && states[i] == write.state {
            places = places.saturating_add(1);
        }
    }
    places
}

/// Whether neither leaf is at most the other, and both are at most their merge, which has these bounds.
fn are_below_merge(one: &Leaf, other: &Leaf, bounds: (u64, u64)) -> bool {
    let merged = Leaf::merge(one, other);
    Leaf::at_most(one, &merged)
        && Leaf::at_most(other, &merged)
        && !Leaf::at_most(&merged, one)
        && !Leaf::at_most(one, other)
        && merged.stamp_bounds() == bounds
}

#[test]
fn merges_place_by_place(rt: HostRuntime) {
    let (a, b) = (scattered(1), scattered(2));
    assert_eq!(rt; merged_places(&a, &b), 64);
    assert!(rt; are_below_merge(&a, &b, (65537, 65540)));
}

/// The same writes, put from the last place to the first over another leaf.
fn again(leaf: &Leaf) -> Leaf {
    let mut again = Leaf::blank(7);
    for i in 0..64 {
        again.put(63 - i, leaf.get(63 - i));
    }
    again
}

#[test]
fn tells_equal_leaves(rt: HostRuntime) {
    let a = scattered(1);
    let mut b = again(&a);
    assert!(rt; a == b && hash_of(&a) == hash_of(&b));
    b.put(9, write(a.get(9).stamp, 4));
    assert!(rt; a != b && hash_of(&a) != hash_of(&b));
}

#[test]
fn tells_blank_leaves(rt: HostRuntime) {
    let mut leaf = Leaf::blank(65537);
    assert!(rt; leaf.is_blank() == Some(65537));
    leaf.put(63, write(65537, 1));
    assert!(rt; leaf.is_blank().is_none());
    leaf.put(63, write(65538, 0));
    assert!(rt; leaf.is_blank().is_none() && leaf.stamp_bounds() == (65537, 65538));
}
