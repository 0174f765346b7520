//! Pairs of leaves, in cache and from memory: how fast two merge, beside a copy that moves as many bytes, how
//! fast a leaf is hashed, and how fast a set tells that it has a leaf.

use crate::bench::{Bench, Row};
use crate::drawing::Chance;
use anyhow::Result;
use edit_stamps::Write;
use indexmap::IndexSet;
use keyed_hash::HashKey;
use leaf_merge_lanes::Leaf;
use std::alloc::{AllocError, Global};
use std::hash::BuildHasher;
use std::rt::Clock;

/// What is done to each pair.
#[derive(Clone, Copy)]
enum Call {
    Copy,
    Merge,
    Hash,
    Insert,
}

static CALLS: [Row<Call>; 4] = [
    Row(Call::Copy, "a copy of as many bytes as a merge moves"),
    Row(Call::Merge, "a merge"),
    Row(Call::Hash, "a hash"),
    Row(Call::Insert, "an insert of a leaf that is there"),
];

/// Pairs that stay in cache, and pairs that do not.
pub fn run<R: Clock + Print>(bench: &Bench<R>) -> Result<()> {
    run_pairs(bench, &mut Pairs::new(bench.alloc, 128)?, 128, 256)?;
    if bench.is_timed {
        run_pairs(bench, &mut Pairs::new(bench.alloc, 0x8000)?, 0x8000, 12)?;
    }
    Ok(())
}

fn run_pairs<R: Clock + Print>(
    bench: &Bench<R>,
    pairs: &mut Pairs,
    count: u32,
    rounds: u32,
) -> Result<()> {
    pairs.make(Call::Merge)?;
    pairs.make(Call::Insert)?;
    println!(&bench.rt;
        "{count} pairs of leaves: {} of {} places hold the greater write",
        pairs.right_places(),
        count.saturating_mul(64)
    )?;
    println!(&bench.rt; "{} leaves in the set", pairs.set.len())?;
    bench.measure(rounds, count, &CALLS, |call| pairs.make(call))
}

/// Two leaves, and what they were merged to.
#[derive(Clone, Copy)]
struct Pair {
    first: Leaf,
    second: Leaf,
    merged: Leaf,
}

/// Pairs of leaves, and the set of their first leaves.
#[derive(Drop)]
struct Pairs {
    pairs: Vec<Pair>,
    set: IndexSet<Leaf, HashKey>,
    /// One and a half leaves a pair: a copy of them reads and writes together as many bytes as merges.
    bytes: Vec<u8>,
    copied: Vec<u8>,
    hashed: u64,
}

impl Pairs {
    fn new(alloc: Global, count: u32) -> Result<Pairs, AllocError> {
        let length = 864 * count as usize;
        let mut chance = Chance::new(11);
        let mut pairs = Vec::new(alloc);
        for _ in 0..count {
            pairs.push(Pair::scattered(&mut chance))?;
        }
        Ok(Pairs {
            pairs,
            set: IndexSet::with_hasher(alloc, HashKey::fixed()),
            bytes: vec![in alloc; 0_u8; length]?,
            copied: Vec::new(alloc),
            hashed: 0,
        })
    }

    /// How many places hold the greater write of their pair.
    fn right_places(&self) -> u64 {
        let mut right = 0_u64;
        for pair in &self.pairs {
            right = right.wrapping_add(pair.right_places());
        }
        right
    }

    fn make(&mut self, call: Call) -> Result<()> {
        if matches!(call, Call::Copy) {
            self.copied.clear();
            self.copied.extend_from_slice(&self.bytes)?;
            return Ok(());
        }
        let key = HashKey::fixed();
        for pair in self.pairs.iter_mut() {
            match call {
                Call::Copy => {}
                Call::Merge => pair.merged = Leaf::merge(&pair.first, &pair.second),
                Call::Hash => self.hashed ^= key.hash_one(&pair.first),
                Call::Insert => {
                    self.set.insert(pair.first)?;
                }
            }
        }
        Ok(())
    }
}

impl Pair {
    /// Two leaves whose stamps are equal at one place in eight.
    fn scattered(chance: &mut Chance) -> Pair {
        let mut first = Leaf::blank(0);
        let mut second = Leaf::blank(0);
        for i in 0..64 {
            let write = scattered_write(chance);
            let other = scattered_write(chance);
            first.put(i, write);
            let stamp = if chance.word() % 8 == 0 {
                write.stamp
            } else {
                other.stamp
            };
            second.put(i, Write { stamp, ..other });
        }
        Pair {
            first,
            second,
            merged: first,
        }
    }

    fn right_places(&self) -> u64 {
        let mut right = 0_u64;
        for i in 0..64 {
            let greater = self.first.get(i).max(self.second.get(i));
            right = right.wrapping_add(u64::from(self.merged.get(i) == greater));
        }
        right
    }
}

/// A write of any state, with a counter below 2^20, by one of 64 replicas.
fn scattered_write(chance: &mut Chance) -> Write {
    let counter = u64::from(chance.word() >> 12);
    let replica = u64::from(chance.word() >> 26);
    Write {
        stamp: (counter << 16).saturating_add(replica).saturating_add(1),
        state: (chance.word() >> 24) as u8,
    }
}
