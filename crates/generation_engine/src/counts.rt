//! How many cells of a square are not dead.

ghost use Rattle.std.specs.Prelude.{◌≡◌, ◌≤◌, ◌⊎◌};
ghost use Rattle.square_store.specs.Squares.{IsAt};
ghost use Rattle.generation_engine.specs.Counts.{AreCounted, population_at};
ghost use Rattle.generation_engine.specs.Loading.{IsBroughtNoted};

use crate::leaf_kind::EngineLeaf;
use indexmap::IndexMap;
use square_store::{Part, Square, Store};
use std::alloc::Global;

/// How many cells of a square are not dead.
pub(crate) fn square_population(
    alloc: Global,
    store: &Store<EngineLeaf>,
    level: u32,
    part: Part,
) -> u128
    requires level { level ≤ 30 }
    requires stands { IsAt store.now level part }
    ensures { result ≡ population_at store.now level part }
{
    let mut counts = IndexMap::new(alloc);
    count_square(store, &mut counts, level, part)
}

/// The same, where the counts of some squares are noted. The count of each square of four is noted, so
/// that one that stands in many places is counted once.
pub(crate) fn count_square(
    store: &Store<EngineLeaf>,
    counts: &mut IndexMap<Part, u128>,
    level: u32,
    part: Part,
) -> u128
    requires level { level ≤ 30 }
    requires stands { IsAt store.now level part }
    requires counted { AreCounted store.now counts.old.entries }
    ensures count { result ≡ population_at store.now level part }
    ensures counted { AreCounted store.now counts.new.entries }
{
    match store.square(part) {
        Square::Blank(_) => 0,
        Square::Leaf(leaf) => u128::from(leaf.leaf.population()),
        Square::Four { parts, .. } => {
            if let Some(count) = counts.get(&part) {
                return *count;
            }
            let nw = count_square(store, counts, level - 1, parts[0]);
            let ne = count_square(store, counts, level - 1, parts[1]);
            let sw = count_square(store, counts, level - 1, parts[2]);
            let se = count_square(store, counts, level - 1, parts[3]);
            let count = nw + ne + sw + se;
            note(counts, part, count);
            count
        }
    }
}

/// Notes the count of a square. Where memory is refused, it is counted again where it is come by.
fn note(counts: &mut IndexMap<Part, u128>, part: Part, count: u128)
    ensures { (counts.new.entries ≡ counts.old.entries) ⊎ IsBroughtNoted counts.old.entries counts.new.entries part count }
{
    match counts.insert(part, count) {
        Ok(_) => (),
        Err(_) => (),
    }
}
