//! Squares of a store about the middle of a universe.

ghost use Rattle.std.specs.Prelude.{◌≡◌, ◌≤◌, ◌<◌, ◌+◌, ℕ, IfOk, OnOk};
ghost use Rattle.generations_rule.specs.Place.{Place};
ghost use Rattle.square_store.specs.Squares.{Draws};
ghost use Rattle.square_store.specs.Store.{IsGrown};
ghost use Rattle.generation_engine.specs.EngineLeaf.{leaf_grid};
ghost use Rattle.macrocell_universes.specs.Middles.{AreAbout, StandAt, grid_in_universe};

use generation_engine::EngineLeaf;
use square_store::{Part, Store, StoreFault};

/// How many levels a universe's root is above a leaf.
const ROOT_ABOVE_LEAF: u32 = 30;

/// Four squares of a level above a leaf about the middle of a universe, and the two below the lower ones.
#[derive(Clone, Copy)]
pub(crate) struct Parts {
    pub level: u32,
    pub nw: Part,
    pub ne: Part,
    pub sw: Part,
    pub se: Part,
    pub below_sw: Part,
    pub below_se: Part,
}

/// The universe that has these squares about its middle, and no other live cell.
pub(crate) fn widened(store: &mut Store<EngineLeaf>, parts: Parts) -> Result<Part, StoreFault>
    requires level { parts.level < 29 }
    requires stand { StandAt store.old parts }
    ensures grows { OnOk result (IsGrown leaf_grid 8 store.old store.new) }
    ensures root { IfOk result (λ root. (f : Place → ℕ) → AreAbout f store.old parts → Draws leaf_grid 8 store.new 30 (grid_in_universe f) root) }
{
    let mut about = parts;
    while about.level + 1 < ROOT_ABOVE_LEAF {
        about = wider(store, about)?;
    }
    let root = store.add_four(ROOT_ABOVE_LEAF, [about.nw, about.ne, about.sw, about.se])?;
    Ok(root)
}

/// Squares of the level above about the middle of a universe, with no other live cell.
fn wider(store: &mut Store<EngineLeaf>, parts: Parts) -> Result<Parts, StoreFault>
    requires level { parts.level < 29 }
    requires stand { StandAt store.old parts }
    ensures grows { OnOk result (IsGrown leaf_grid 8 store.old store.new) }
    ensures stand { IfOk result (StandAt store.new) }
    ensures about { IfOk result (λ wider. (f : Place → ℕ) → AreAbout f store.old parts → AreAbout f store.new wider) }
    ensures level { IfOk result (λ wider. wider.level ≡ parts.level + 1) }
{
    let level = parts.level + 1;
    let dead = store.add_blank(0)?;
    let nw = store.add_four(level, [dead, dead, dead, parts.nw])?;
    let ne = store.add_four(level, [dead, dead, parts.ne, dead])?;
    let sw = store.add_four(level, [dead, parts.sw, dead, parts.below_sw])?;
    let se = store.add_four(level, [parts.se, dead, parts.below_se, dead])?;
    Ok(Parts {
        level,
        nw,
        ne,
        sw,
        se,
        below_sw: dead,
        below_se: dead,
    })
}
