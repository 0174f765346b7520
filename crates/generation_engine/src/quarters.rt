//! Squares and what they are cut into.

ghost use Rattle.std.specs.Prelude.{◌≡◌, ◌<◌, ◌+◌, ◌-◌, IfOk, Err};
ghost use Rattle.square_store.specs.Pieces.{AddsPiecesOfGrid};
ghost use Rattle.square_store.specs.Squares.{IsAt, grid_at, side_at, Draws};
ghost use Rattle.square_store.specs.Store.{IsAbsent, IsGrown, IsNoneKept, IsStore};
ghost use Rattle.generation_engine.specs.EngineLeaf.{IsEngineLeaf, leaf_grid};
ghost use Rattle.generation_engine.specs.Loading.{IsStoreFull, centred};
ghost use Rattle.generation_engine.specs.Walk.{AreMiddleParts};

use crate::leaf_kind::EngineLeaf;
use square_store::{Part, Square, Store, StoreFault};

/// A square of a level, in the middle of a dead square of twice its side.
pub(crate) fn padded(
    store: &mut Store<EngineLeaf>,
    level: u32,
    part: Part,
) -> Result<Part, StoreFault>
    requires above { 0 < level }
    requires below { level < 100 }
    requires stands { IsAt store.old level part }
    ensures draws { IfOk result (Draws leaf_grid 8 store.new (level + 1) (centred (side_at 8 (level - 1)) (grid_at leaf_grid 8 store.old level part))) }
    ensures grows { IsGrown leaf_grid 8 store.old store.new }
    // After a refusal too.
    ensures firsts { IsNoneKept store.old store.new }
    ensures pieces { AddsPiecesOfGrid leaf_grid 8 store.old store.new (level + 1) (centred (side_at 8 (level - 1)) (grid_at leaf_grid 8 store.old level part)) }
    ensures full { result ≡ Err StoreFault.StoreFull → IsStoreFull store.new }
    ensures absent { result ≡ Err StoreFault.StoreFull → IsStore leaf_grid 8 IsEngineLeaf store.new → IsAbsent leaf_grid 8 store.new (level + 1) (centred (side_at 8 (level - 1)) (grid_at leaf_grid 8 store.old level part)) }
{
    let dead = store.add_blank(0)?;
    let quarters = store.quarters(level, part);
    let nw = store.add_four(level, [dead, dead, dead, quarters[0]])?;
    let ne = store.add_four(level, [dead, dead, quarters[1], dead])?;
    let sw = store.add_four(level, [dead, quarters[2], dead, dead])?;
    let se = store.add_four(level, [quarters[3], dead, dead, dead])?;
    let whole = store.add_four(level + 1, [nw, ne, sw, se])?;
    Ok(whole)
}

/// The four parts, two levels below a square, that together are its middle: NW, NE, SW, SE.
pub(crate) fn middle(store: &Store<EngineLeaf>, level: u32, part: Part) -> [Part; 4]
    requires level { 1 < level }
    requires stands { IsAt store.now level part }
    ensures { AreMiddleParts store.now level part result }
{
    let outer = store.quarters(level, part);
    let nw = store.quarters(level - 1, outer[0]);
    let ne = store.quarters(level - 1, outer[1]);
    let sw = store.quarters(level - 1, outer[2]);
    let se = store.quarters(level - 1, outer[3]);
    [nw[3], ne[2], sw[1], se[0]]
}
