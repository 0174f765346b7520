//! Whether two planes have the same map.

ghost use Rattle.std.specs.Prelude.{◌≡◌, ◌<◌, ◌↔◌, IsTrue, IfOk};
ghost use Rattle.stamped_writes.specs.Write.{AreSame};
ghost use Rattle.square_store.specs.Squares.{IsAt};
ghost use Rattle.stamped_tree.specs.Plane.{map_of};
ghost use Rattle.tree_join.specs.Squares.{AreSameSquares};
ghost use Rattle.tree_join.specs.Remembered.{RemembersSame};

use crate::leaf::are_same_leaves;
use crate::looks::same_at_a_look;
use crate::order::ROOT_ABOVE_LEAF;
use crate::quarters::quarter_parts;
use crate::remember::{PartPair, is_pair_kept, keep_pair};
use indexmap::IndexSet;
use keyed_hash::HashKey;
use stamped_tree::{Part, Plane};
use std::alloc::{AllocError, Global};

/// Whether two planes have the same map. It takes no memory, and time in proportion to the squares of
/// either, each in each place where it stands.
pub fn same(plane: &Plane, other: &Plane) -> bool
    ensures { IsTrue result ↔ AreSame (map_of plane.now) (map_of other.now) }
{
    let root = plane.root().part();
    let others_root = other.root().part();
    are_same(plane, other, ROOT_ABOVE_LEAF, root, others_root)
}

/// The same answer in time in proportion to the distinct pairs of squares, which it keeps.
pub fn same_remembered(alloc: Global, plane: &Plane, other: &Plane) -> Result<bool, AllocError>
    ensures { IfOk result (λ answer. IsTrue answer ↔ AreSame (map_of plane.now) (map_of other.now)) }
{
    let mut kept = IndexSet::with_hasher(alloc, plane.key());
    let root = plane.root().part();
    let others_root = other.root().part();
    let roots = PartPair {
        above: ROOT_ABOVE_LEAF,
        here: root,
        there: others_root,
    };
    let answer = are_same_remembered(plane, other, &mut kept, roots)?;
    Ok(answer)
}

/// Whether two squares have the same writes, so many levels above a leaf.
fn are_same(plane: &Plane, other: &Plane, above: u32, part: Part, others: Part) -> bool
    requires part { IsAt plane.now.store above part }
    requires others { IsAt other.now.store above others }
    ensures { IsTrue result ↔ AreSameSquares plane.now.store other.now.store above part others }
{
    let square = plane.square(part);
    let counterpart = other.square(others);
    if let Some(answer) = same_at_a_look(&square, &counterpart) {
        return answer;
    }
    if above == 0 {
        return are_same_leaves(&square, &counterpart);
    }
    let a = quarter_parts(above, &square);
    let b = quarter_parts(above, &counterpart);
    if !are_same(plane, other, above - 1, a[0], b[0]) {
        return false;
    }
    if !are_same(plane, other, above - 1, a[1], b[1]) {
        return false;
    }
    if !are_same(plane, other, above - 1, a[2], b[2]) {
        return false;
    }
    are_same(plane, other, above - 1, a[3], b[3])
}

/// The same, where pairs that were found to be the same are kept.
#[cycle(remembered)]
fn are_same_remembered(
    plane: &Plane,
    other: &Plane,
    kept: &mut IndexSet<PartPair, HashKey>,
    pair: PartPair,
) -> Result<bool, AllocError>
    requires here { IsAt plane.now.store pair.above pair.here }
    requires there { IsAt other.now.store pair.above pair.there }
    requires kept { RemembersSame plane.now.store other.now.store kept.old }
    ensures answer { IfOk result (λ answer. IsTrue answer ↔ AreSameSquares plane.now.store other.now.store pair.above pair.here pair.there) }
    ensures kept { RemembersSame plane.now.store other.now.store kept.new }
{
    let square = plane.square(pair.here);
    let counterpart = other.square(pair.there);
    if let Some(answer) = same_at_a_look(&square, &counterpart) {
        return Ok(answer);
    }
    if pair.above == 0 {
        return Ok(are_same_leaves(&square, &counterpart));
    }
    if is_pair_kept(kept, plane, other, &pair) {
        return Ok(true);
    }
    let answer = are_same_quarters(plane, other, kept, pair)?;
    if answer {
        keep_pair(kept, plane, other, pair)?;
    }
    Ok(answer)
}

/// The same, quarter by quarter.
#[cycle(remembered)]
fn are_same_quarters(
    plane: &Plane,
    other: &Plane,
    kept: &mut IndexSet<PartPair, HashKey>,
    pair: PartPair,
) -> Result<bool, AllocError>
    requires above { 0 < pair.above }
    requires here { IsAt plane.now.store pair.above pair.here }
    requires there { IsAt other.now.store pair.above pair.there }
    requires kept { RemembersSame plane.now.store other.now.store kept.old }
    ensures answer { IfOk result (λ answer. IsTrue answer ↔ AreSameSquares plane.now.store other.now.store pair.above pair.here pair.there) }
    ensures kept { RemembersSame plane.now.store other.now.store kept.new }
{
    let PartPair { above, here, there } = pair;
    let a = quarter_parts(above, &plane.square(here));
    let b = quarter_parts(above, &other.square(there));
    let nw = PartPair {
        above: above - 1,
        here: a[0],
        there: b[0],
    };
    if !are_same_remembered(plane, other, kept, nw)? {
        return Ok(false);
    }
    let ne = PartPair {
        above: above - 1,
        here: a[1],
        there: b[1],
    };
    if !are_same_remembered(plane, other, kept, ne)? {
        return Ok(false);
    }
    let sw = PartPair {
        above: above - 1,
        here: a[2],
        there: b[2],
    };
    if !are_same_remembered(plane, other, kept, sw)? {
        return Ok(false);
    }
    let se = PartPair {
        above: above - 1,
        here: a[3],
        there: b[3],
    };
    let last = are_same_remembered(plane, other, kept, se)?;
    Ok(last)
}
