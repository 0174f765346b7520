//! The join of planes.

ghost use Rattle.std.specs.Prelude.{◌≡◌, ◌<◌, ◌≤◌, Err, IfOk, OnErr, OnOk, length};
ghost use Rattle.stamped_writes.specs.Write.{AreSame, joined};
ghost use Rattle.square_store.specs.Pieces.{AddsPiecesOfGrid};
ghost use Rattle.square_store.specs.Squares.{IsAt};
ghost use Rattle.square_store.specs.Store.{IsGrown};
ghost use Rattle.stamped_tree.specs.Full.{IsFullStoreFor};
ghost use Rattle.stamped_tree.specs.LeafKind.{plane_grid};
ghost use Rattle.stamped_tree.specs.MapPieces.{AddsPiecesOfMap, IsFullForMap};
ghost use Rattle.stamped_tree.specs.Plane.{HasGrown, IsPart, map_of, rooted};
ghost use Rattle.tree_join.specs.Remembered.{RemembersCopies, RemembersJoins};
ghost use Rattle.tree_join.specs.Squares.{IsSquareJoin, join_grid};

use crate::add::add_four_over;
use crate::bring::bring;
use crate::order::ROOT_ABOVE_LEAF;
use crate::quarters::quarter_parts;
use crate::remember::{PartPair, join_made, keep_join};
use crate::step::{join_leaves, loses, stays};
use indexmap::IndexMap;
use keyed_hash::HashKey;
use stamped_tree::{Part, Plane, StoreFault};
use std::alloc::Global;

/// Joins another plane: at each coordinate the greater write stands (RR-7506's merge of two states).
///
/// What is stored is the square of the joined map and those that it is cut into, and no other; so a join
/// that changes nothing stores nothing. After an error the map is as it was. `StoreFull` comes only where
/// the plane has no room for one of these squares; what was added by then is stored until `Plane::copy`.
pub fn join(alloc: Global, plane: &mut Plane, other: &Plane) -> Result<(), StoreFault>
    ensures ok { OnOk result (AreSame (map_of plane.new) (joined (map_of plane.old) (map_of other.now))) }
    ensures err { OnErr result (HasGrown plane.old plane.new) }
    ensures grows { IsGrown plane_grid 8 plane.old.store plane.new.store }
    ensures room { plane.new.store.room ≡ plane.old.store.room }
    ensures pieces { AddsPiecesOfMap plane.old plane.new (joined (map_of plane.old) (map_of other.now)) }
    ensures full { result ≡ Err StoreFault.StoreFull → IsFullForMap plane.new (joined (map_of plane.old) (map_of other.now)) }
    ensures kept { AreSame (joined (map_of plane.old) (map_of other.now)) (map_of plane.old) → length plane.new.store.squares ≡ length plane.old.store.squares }
{
    let root = plane.root().part();
    let part = add_joined(alloc, plane, root, other)?;
    plane.set_root(part);
    Ok(())
}

/// Adds a square of level 31 of the plane joined with another plane: the part at which, were it the
/// root, the greater write would stand at each coordinate. The map is as before, and what is stored is as
/// `join` says.
pub fn add_joined(
    alloc: Global,
    plane: &mut Plane,
    part: Part,
    other: &Plane,
) -> Result<Part, StoreFault>
    requires { IsPart plane.old.store 31 part }
    ensures part { IfOk result (λ added. IsPart plane.new.store 31 added) }
    ensures joins { IfOk result (λ added. AreSame (map_of (rooted plane.new added)) (joined (map_of (rooted plane.old part)) (map_of other.now))) }
    ensures grows { HasGrown plane.old plane.new }
    ensures pieces { AddsPiecesOfMap plane.old plane.new (joined (map_of (rooted plane.old part)) (map_of other.now)) }
    ensures full { result ≡ Err StoreFault.StoreFull → IsFullForMap plane.new (joined (map_of (rooted plane.old part)) (map_of other.now)) }
    ensures kept { AreSame (joined (map_of (rooted plane.old part)) (map_of other.now)) (map_of (rooted plane.old part)) → length plane.new.store.squares ≡ length plane.old.store.squares }
{
    // For the proof alone: the calls tell that equal squares are equal parts, before and after.
    plane.plane_laws(other);
    let there = other.root().part();
    let added = join_roots(alloc, plane, other, part, there);
    plane.plane_laws(other);
    let added = added?;
    Ok(added)
}

/// The join of two squares of level 31, where no join and no copy was made before.
fn join_roots(
    alloc: Global,
    plane: &mut Plane,
    other: &Plane,
    here: Part,
    there: Part,
) -> Result<Part, StoreFault>
    requires here { IsAt plane.old.store 28 here }
    requires there { IsAt other.now.store 28 there }
    ensures join { IfOk result (IsSquareJoin plane.new.store other.now.store 28 here there) }
    ensures grows { HasGrown plane.old plane.new }
    ensures pieces { AddsPiecesOfGrid plane_grid 8 plane.old.store plane.new.store 28 (join_grid plane.old.store other.now.store 28 here there) }
    ensures full { result ≡ Err StoreFault.StoreFull → IsFullStoreFor plane.new.store 28 (join_grid plane.old.store other.now.store 28 here there) }
{
    let mut joins = IndexMap::with_hasher(alloc, plane.key());
    let mut copies = IndexMap::new(alloc);
    let roots = PartPair {
        above: ROOT_ABOVE_LEAF,
        here,
        there,
    };
    join_squares(plane, other, &mut joins, &mut copies, roots)
}

/// The join of two squares, so many levels above a leaf. Nothing is added where the first stays.
#[cycle(join)]
fn join_squares(
    plane: &mut Plane,
    other: &Plane,
    joins: &mut IndexMap<PartPair, Part, HashKey>,
    copies: &mut IndexMap<Part, Part>,
    pair: PartPair,
) -> Result<Part, StoreFault>
    requires most { pair.above ≤ 28 }
    requires here { IsAt plane.old.store pair.above pair.here }
    requires there { IsAt other.now.store pair.above pair.there }
    requires joins { RemembersJoins plane.old.store other.now.store joins.old }
    requires copies { RemembersCopies plane.old.store other.now.store copies.old }
    ensures join { IfOk result (IsSquareJoin plane.new.store other.now.store pair.above pair.here pair.there) }
    ensures grows { HasGrown plane.old plane.new }
    ensures joins { RemembersJoins plane.new.store other.now.store joins.new }
    ensures copies { RemembersCopies plane.new.store other.now.store copies.new }
    ensures pieces { AddsPiecesOfGrid plane_grid 8 plane.old.store plane.new.store pair.above (join_grid plane.old.store other.now.store pair.above pair.here pair.there) }
    ensures full { result ≡ Err StoreFault.StoreFull → IsFullStoreFor plane.new.store pair.above (join_grid plane.old.store other.now.store pair.above pair.here pair.there) }
{
    let PartPair { above, here, there } = pair;
    if stays(plane, other, above, here, there) {
        return Ok(here);
    }
    if loses(plane, other, above, here, there) {
        let part = bring(plane, other, copies, above, there)?;
        return Ok(part);
    }
    if above == 0 {
        let part = join_leaves(plane, other, here, there)?;
        return Ok(part);
    }
    if let Some(part) = join_made(joins, plane, other, &pair) {
        return Ok(part);
    }
    let part = join_quarters(plane, other, joins, copies, pair)?;
    keep_join(joins, plane, other, pair, part)?;
    Ok(part)
}

#[cycle(join)]
fn join_quarters(
    plane: &mut Plane,
    other: &Plane,
    joins: &mut IndexMap<PartPair, Part, HashKey>,
    copies: &mut IndexMap<Part, Part>,
    pair: PartPair,
) -> Result<Part, StoreFault>
    requires least { 0 < pair.above }
    requires most { pair.above ≤ 28 }
    requires here { IsAt plane.old.store pair.above pair.here }
    requires there { IsAt other.now.store pair.above pair.there }
    requires joins { RemembersJoins plane.old.store other.now.store joins.old }
    requires copies { RemembersCopies plane.old.store other.now.store copies.old }
    ensures join { IfOk result (IsSquareJoin plane.new.store other.now.store pair.above pair.here pair.there) }
    ensures grows { HasGrown plane.old plane.new }
    ensures joins { RemembersJoins plane.new.store other.now.store joins.new }
    ensures copies { RemembersCopies plane.new.store other.now.store copies.new }
    ensures pieces { AddsPiecesOfGrid plane_grid 8 plane.old.store plane.new.store pair.above (join_grid plane.old.store other.now.store pair.above pair.here pair.there) }
    ensures full { result ≡ Err StoreFault.StoreFull → IsFullStoreFor plane.new.store pair.above (join_grid plane.old.store other.now.store pair.above pair.here pair.there) }
{
    let PartPair { above, here, there } = pair;
    let a = quarter_parts(above, &plane.square(here));
    let b = quarter_parts(above, &other.square(there));
    let nw = PartPair {
        above: above - 1,
        here: a[0],
        there: b[0],
    };
    let nw = join_squares(plane, other, joins, copies, nw)?;
    let ne = PartPair {
        above: above - 1,
        here: a[1],
        there: b[1],
    };
    let ne = join_squares(plane, other, joins, copies, ne)?;
    let sw = PartPair {
        above: above - 1,
        here: a[2],
        there: b[2],
    };
    let sw = join_squares(plane, other, joins, copies, sw)?;
    let se = PartPair {
        above: above - 1,
        here: a[3],
        there: b[3],
    };
    let se = join_squares(plane, other, joins, copies, se)?;
    let part = add_four_over(plane, above, here, &a, [nw, ne, sw, se])?;
    Ok(part)
}
