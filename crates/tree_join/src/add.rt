//! Squares that are added to a plane.

ghost use Rattle.std.specs.Prelude.{◌≡◌, ◌<◌, ◌≤◌, ◌-◌, ℕ, Err, IfOk, IsTrue, slice_index_or};
ghost use Rattle.edit_stamps.specs.PlaneMap.{is_plane_write};
ghost use Rattle.leaf_merge_lanes.specs.Leaf.{write_of};
ghost use Rattle.square_store.specs.Grid.{blank_grid};
ghost use Rattle.square_store.specs.Pieces.{AddsPiecesOfGrid};
ghost use Rattle.square_store.specs.Seen.{AreAt, IsBlankAt};
ghost use Rattle.square_store.specs.Squares.{Draws, IsAt, four_grid};
ghost use Rattle.stamped_tree.specs.Full.{IsFullStoreFor};
ghost use Rattle.stamped_tree.specs.LeafKind.{plane_grid};
ghost use Rattle.stamped_tree.specs.Plane.{ArePlaneWrites, HasGrown, grid_of_leaf};
ghost use Rattle.tree_join.specs.Squares.{AreQuarters};

use leaf_merge_lanes::Leaf;
use stamped_tree::{Part, Plane, StoreFault};

/// How many levels a leaf is above a single cell.
const LEAF_LEVEL: u32 = 3;

pub(crate) fn add_blank(plane: &mut Plane, stamp: u64) -> Result<Part, StoreFault>
    requires { IsTrue (is_plane_write (write_of stamp 0)) }
    ensures draws { IfOk result (λ part. IsBlankAt plane_grid 8 plane.new.store stamp part) }
    ensures grows { HasGrown plane.old plane.new }
    ensures pieces { (k : ℕ) → AddsPiecesOfGrid plane_grid 8 plane.old.store plane.new.store k (blank_grid stamp) }
    ensures full { result ≡ Err StoreFault.StoreFull → (k : ℕ) → IsFullStoreFor plane.new.store k (blank_grid stamp) }
{
    // For the proof alone: the call tells that the laws of stores hold.
    plane.plane_laws(plane);
    let part = plane.add_blank(stamp)?;
    Ok(part)
}

pub(crate) fn add_leaf(plane: &mut Plane, leaf: Leaf) -> Result<Part, StoreFault>
    requires { ArePlaneWrites leaf }
    ensures draws { IfOk result (λ part. Draws plane_grid 8 plane.new.store 0 (grid_of_leaf leaf) part) }
    ensures grows { HasGrown plane.old plane.new }
    ensures pieces { AddsPiecesOfGrid plane_grid 8 plane.old.store plane.new.store 0 (grid_of_leaf leaf) }
    ensures full { result ≡ Err StoreFault.StoreFull → IsFullStoreFor plane.new.store 0 (grid_of_leaf leaf) }
{
    // For the proof alone, as above.
    plane.plane_laws(plane);
    let part = plane.add_leaf(leaf)?;
    Ok(part)
}

/// Adds the square of four parts, so many levels above a leaf.
pub(crate) fn add_four(plane: &mut Plane, above: u32, parts: [Part; 4]) -> Result<Part, StoreFault>
    requires least { 0 < above }
    requires most { above ≤ 28 }
    requires parts { AreAt plane.old.store (above - 1) parts }
    ensures draws { IfOk result (λ part. Draws plane_grid 8 plane.new.store above (four_grid plane_grid 8 plane.old.store (above - 1) parts) part) }
    ensures grows { HasGrown plane.old plane.new }
    ensures pieces { AddsPiecesOfGrid plane_grid 8 plane.old.store plane.new.store above (four_grid plane_grid 8 plane.old.store (above - 1) parts) }
    ensures full { result ≡ Err StoreFault.StoreFull → IsFullStoreFor plane.new.store above (four_grid plane_grid 8 plane.old.store (above - 1) parts) }
{
    // For the proof alone, as above.
    plane.plane_laws(plane);
    let part = plane.add_four(above + LEAF_LEVEL, parts)?;
    Ok(part)
}

/// The same, where a square may be there with these very parts: then nothing is looked up.
pub(crate) fn add_four_over(
    plane: &mut Plane,
    above: u32,
    here: Part,
    quarters: &[Part; 4],
    parts: [Part; 4],
) -> Result<Part, StoreFault>
    requires least { 0 < above }
    requires most { above ≤ 28 }
    requires here { IsAt plane.old.store above here }
    requires quarters { AreQuarters plane.old.store above here quarters.now }
    requires parts { AreAt plane.old.store (above - 1) parts }
    ensures draws { IfOk result (λ part. Draws plane_grid 8 plane.new.store above (four_grid plane_grid 8 plane.old.store (above - 1) parts) part) }
    ensures grows { HasGrown plane.old plane.new }
    ensures pieces { AddsPiecesOfGrid plane_grid 8 plane.old.store plane.new.store above (four_grid plane_grid 8 plane.old.store (above - 1) parts) }
    ensures full { result ≡ Err StoreFault.StoreFull → IsFullStoreFor plane.new.store above (four_grid plane_grid 8 plane.old.store (above - 1) parts) }
{
    if are_same_parts(quarters, &parts) {
        return Ok(here);
    }
    let part = add_four(plane, above, parts)?;
    Ok(part)
}

fn are_same_parts(quarters: &[Part; 4], parts: &[Part; 4]) -> bool
    ensures { IsTrue result → (i : ℕ) → i < 4 → slice_index_or quarters.now i 0 ≡ slice_index_or parts.now i 0 }
{
    quarters[0] == parts[0]
        && quarters[1] == parts[1]
        && quarters[2] == parts[2]
        && quarters[3] == parts[3]
}
