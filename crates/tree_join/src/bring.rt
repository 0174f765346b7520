//! Squares of the other plane that win everywhere, brought over.

ghost use Rattle.std.specs.Prelude.{◌≡◌, ◌<◌, ◌≤◌, ℕ, Err, IfOk};
ghost use Rattle.square_store.specs.Pieces.{AddsPiecesOfGrid};
ghost use Rattle.square_store.specs.Seen.{IsBlankAt, IsFourAt, IsLeafAt};
ghost use Rattle.square_store.specs.Squares.{IsAt, grid_at};
ghost use Rattle.stamped_tree.specs.Copy.{IsCopy};
ghost use Rattle.stamped_tree.specs.Full.{IsFullStoreFor};
ghost use Rattle.stamped_tree.specs.LeafKind.{plane_grid};
ghost use Rattle.stamped_tree.specs.Plane.{HasGrown};
ghost use Rattle.tree_join.specs.Leaves.{leaf_listed};
ghost use Rattle.tree_join.specs.Remembered.{RemembersCopies};

use crate::add::{add_blank, add_four, add_leaf};
use crate::remember::{copy_made, keep_copy};
use indexmap::IndexMap;
use leaf_merge_lanes::Leaf;
use stamped_tree::{Part, Plane, StoreFault, View};

/// Copies the other plane's square at a part, so many levels above a leaf, and of what is below it what
/// was not copied before.
#[cycle(bring)]
pub(crate) fn bring(
    plane: &mut Plane,
    other: &Plane,
    copies: &mut IndexMap<Part, Part>,
    above: u32,
    there: Part,
) -> Result<Part, StoreFault>
    requires most { above ≤ 28 }
    requires there { IsAt other.now.store above there }
    requires copies { RemembersCopies plane.old.store other.now.store copies.old }
    ensures copy { IfOk result (IsCopy other.now.store plane.new.store there) }
    ensures grows { HasGrown plane.old plane.new }
    ensures copies { RemembersCopies plane.new.store other.now.store copies.new }
    ensures pieces { AddsPiecesOfGrid plane_grid 8 plane.old.store plane.new.store above (grid_at plane_grid 8 other.now.store above there) }
    ensures full { result ≡ Err StoreFault.StoreFull → IsFullStoreFor plane.new.store above (grid_at plane_grid 8 other.now.store above there) }
{
    match other.square(there).view() {
        View::Blank(stamp) => bring_blank(plane, other, there, stamp),
        View::Leaf(leaf) => bring_leaf(plane, other, there, leaf),
        View::Four { nw, ne, sw, se } => {
            let parts = [nw.part(), ne.part(), sw.part(), se.part()];
            let four = FourParts { there, parts };
            bring_four(plane, other, copies, above, &four)
        }
    }
}

fn bring_blank(
    plane: &mut Plane,
    other: &Plane,
    there: Part,
    stamp: u64,
) -> Result<Part, StoreFault>
    requires { IsBlankAt plane_grid 8 other.now.store stamp there }
    ensures copy { IfOk result (IsCopy other.now.store plane.new.store there) }
    ensures grows { HasGrown plane.old plane.new }
    ensures pieces { (k : ℕ) → IsAt other.now.store k there → AddsPiecesOfGrid plane_grid 8 plane.old.store plane.new.store k (grid_at plane_grid 8 other.now.store k there) }
    ensures full { result ≡ Err StoreFault.StoreFull → (k : ℕ) → IsAt other.now.store k there → IsFullStoreFor plane.new.store k (grid_at plane_grid 8 other.now.store k there) }
{
    other.plane_laws(plane);
    let copy = add_blank(plane, stamp)?;
    Ok(copy)
}

fn bring_leaf(
    plane: &mut Plane,
    other: &Plane,
    there: Part,
    leaf: &Leaf,
) -> Result<Part, StoreFault>
    requires { IsLeafAt plane_grid 8 other.now.store (leaf_listed leaf.now) there }
    ensures copy { IfOk result (IsCopy other.now.store plane.new.store there) }
    ensures grows { HasGrown plane.old plane.new }
    ensures pieces { (k : ℕ) → IsAt other.now.store k there → AddsPiecesOfGrid plane_grid 8 plane.old.store plane.new.store k (grid_at plane_grid 8 other.now.store k there) }
    ensures full { result ≡ Err StoreFault.StoreFull → (k : ℕ) → IsAt other.now.store k there → IsFullStoreFor plane.new.store k (grid_at plane_grid 8 other.now.store k there) }
{
    other.plane_laws(plane);
    let copy = add_leaf(plane, *leaf)?;
    Ok(copy)
}

/// A square of the other plane, and its quarters.
#[derive(Clone, Copy)]
struct FourParts {
    there: Part,
    parts: [Part; 4],
}

#[cycle(bring)]
fn bring_four(
    plane: &mut Plane,
    other: &Plane,
    copies: &mut IndexMap<Part, Part>,
    above: u32,
    four: &FourParts,
) -> Result<Part, StoreFault>
    requires most { above ≤ 28 }
    requires four { IsFourAt plane_grid 8 other.now.store above four.now.parts four.now.there }
    requires copies { RemembersCopies plane.old.store other.now.store copies.old }
    ensures copy { IfOk result (IsCopy other.now.store plane.new.store four.now.there) }
    ensures grows { HasGrown plane.old plane.new }
    ensures copies { RemembersCopies plane.new.store other.now.store copies.new }
    ensures pieces { AddsPiecesOfGrid plane_grid 8 plane.old.store plane.new.store above (grid_at plane_grid 8 other.now.store above four.now.there) }
    ensures full { result ≡ Err StoreFault.StoreFull → IsFullStoreFor plane.new.store above (grid_at plane_grid 8 other.now.store above four.now.there) }
{
    if let Some(copy) = copy_made(copies, plane, other, four.there) {
        return Ok(copy);
    }
    let nw = bring(plane, other, copies, above - 1, four.parts[0])?;
    let ne = bring(plane, other, copies, above - 1, four.parts[1])?;
    let sw = bring(plane, other, copies, above - 1, four.parts[2])?;
    let se = bring(plane, other, copies, above - 1, four.parts[3])?;
    let copy = add_four(plane, above, [nw, ne, sw, se])?;
    keep_copy(copies, plane, other, four.there, copy)?;
    Ok(copy)
}
