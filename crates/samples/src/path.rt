//! Squares added by hand, from a leaf up.

ghost use Rattle.std.specs.Prelude.{IfOk};
ghost use Rattle.stamped_tree.specs.Plane.{IsPart};

use edit_stamps::Write;
use leaf_merge_lanes::Leaf;
use stamped_tree::{Part, Plane, StoreFault};

/// A write of counter 1 and replica 1.
pub const LIVE: Write = Write {
    stamp: 0x1_0001,
    state: 1,
};

/// A square of level 31 with one live cell, the origin of the plane, made from the leaf up.
pub fn one_cell(plane: &mut Plane) -> Result<Part, StoreFault>
    ensures { IfOk result (IsPart plane.new.store 31) }
{
    let blank = plane.add_blank(0)?;
    let mut leaf = Leaf::blank(0);
    leaf.put(0, LIVE);
    let mut part = plane.add_leaf(leaf)?;
    for level in 4..31 {
        part = plane.add_four(level, [part, blank, blank, blank])?;
    }
    plane.add_four(31, [blank, blank, blank, part])
}
