//! What is joined into a plane, and how.

ghost use Rattle.std.specs.Prelude.{◌≡◌, IfOk, Err};
ghost use Rattle.edit_stamps.specs.Edit.{greatest, writes_of};
ghost use Rattle.stamped_writes.specs.Write.{AreSame, joined};
ghost use Rattle.stamped_tree.specs.MapPieces.{AddsPiecesOfMap, IsFullForMap};
ghost use Rattle.stamped_tree.specs.Plane.{HasGrown, IsPart, map_of, rooted};
ghost use Rattle.held_plane.specs.Held.{IsJoinedAt, added_writes};
ghost use Rattle.held_plane.specs.Wanted.{AddsPiecesOfSome, IsFullForSome, IsJoinedSoFar, IsWantedOf};

use edit_stamps::Edit;
use stamped_tree::{Part, Plane, StoreFault};
use std::alloc::Global;
use tree_join::add_joined;

/// What is joined into a plane.
#[derive(Clone, Copy)]
pub enum Added<'a> {
    /// What edits write.
    Edits(&'a [Edit]),
    /// A whole map.
    Map(&'a Plane),
}

/// Adds the square that a plane's root would be if something were joined.
pub(crate) fn add_to(alloc: Global, plane: &mut Plane, added: Added<'_>) -> Result<Part, StoreFault>
    ensures joins { IfOk result (IsJoinedAt plane.old plane.new (added_writes added.entry)) }
    ensures grows { HasGrown plane.old plane.new }
    ensures pieces { AddsPiecesOfSome plane.old plane.new (IsWantedOf (map_of plane.old) added.entry) }
    ensures full { result ≡ Err StoreFault.StoreFull → IsFullForSome plane.new (IsWantedOf (map_of plane.old) added.entry) }
{
    let root = plane.root().part();
    match added {
        Added::Edits(edits) => add_edits(alloc, plane, root, edits),
        Added::Map(map) => add_joined(alloc, plane, root, map),
    }
}

/// Adds the square of level 31 that a given one becomes by what edits write.
fn add_edits(
    alloc: Global,
    plane: &mut Plane,
    root: Part,
    edits: &[Edit],
) -> Result<Part, StoreFault>
    requires { IsPart plane.old.store 31 root }
    ensures part { IfOk result (λ part. IsPart plane.new.store 31 part) }
    ensures joins { IfOk result (λ part. AreSame (map_of (rooted plane.new part)) (joined (map_of (rooted plane.old root)) (greatest edits.now))) }
    ensures grows { HasGrown plane.old plane.new }
    ensures pieces { AddsPiecesOfSome plane.old plane.new (IsJoinedSoFar (map_of (rooted plane.old root)) edits.now) }
    ensures full { result ≡ Err StoreFault.StoreFull → IsFullForSome plane.new (IsJoinedSoFar (map_of (rooted plane.old root)) edits.now) }
{
    let mut part = root;
    for edit in edits {
        part = add_edit(alloc, plane, part, edit)?;
    }
    Ok(part)
}

/// Adds the square of level 31 that a given one becomes by what an edit writes. An edit that is newer
/// than all that stands there, as each one that is drawn here, is written over it; of another a plane
/// is made, and joined.
fn add_edit(alloc: Global, plane: &mut Plane, root: Part, edit: &Edit) -> Result<Part, StoreFault>
    requires { IsPart plane.old.store 31 root }
    ensures part { IfOk result (λ part. IsPart plane.new.store 31 part) }
    ensures joins { IfOk result (λ part. AreSame (map_of (rooted plane.new part)) (joined (map_of (rooted plane.old root)) (writes_of edit.now))) }
    ensures grows { HasGrown plane.old plane.new }
    ensures pieces { AddsPiecesOfMap plane.old plane.new (joined (map_of (rooted plane.old root)) (writes_of edit.now)) }
    ensures full { result ≡ Err StoreFault.StoreFull → IsFullForMap plane.new (joined (map_of (rooted plane.old root)) (writes_of edit.now)) }
{
    // For the proof alone: the call tells that what is held is an edit.
    let _cells = edit.listed_cells();
    if plane.square(root).bounds().greatest < edit.stamp().number() {
        return plane.add_overwritten(root, edit);
    }
    let drawn = Plane::of_edit_with_key(alloc, edit, plane.key())?;
    add_joined(alloc, plane, root, &drawn)
}
