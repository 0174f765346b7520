//! Copies of squares into another store.

ghost use Rattle.std.specs.Prelude.{◌≡◌, ◌-◌, ◌<◌, OnOk, IfOk, IfSome, IfNone, None};
ghost use Rattle.square_store.specs.Pieces.{AddsPiecesOfGrid};
ghost use Rattle.square_store.specs.Seen.{IsBlankAt, IsFourAt, IsLeafAt};
ghost use Rattle.square_store.specs.Squares.{IsAt, grid_at};
ghost use Rattle.square_store.specs.Store.{IsGrown};
ghost use Rattle.stamped_tree.specs.Copy.{AreAllCopies, AreCopies, AddsAtMost, IsCopy, IsNoted};
ghost use Rattle.stamped_tree.specs.LeafKind.{plane_grid};

use crate::leaf_kind::PlaneLeaf;
use indexmap::IndexMap;
use square_store::{Part, Square, Store, StoreFault};
use std::alloc::AllocError;

/// Copies the square at a part, so many levels above a leaf, and all below it that was not copied.
pub(crate) fn copy_square(
    source: &Store<PlaneLeaf>,
    target: &mut Store<PlaneLeaf>,
    copies: &mut IndexMap<Part, Part>,
    level: u32,
    part: Part,
) -> Result<Part, AllocError>
    requires part { IsAt source.now level part }
    requires copies { AreCopies source.now target.old copies.old.entries }
    ensures grows { IsGrown plane_grid 8 target.old target.new }
    ensures copies { OnOk result (AreCopies source.now target.new copies.new.entries) }
    ensures copy { IfOk result (IsCopy source.now target.new part) }
    ensures pieces { OnOk result (AddsPiecesOfGrid plane_grid 8 target.old target.new level (grid_at plane_grid 8 source.now level part)) }
{
    if let Some(copy) = copies.get(&part) {
        return Ok(*copy);
    }
    match source.square(part) {
        Square::Blank(stamp) => {
            let copy = copy_blank(source, target, copies, part, stamp)?;
            Ok(copy)
        }
        Square::Leaf(leaf) => {
            let copy = copy_leaf(source, target, copies, part, leaf)?;
            Ok(copy)
        }
        Square::Four { parts, .. } => {
            let nw = copy_square(source, target, copies, level - 1, parts[0])?;
            let ne = copy_square(source, target, copies, level - 1, parts[1])?;
            let sw = copy_square(source, target, copies, level - 1, parts[2])?;
            let se = copy_square(source, target, copies, level - 1, parts[3])?;
            let copy = copy_four(
                source,
                target,
                copies,
                level,
                part,
                &parts,
                [nw, ne, sw, se],
            )?;
            Ok(copy)
        }
    }
}

fn copy_blank(
    source: &Store<PlaneLeaf>,
    target: &mut Store<PlaneLeaf>,
    copies: &mut IndexMap<Part, Part>,
    part: Part,
    stamp: u64,
) -> Result<Part, AllocError>
    requires part { IsBlankAt plane_grid 8 source.now stamp part }
    requires copies { AreCopies source.now target.old copies.old.entries }
    ensures grows { IsGrown plane_grid 8 target.old target.new }
    ensures copies { OnOk result (AreCopies source.now target.new copies.new.entries) }
    ensures copy { IfOk result (IsCopy source.now target.new part) }
    ensures added { IfOk result (AddsAtMost target.old target.new) }
{
    source.store_laws();
    match target.add_blank(stamp) {
        Ok(copy) => {
            note(copies, part, copy)?;
            Ok(copy)
        }
        Err(StoreFault::StoreFull) => unreachable!(),
        Err(StoreFault::Memory) => Err(AllocError),
    }
}

fn copy_leaf(
    source: &Store<PlaneLeaf>,
    target: &mut Store<PlaneLeaf>,
    copies: &mut IndexMap<Part, Part>,
    part: Part,
    leaf: &PlaneLeaf,
) -> Result<Part, AllocError>
    requires part { IsLeafAt plane_grid 8 source.now leaf.now part }
    requires copies { AreCopies source.now target.old copies.old.entries }
    ensures grows { IsGrown plane_grid 8 target.old target.new }
    ensures copies { OnOk result (AreCopies source.now target.new copies.new.entries) }
    ensures copy { IfOk result (IsCopy source.now target.new part) }
    ensures added { IfOk result (AddsAtMost target.old target.new) }
{
    source.store_laws();
    match target.add_leaf(*leaf) {
        Ok(copy) => {
            note(copies, part, copy)?;
            Ok(copy)
        }
        Err(StoreFault::StoreFull) => unreachable!(),
        Err(StoreFault::Memory) => Err(AllocError),
    }
}

/// Copies a square of four, of whose parts these are the copies.
fn copy_four(
    source: &Store<PlaneLeaf>,
    target: &mut Store<PlaneLeaf>,
    copies: &mut IndexMap<Part, Part>,
    level: u32,
    part: Part,
    parts: &[Part; 4],
    copied: [Part; 4],
) -> Result<Part, AllocError>
    requires part { IsFourAt plane_grid 8 source.now level parts.now part }
    requires copied { AreAllCopies source.now target.old parts.now copied }
    requires copies { AreCopies source.now target.old copies.old.entries }
    ensures grows { IsGrown plane_grid 8 target.old target.new }
    ensures copies { OnOk result (AreCopies source.now target.new copies.new.entries) }
    ensures copy { IfOk result (IsCopy source.now target.new part) }
    ensures added { IfOk result (AddsAtMost target.old target.new) }
{
    source.store_laws();
    match target.add_four(level, copied) {
        Ok(copy) => {
            note(copies, part, copy)?;
            Ok(copy)
        }
        Err(StoreFault::StoreFull) => unreachable!(),
        Err(StoreFault::Memory) => Err(AllocError),
    }
}

/// Notes the copy of a part.
fn note(copies: &mut IndexMap<Part, Part>, part: Part, copy: Part) -> Result<(), AllocError>
    ensures { OnOk result (IsNoted copies.old.entries copies.new.entries part copy) }
{
    match copies.insert(part, copy) {
        Ok(_) => Ok(()),
        Err(_) => Err(AllocError),
    }
}
