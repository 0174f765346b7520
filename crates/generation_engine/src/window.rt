//! The cells of a universe that are not dead and in a window.

ghost use Rattle.std.specs.Prelude.{◌≡◌, ◌≤◌, ◌+◌, map, length, IfOk, OnOk};
ghost use Rattle.std.specs.List.Sorted.{IsNonDecreasingBy};
ghost use Rattle.square_store.specs.Squares.{IsAt};
ghost use Rattle.bitplane_kernel.specs.Population.{population};
ghost use Rattle.stamped_tree.specs.Walk.{AreGathered, IsNonzeroCell};
ghost use Rattle.generation_engine.specs.Counts.{AreCounted};
ghost use Rattle.generation_engine.specs.EngineLeaf.{leaf_grid};
ghost use Rattle.generation_engine.specs.Placed.{GathersSeen, IsPlaced, seen_population};
ghost use Rattle.generation_engine.specs.Region.{seen_grid};
ghost use Rattle.generation_engine.specs.Walk.{GathersSquare, cell_of_middle, middle_grid, middle_order, spot_of};

use crate::counts::count_square;
use crate::gathered::GatheredCells;
use crate::leaf_kind::EngineLeaf;
use crate::placed::{PlacedSquare, middle_squares, seen_cell, side_by_side};
use crate::region::Region;
use crate::walk::{gather, push_live};
use indexmap::IndexMap;
use pattern_cells::Cell;
use square_store::{Part, Square, Store};
use stamped_tree::Corner;
use std::alloc::{AllocError, Global};

/// The cells in a region of the middle of the root, by row and then by column; memory is taken once for
/// all of them.
pub(crate) fn region_cells(
    alloc: Global,
    store: &Store<EngineLeaf>,
    root: Part,
    region: Region,
) -> Result<Vec<Cell>, AllocError>
    requires { IsAt store.now 30 root }
    ensures sorted { IfOk result (λ cells. IsNonDecreasingBy middle_order (map spot_of cells.items)) }
    ensures cells { IfOk result (λ cells. AreGathered (IsNonzeroCell 4294967296 (seen_grid region 0 0 (middle_grid store.now root)) 0 0) (map spot_of cells.items)) }
    ensures count { IfOk result (λ cells. length (map spot_of cells.items) ≡ population 4294967296 (λ u v. (seen_grid region 0 0 (middle_grid store.now root) u v).state)) }
    ensures placed { IfOk result (λ cells. map cell_of_middle (map spot_of cells.items) ≡ cells.items) }
{
    let count = region_population(alloc, store, root, region);
    let mut found = GatheredCells::with_capacity(alloc, count)?;
    let squares = middle_squares(store, root);
    gather_in(store, &squares.nw, region, &mut found)?;
    gather_in(store, &squares.ne, region, &mut found)?;
    gather_in(store, &squares.sw, region, &mut found)?;
    gather_in(store, &squares.se, region, &mut found)?;
    Ok(found.into_sorted())
}

/// How many cells are not dead in a region of the middle of the root.
pub(crate) fn region_population(
    alloc: Global,
    store: &Store<EngineLeaf>,
    root: Part,
    region: Region,
) -> u128
    requires { IsAt store.now 30 root }
    ensures { result ≡ population 4294967296 (λ u v. (seen_grid region 0 0 (middle_grid store.now root) u v).state) }
{
    let mut counts = IndexMap::new(alloc);
    let squares = middle_squares(store, root);
    let nw = count_in(store, &mut counts, &squares.nw, region);
    let ne = count_in(store, &mut counts, &squares.ne, region);
    let sw = count_in(store, &mut counts, &squares.sw, region);
    let se = count_in(store, &mut counts, &squares.se, region);
    nw + ne + sw + se
}

/// Puts the cells of a square that a region has last. What the region does not meet is not gone into.
fn gather_in(
    store: &Store<EngineLeaf>,
    square: &PlacedSquare,
    region: Region,
    found: &mut GatheredCells,
) -> Result<(), AllocError>
    requires { IsPlaced store.now square.now }
    ensures { OnOk result (GathersSeen store.now region square.now found.old found.new) }
{
    let own = Region::of_square(square);
    if !region.meets(own) {
        return Ok(());
    }
    if region.has_all(own) {
        gather(store, square.level, square.part, square.corner, found)?;
        return Ok(());
    }
    match store.square(square.part) {
        Square::Blank(_) => Ok(()),
        Square::Leaf(leaf) => {
            gather_leaf_in(leaf, square.corner, region, found)?;
            Ok(())
        }
        Square::Four { parts, .. } => {
            let quarters = side_by_side(square.level - 1, parts, square.corner);
            gather_in(store, &quarters.nw, region, found)?;
            gather_in(store, &quarters.ne, region, found)?;
            gather_in(store, &quarters.sw, region, found)?;
            gather_in(store, &quarters.se, region, found)?;
            Ok(())
        }
    }
}

fn gather_leaf_in(
    leaf: &EngineLeaf,
    corner: Corner,
    region: Region,
    found: &mut GatheredCells,
) -> Result<(), AllocError>
    requires left { corner.left + 8 ≤ 4294967296 }
    requires top { corner.top + 8 ≤ 4294967296 }
    ensures { OnOk result (GathersSquare 8 (seen_grid region corner.left corner.top (leaf_grid leaf.now)) corner.left corner.top found.old found.new) }
{
    for place in 0..64u32 {
        let cell = seen_cell(leaf, corner, region, place);
        push_live(cell, found)?;
    }
    Ok(())
}

/// How many cells of a square are not dead and in a region. What the region does not meet is not gone
/// into, and the count of a square of four that it has as a whole is noted.
fn count_in(
    store: &Store<EngineLeaf>,
    counts: &mut IndexMap<Part, u128>,
    square: &PlacedSquare,
    region: Region,
) -> u128
    requires placed { IsPlaced store.now square.now }
    requires counted { AreCounted store.now counts.old.entries }
    ensures count { result ≡ seen_population store.now region square.now }
    ensures counted { AreCounted store.now counts.new.entries }
{
    let own = Region::of_square(square);
    if !region.meets(own) {
        return 0;
    }
    if region.has_all(own) {
        return count_square(store, counts, square.level, square.part);
    }
    match store.square(square.part) {
        Square::Blank(_) => 0,
        Square::Leaf(leaf) => count_leaf_in(leaf, square.corner, region),
        Square::Four { parts, .. } => {
            let quarters = side_by_side(square.level - 1, parts, square.corner);
            let nw = count_in(store, counts, &quarters.nw, region);
            let ne = count_in(store, counts, &quarters.ne, region);
            let sw = count_in(store, counts, &quarters.sw, region);
            let se = count_in(store, counts, &quarters.se, region);
            nw + ne + sw + se
        }
    }
}

fn count_leaf_in(leaf: &EngineLeaf, corner: Corner, region: Region) -> u128
    requires left { corner.left + 8 ≤ 4294967296 }
    requires top { corner.top + 8 ≤ 4294967296 }
    ensures { result ≡ population 8 (λ u v. (seen_grid region corner.left corner.top (leaf_grid leaf.now) u v).state) }
{
    let mut count = 0;
    for place in 0..64u32 {
        let cell = seen_cell(leaf, corner, region, place);
        if cell.state != 0 {
            count += 1;
        }
    }
    count
}
