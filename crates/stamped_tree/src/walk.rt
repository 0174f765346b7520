//! The cells of a square whose state is not 0, row by row.

ghost use Rattle.std.specs.Prelude.{◌≡◌, ◌<◌, ◌≤◌, ◌+◌, ◌++◌, ◌∷◌, [], map, length, drop, get_or, IfOk, OnOk, IsTrue, if◌then◌else◌, vec_len};
ghost use Rattle.pattern_cells.specs.Cells.{place_of};
ghost use Rattle.square_store.specs.Squares.{IsAt, side_at};
ghost use Rattle.stamped_tree.specs.declared.walk.BandSquare.{BandSquare};
ghost use Rattle.stamped_tree.specs.LeafKind.{plane_grid};
ghost use Rattle.stamped_tree.specs.Plane.{map_of};
ghost use Rattle.stamped_tree.specs.RowOrder.{AreInBand, IsHalved, IsInBand, IsPut, band_cells, band_row, half_top, live_cell, row_cells, sought_cell, sought_state, square_row};
ghost use Rattle.stamped_tree.specs.Sought.{AgreeOn, part_of, seeks, seeks_some};
ghost use Rattle.stamped_tree.specs.Walk.{AreNonzeroCells, cell_of_plane, is_on_plane};

use crate::area::side_of;
use crate::cells::ListedCell;
use crate::corner::Corner;
use crate::leaf_kind::PlaneLeaf;
use crate::sought::Sought;
use pattern_cells::Cell;
use square_store::{Part, Square, Store};
use std::alloc::{AllocError, Global};

/// The least coordinate of the plane.
const LEAST: i64 = -0x4000_0000;

/// The rows of the root.
const ROOT: Rows = Rows { level: 28, top: 0 };

/// A square in a band: squares of one level that lie side by side in the same rows, by their columns.
#[derive(Clone, Copy)]
pub(crate) struct BandPart {
    pub part: Part,
    pub left: u32,
}

/// The same, and what is looked for on it.
#[derive(Drop)]
pub(crate) struct BandSquare {
    pub at: BandPart,
    pub sought: Sought,
}

/// Rows of the plane, as many as a square of a level has, from one on.
#[derive(Clone, Copy)]
struct Rows {
    level: u32,
    top: u32,
}

/// The squares that are gone through, and what is looked for.
#[derive(Clone, Copy)]
struct Search<'a> {
    store: &'a Store<PlaneLeaf>,
    sought: &'a Sought,
}

/// The cells that are looked for of the plane whose root is at a part, sorted by `y`, then `x`. A band is halved into the
/// northern halves of its squares and the southern ones until its squares are leaves, whose rows are then listed one by
/// one: so the cells come in order. A blank is passed over, whatever its side, and so is a square on which nothing is looked
/// for; a square that stands in many places is gone through in each.
pub(crate) fn nonzero_cells(
    alloc: Global,
    store: &Store<PlaneLeaf>,
    root: Part,
    sought: &Sought,
) -> Result<Vec<Cell>, AllocError>
    requires { IsAt store.now 28 root }
    ensures { IfOk result (λ cells. AreNonzeroCells (part_of (seeks sought.now) (map_of (record { store = store.now; root = root }))) cells.items) }
{
    let search = Search { store, sought };
    let whole = BandPart {
        part: root,
        left: 0,
    };
    let corner = Corner { left: 0, top: 0 };
    let on_root = sought.on_square(alloc, corner, side_of(28))?;
    let mut band = Vec::new(alloc);
    search.push_square(ROOT, whole, on_root, &mut band)?;
    let mut found = Vec::new(alloc);
    search.list_band(ROOT, &mut band, 0, &mut found)?;
    Ok(found)
}

impl Search<'_> {
    /// Puts the cells of a band last, whose squares have these rows. They are those from `first` on; behind them their
    /// halves are put, and taken away.
    fn list_band(
        &self,
        rows: Rows,
        band: &mut Vec<BandSquare>,
        first: usize,
        found: &mut Vec<Cell>,
    ) -> Result<(), AllocError>
        requires level { rows.level ≤ 28 }
        requires top { rows.top + side_at 8 rows.level ≤ 2147483648 }
        requires first { first ≤ vec_len band.old }
        requires squares { AreInBand self.now.store.now (seeks self.now.sought.now) rows.level rows.top (drop first band.old.items) }
        ensures cells { OnOk result (found.new.items ≡ found.old.items ++ map cell_of_plane (band_cells self.now.store.now (seeks self.now.sought.now) rows.level rows.top (drop first band.old.items))) }
        ensures band { OnOk result (band.new.items ≡ band.old.items) }
    {
        let Rows { level, top } = rows;
        let past = band.len();
        if first == past {
            return Ok(());
        }
        if level == 0 {
            self.list_leaves(top, &band[first..past], found)?;
            return Ok(());
        }
        let north = Rows {
            level: level - 1,
            top,
        };
        self.push_halves(rows, false, band, first)?;
        self.list_band(north, band, past, found)?;
        band.truncate(past);
        let south = Rows {
            level: level - 1,
            top: top + side_of(level - 1),
        };
        self.push_halves(rows, true, band, first)?;
        self.list_band(south, band, past, found)?;
        band.truncate(past);
        Ok(())
    }

    /// Puts the halves of the squares of a band last, the southern ones or the northern ones, as far as they have cells that
    /// are looked for.
    fn push_halves(
        &self,
        rows: Rows,
        is_south: bool,
        band: &mut Vec<BandSquare>,
        first: usize,
    ) -> Result<(), AllocError>
        requires some { 0 < rows.level }
        requires level { rows.level ≤ 28 }
        requires top { rows.top + side_at 8 rows.level ≤ 2147483648 }
        requires first { first ≤ vec_len band.old }
        requires squares { AreInBand self.now.store.now (seeks self.now.sought.now) rows.level rows.top (drop first band.old.items) }
        ensures { OnOk result (IsHalved self.now.store.now (seeks self.now.sought.now) rows.level rows.top is_south (drop first band.old.items) band.old.items band.new.items) }
    {
        for index in first..band.len() {
            self.push_half(rows, is_south, index, band)?;
        }
        Ok(())
    }

    /// Puts the half of a square of a band last.
    fn push_half(
        &self,
        rows: Rows,
        is_south: bool,
        index: usize,
        band: &mut Vec<BandSquare>,
    ) -> Result<(), AllocError>
        requires some { 0 < rows.level }
        requires level { rows.level ≤ 28 }
        requires top { rows.top + side_at 8 rows.level ≤ 2147483648 }
        requires index { index < vec_len band.old }
        requires square { (d : BandSquare) → IsInBand self.now.store.now (seeks self.now.sought.now) rows.level rows.top (get_or band.old.items index d) }
        ensures { OnOk result ((d : BandSquare) → IsHalved self.now.store.now (seeks self.now.sought.now) rows.level rows.top is_south (get_or band.old.items index d ∷ []) band.old.items band.new.items) }
    {
        let BandPart { part, left } = band[index].at;
        match self.store.square(part) {
            Square::Blank(_) => Ok(()),
            Square::Leaf(_) => unreachable!(),
            Square::Four { parts, .. } => {
                let level = rows.level - 1;
                let side = side_of(level);
                let middle = left + side;
                if is_south {
                    let south = Rows {
                        level,
                        top: rows.top + side,
                    };
                    let west = BandPart {
                        part: parts[2],
                        left,
                    };
                    let east = BandPart {
                        part: parts[3],
                        left: middle,
                    };
                    self.push_quarter(south, west, index, band)?;
                    self.push_quarter(south, east, index, band)?;
                    return Ok(());
                }
                let north = Rows {
                    level,
                    top: rows.top,
                };
                let west = BandPart {
                    part: parts[0],
                    left,
                };
                let east = BandPart {
                    part: parts[1],
                    left: middle,
                };
                self.push_quarter(north, west, index, band)?;
                self.push_quarter(north, east, index, band)?;
                Ok(())
            }
        }
    }

    /// Puts a quarter of a square of a band last, unless it is a blank or nothing is looked for on it.
    fn push_quarter(
        &self,
        rows: Rows,
        quarter: BandPart,
        index: usize,
        band: &mut Vec<BandSquare>,
    ) -> Result<(), AllocError>
        requires level { rows.level ≤ 28 }
        requires stands { IsAt self.now.store.now rows.level quarter.part }
        requires left { quarter.left + side_at 8 rows.level ≤ 2147483648 }
        requires top { rows.top + side_at 8 rows.level ≤ 2147483648 }
        requires index { index < vec_len band.old }
        requires agrees { (d : BandSquare) → AgreeOn quarter.left rows.top (side_at 8 rows.level) (seeks self.now.sought.now) (seeks (get_or band.old.items index d).sought) }
        ensures { OnOk result (IsPut self.now.store.now (seeks self.now.sought.now) rows.level rows.top quarter band.old.items band.new.items) }
    {
        match self.store.square(quarter.part) {
            Square::Blank(_) => Ok(()),
            _written => {
                let alloc = *band.allocator();
                let corner = Corner {
                    left: quarter.left,
                    top: rows.top,
                };
                let sought = band[index]
                    .sought
                    .on_square(alloc, corner, side_of(rows.level))?;
                self.push_square(rows, quarter, sought, band)
            }
        }
    }

    /// Puts a square last, unless nothing is looked for on it.
    fn push_square(
        &self,
        rows: Rows,
        square: BandPart,
        sought: Option<Sought>,
        band: &mut Vec<BandSquare>,
    ) -> Result<(), AllocError>
        requires stands { IsAt self.now.store.now rows.level square.part }
        requires left { square.left + side_at 8 rows.level ≤ 2147483648 }
        requires agrees { AgreeOn square.left rows.top (side_at 8 rows.level) (seeks self.now.sought.now) (seeks_some sought) }
        ensures { OnOk result (IsPut self.now.store.now (seeks self.now.sought.now) rows.level rows.top square band.old.items band.new.items) }
    {
        if let Some(sought) = sought {
            band.push(BandSquare { at: square, sought })?;
        }
        Ok(())
    }

    /// Puts the cells of a band of leaves last.
    fn list_leaves(
        &self,
        top: u32,
        band: &[BandSquare],
        found: &mut Vec<Cell>,
    ) -> Result<(), AllocError>
        requires top { top + 8 ≤ 2147483648 }
        requires squares { AreInBand self.now.store.now (seeks self.now.sought.now) 0 top band.now }
        ensures { OnOk result (found.new.items ≡ found.old.items ++ map cell_of_plane (band_cells self.now.store.now (seeks self.now.sought.now) 0 top band.now)) }
    {
        for row in 0..8u32 {
            self.list_band_row(row, top, band, found)?;
        }
        Ok(())
    }

    /// Puts those in a row of the leaves last, which begin in this row of the plane.
    fn list_band_row(
        &self,
        row: u32,
        top: u32,
        band: &[BandSquare],
        found: &mut Vec<Cell>,
    ) -> Result<(), AllocError>
        requires row { row < 8 }
        requires top { top + 8 ≤ 2147483648 }
        requires squares { AreInBand self.now.store.now (seeks self.now.sought.now) 0 top band.now }
        ensures { OnOk result (found.new.items ≡ found.old.items ++ map cell_of_plane (band_row self.now.store.now (seeks self.now.sought.now) 0 band.now row (top + row))) }
    {
        for square in band {
            self.list_square_row(row, top, square, found)?;
        }
        Ok(())
    }

    fn list_square_row(
        &self,
        row: u32,
        top: u32,
        square: &BandSquare,
        found: &mut Vec<Cell>,
    ) -> Result<(), AllocError>
        requires row { row < 8 }
        requires top { top + 8 ≤ 2147483648 }
        requires square { IsInBand self.now.store.now (seeks self.now.sought.now) 0 top square.now }
        ensures { OnOk result (found.new.items ≡ found.old.items ++ map cell_of_plane (square_row self.now.store.now (seeks self.now.sought.now) 0 square.now.at row (top + row))) }
    {
        match self.store.square(square.at.part) {
            Square::Blank(_) => Ok(()),
            Square::Leaf(leaf) => {
                let corner = Corner {
                    left: square.at.left,
                    top,
                };
                list_leaf_row(leaf, row, corner, &square.sought, found)?;
                Ok(())
            }
            Square::Four { .. } => unreachable!(),
        }
    }
}

/// Puts the cells that are looked for in a row of a leaf last.
fn list_leaf_row(
    leaf: &PlaneLeaf,
    row: u32,
    corner: Corner,
    sought: &Sought,
    found: &mut Vec<Cell>,
) -> Result<(), AllocError>
    requires row { row < 8 }
    requires top { corner.top + 8 ≤ 2147483648 }
    requires left { corner.left + 8 ≤ 2147483648 }
    ensures { OnOk result (found.new.items ≡ found.old.items ++ map cell_of_plane (row_cells (λ u. sought_state (seeks sought.now) (corner.left + u) (corner.top + row) (plane_grid leaf.now u row).state) corner.left (corner.top + row) 8)) }
{
    for column in 0..8u32 {
        let cell = ListedCell {
            column: corner.left + column,
            row: corner.top + row,
            state: leaf.leaf.get((8 * row + column) as usize).state,
        };
        push_sought(sought, cell, found)?;
    }
    Ok(())
}

fn push_sought(sought: &Sought, cell: ListedCell, found: &mut Vec<Cell>) -> Result<(), AllocError>
    requires { IsTrue (is_on_plane cell) }
    ensures { OnOk result (found.new.items ≡ found.old.items ++ map cell_of_plane (live_cell (sought_cell (seeks sought.now) cell))) }
{
    if cell.state != 0 {
        let placed = plane_cell(&cell);
        if sought.has(placed) {
            found.push(placed)?;
        }
    }
    Ok(())
}

fn plane_cell(cell: &ListedCell) -> Cell
    requires { IsTrue (is_on_plane cell.now) }
    ensures { result ≡ cell_of_plane cell.now }
{
    Cell {
        x: (i64::from(cell.column) + LEAST) as i32,
        y: (i64::from(cell.row) + LEAST) as i32,
        state: cell.state,
    }
}
