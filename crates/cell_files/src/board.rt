//! The board of an MCell file, and where it puts the cells.

ghost use Rattle.std.specs.Prelude.{◌≡◌, ◌≤◌, ◌<◌, ◌^◌, ◌∷◌, neg_ℤ, pos, IfOk};
ghost use Rattle.cell_files.specs.MCell.{columns_of, moved_back, placed_on, rows_of};

use pattern_cells::{Pattern, PatternCell};
use std::alloc::{AllocError, Global};

/// A grid of cells of so many columns and rows; a side of 0 has no end, and not both are 0.
#[derive(Clone, Copy, Debug, PartialEq, Eq)]
pub struct Board {
    pub width: u32,
    pub height: u32,
}

/// A pattern as it stands on a board.
pub fn placed_on(
    alloc: Global,
    board: Option<Board>,
    pattern: Pattern,
) -> Result<Pattern, AllocError>
    ensures { IfOk result (λ placed. placed ≡ placed_on board pattern) }
{
    let Some(board) = board else {
        return Ok(pattern);
    };
    let cells = pattern.cells();
    let x = position(board.width, columns_of(cells));
    let y = position(board.height, rows_of(cells));
    Ok(Pattern::new(
        pattern.width(),
        pattern.height(),
        (x, y),
        pattern.generation(),
        cells.to_vec(alloc)?,
    ))
}

/// Where the first column of a box stands, or its first row.
fn position(side: u32, extent: u64) -> i32
    requires { extent ≤ 2 ^ 32 }
    ensures { result ≡ neg_ℤ (pos (moved_back side extent)) }
{
    -(moved_back(u64::from(side), extent) as i64) as i32
}

fn moved_back(side: u64, extent: u64) -> u64
    requires side { side < 2 ^ 32 }
    requires extent { extent ≤ 2 ^ 32 }
    ensures value { result ≡ moved_back side extent }
    ensures small { result ≤ 2 ^ 31 }
{
    if extent <= side + 1 {
        (side / 2).saturating_sub((side + 1 - extent) / 2)
    } else {
        side / 2 + (extent - (side + 1)) / 2
    }
}

/// How many columns the least box of all cells has.
fn columns_of(cells: &[PatternCell]) -> u64
    ensures columns { result ≡ columns_of cells.now }
    ensures few { result ≤ 2 ^ 32 }
{
    match cells.split_first() {
        Some((first, rest)) => columns_round(first, rest),
        None => 0,
    }
}

/// How many columns a cell and others have.
fn columns_round(first: &PatternCell, rest: &[PatternCell]) -> u64
    ensures columns { result ≡ columns_of (first.now ∷ rest.now) }
    ensures few { result ≤ 2 ^ 32 }
{
    let mut least = u64::from(first.column);
    let mut past = least + 1;
    for cell in rest {
        let column = u64::from(cell.column);
        least = least.min(column);
        past = past.max(column + 1);
    }
    past - least
}

/// How many rows that box has.
fn rows_of(cells: &[PatternCell]) -> u64
    ensures rows { result ≡ rows_of cells.now }
    ensures few { result ≤ 2 ^ 32 }
{
    match cells.split_first() {
        Some((first, rest)) => rows_round(first, rest),
        None => 0,
    }
}

/// How many rows a cell and others have.
fn rows_round(first: &PatternCell, rest: &[PatternCell]) -> u64
    ensures rows { result ≡ rows_of (first.now ∷ rest.now) }
    ensures few { result ≤ 2 ^ 32 }
{
    let mut least = u64::from(first.row);
    let mut past = least + 1;
    for cell in rest {
        let row = u64::from(cell.row);
        least = least.min(row);
        past = past.max(row + 1);
    }
    past - least
}
