//! Cells that are listed on a plane. In the order of their Morton codes those of each square stand
//! together, quarter after quarter, so a quarter's cells are a slice of the square's.

ghost use Rattle.std.specs.Prelude.{◌≡◌, ◌<◌, ◌≤◌, ◌+◌, ◌==◌, filter, nat_le, nat_lt, IfOk};
ghost use Rattle.std.specs.List.Sorted.{IsNonDecreasingBy, IsStableByKey};
ghost use Rattle.std.specs.Ordering.{nat_cmp};
ghost use Rattle.stamped_tree.specs.Morton.{IsMortonRun, code_of, digit_at, interleaved};

use std::alloc::AllocError;

/// A listed state, and its column and row from the corner of a square.
#[derive(Clone, Copy)]
pub struct ListedCell {
    pub column: u32,
    pub row: u32,
    pub state: u8,
}

/// The cells of the quarters of a square.
#[derive(Clone, Copy)]
pub struct QuarterCells<'a> {
    pub nw: &'a [ListedCell],
    pub ne: &'a [ListedCell],
    pub sw: &'a [ListedCell],
    pub se: &'a [ListedCell],
}

/// The cells in the order of their Morton codes. Cells of one place stay in their order.
pub fn in_morton_order(mut cells: Vec<ListedCell>) -> Result<Vec<ListedCell>, AllocError>
    ensures order { IfOk result (λ sorted. IsNonDecreasingBy code_of sorted.items) }
    ensures stable { IfOk result (λ sorted. IsStableByKey code_of nat_cmp cells.items sorted.items) }
{
    cells.sort_by_cached_key(|cell| morton_code(cell.column, cell.row))?;
    Ok(cells)
}

/// The cells of each quarter of the square that they are of, where a quarter has 2^bit columns and rows.
pub fn quartered(cells: &[ListedCell], bit: u32) -> QuarterCells<'_>
    requires bit { bit < 31 }
    requires cells { IsMortonRun (bit + 1) cells.now }
    ensures nw { result.nw.now ≡ filter (λ c. digit_at bit c == 0) cells.now }
    ensures ne { result.ne.now ≡ filter (λ c. digit_at bit c == 1) cells.now }
    ensures sw { result.sw.now ≡ filter (λ c. digit_at bit c == 2) cells.now }
    ensures se { result.se.now ≡ filter (λ c. digit_at bit c == 3) cells.now }
{
    let (north, south) = cut(cells, bit, 2);
    let (nw, ne) = cut(north, bit, 1);
    let (sw, se) = cut(south, bit, 3);
    QuarterCells { nw, ne, sw, se }
}

/// The cells whose digit is below a number, and the others, of cells in the order of their digits.
fn cut(cells: &[ListedCell], bit: u32, least: u32) -> (&[ListedCell], &[ListedCell])
    requires bit { bit < 31 }
    requires order { IsNonDecreasingBy (digit_at bit) cells.now }
    ensures below { result.0.now ≡ filter (λ c. nat_lt (digit_at bit c) least) cells.now }
    ensures from { result.1.now ≡ filter (λ c. nat_le least (digit_at bit c)) cells.now }
{
    let place = cells.partition_point(|cell| digit(cell, bit) < least);
    cells.split_at(place)
}

/// A digit in base 4 of a cell's Morton code.
fn digit(cell: &ListedCell, bit: u32) -> u32
    requires { bit < 31 }
    ensures { result ≡ digit_at bit cell.now }
{
    2 * ((cell.row >> bit) % 2) + (cell.column >> bit) % 2
}

/// The Morton code of a place (G. M. Morton, 1966): the bits of the column and of the row by turns, from
/// the column's lowest. Of each the low 31 bits count, which are all that a plane has.
fn morton_code(column: u32, row: u32) -> u64
    ensures { result ≡ interleaved 31 column row }
{
    spread(column) + 2 * spread(row)
}

/// The low 31 bits of a coordinate, each at twice its place.
fn spread(coordinate: u32) -> u64
    ensures value { result ≡ interleaved 31 coordinate 0 }
    ensures most { result ≤ 0x5555555555555555 }
{
    let low = spread_byte(coordinate % 0x100) + 0x1_0000 * spread_byte(coordinate / 0x100 % 0x100);
    let high = spread_byte(coordinate / 0x1_0000 % 0x100)
        + 0x1_0000 * spread_byte(coordinate / 0x100_0000 % 0x80);
    low + 0x1_0000_0000 * high
}

/// The bits of a byte, each at twice its place: by masks, as in Anderson's *Bit Twiddling Hacks*.
fn spread_byte(byte: u32) -> u64
    requires { byte < 256 }
    ensures value { result ≡ interleaved 8 byte 0 }
    ensures most { result ≤ 0x5555 }
{
    let nibbles = (byte | byte << 4) & 0x0f0f;
    let pairs = (nibbles | nibbles << 2) & 0x3333;
    u64::from((pairs | pairs << 1) & 0x5555)
}
