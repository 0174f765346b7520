//! Tiles of 32 by 32 cells.

ghost use Rattle.std.specs.Prelude.{◌≡◌, ℕ, ◌+◌, ◌^◌, ◌<◌, ◌≤◌, ◌↔◌, ◌==◌, ◌&&◌, IsTrue, false, replicate, if◌then◌else◌, length, slice_index};
ghost use Rattle.std.specs.Int.{bit_at};
ghost use Rattle.tile_steps.specs.Tiles.{IsAlive, planes_state, tile_state};
ghost use Rattle.tile_steps.specs.Windows.{IsDigitSet};

/// One binary digit of the state of each cell of a tile: a number is a row, a bit a column.
#[derive(Clone, Copy)]
pub struct TilePlane {
    pub(crate) rows: [u32; 32],
}

/// The states of 32 by 32 cells, as so many binary digits.
#[derive(Clone, Copy)]
pub struct Tile<const N: usize> {
    pub(crate) planes: [TilePlane; N],
}

impl<const N: usize> Tile<N> {
    /// The tile of dead cells.
    pub fn dead() -> Tile<N>
        ensures { (x y : ℕ) → x < 32 → y < 32 → tile_state N result x y ≡ 0 }
    {
        Tile {
            planes: [TilePlane { rows: [0; 32] }; N],
        }
    }

    /// Whether all cells are dead.
    pub fn is_dead(&self) -> bool
        ensures dead { IsTrue result → (x y : ℕ) → x < 32 → y < 32 → tile_state N self.now x y ≡ 0 }
        ensures alive { result ≡ false → IsAlive N self.now }
    {
        for p in 0..N {
            if !is_none(&self.planes[p].rows) {
                return false;
            }
        }
        true
    }

    /// Whether all cells of a row are dead.
    pub fn is_row_dead(&self, row: usize) -> bool
        requires { row < 32 }
        ensures { IsTrue result ↔ ((x : ℕ) → x < 32 → tile_state N self.now x row ≡ 0) }
    {
        for p in 0..N {
            if !is_row_none(&self.planes[p].rows, row) {
                return false;
            }
        }
        true
    }

    /// The state in a column and a row.
    pub fn state(&self, column: usize, row: usize) -> u8
        requires few { N ≤ 8 }
        requires column { column < 32 }
        requires row { row < 32 }
        ensures { result ≡ tile_state N self.now column row }
    {
        let mut state = 0u8;
        for p in 0..N {
            if self.planes[p].rows[row] >> column & 1 == 1 {
                state += 1 << p;
            }
        }
        state
    }
}

fn is_none(rows: &[u32; 32]) -> bool
    ensures none { IsTrue result ↔ (rows.now ≡ replicate 32 0) }
    ensures len { length rows.now ≡ 32 }
    ensures fits { (y : ℕ) → slice_index rows.now y < 4294967296 }
{
    *rows == [0; 32]
}

fn is_row_none(rows: &[u32; 32], row: usize) -> bool
    requires { row < 32 }
    ensures none { IsTrue result ↔ (slice_index rows.now row ≡ 0) }
    ensures fits { slice_index rows.now row < 4294967296 }
{
    rows[row] == 0
}

/// Gives the cell in a column and a row a state.
pub(crate) fn set_state<const N: usize>(
    planes: &mut [TilePlane; N],
    column: usize,
    row: usize,
    state: u8,
)
    requires few { N ≤ 8 }
    requires column { column < 32 }
    requires row { row < 32 }
    requires state { state < 2 ^ N }
    ensures { (x y : ℕ) → x < 32 → y < 32 → planes_state N planes.new x y ≡ (if x == column && y == row then state else planes_state N planes.old x y) }
{
    for p in 0..N {
        set_digit(&mut planes[p].rows, column, row, has_digit(state, p as u32));
    }
}

/// Whether a binary digit of a state is 1.
fn has_digit(state: u8, p: u32) -> bool
    requires { p < 8 }
    ensures { (if result then 1 else 0) ≡ bit_at state p }
{
    state >> p & 1 == 1
}

fn set_digit(rows: &mut [u32; 32], column: usize, row: usize, digit: bool)
    requires column { column < 32 }
    requires row { row < 32 }
    ensures { IsDigitSet column row (if digit then 1 else 0) rows.old rows.new }
{
    rows[row] = with_digit(rows[row], column, digit);
}

/// A row with a digit in a column.
fn with_digit(cells: u32, column: usize, digit: bool) -> u32
    requires { column < 32 }
    ensures { (x : ℕ) → x < 32 → bit_at result x ≡ (if x == column then (if digit then 1 else 0) else bit_at cells x) }
{
    let bit = 1u32 << column;
    if digit { cells | bit } else { cells & !bit }
}
