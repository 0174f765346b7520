//! Where a square of a root stands.

ghost use Rattle.std.specs.Prelude.{◌≡◌, ◌≤◌, ◌+◌, ◌/◌, ◌^◌};

/// Where a square of a root stands: the column and the row of its upper left cell, and how many columns and rows it
/// has.
#[derive(Clone, Copy)]
pub struct Area {
    pub column: u64,
    pub row: u64,
    pub side: u64,
}

impl Area {
    /// One of its quarters, so many columns and rows further on.
    pub(crate) fn quarter(self, columns: u64, rows: u64) -> Area
        requires columns { self.column + columns ≤ 2 ^ 63 }
        requires rows { self.row + rows ≤ 2 ^ 63 }
        ensures { result ≡ record { column = self.column + columns; row = self.row + rows; side = self.side / 2 } }
    {
        Area {
            column: self.column + columns,
            row: self.row + rows,
            side: self.side / 2,
        }
    }
}
