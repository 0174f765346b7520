//! Runs of cells that stand side by side in a row.

ghost use Rattle.std.specs.Prelude.{◌≡◌, ◌+◌, ◌+ℤ◌, pos};

use pattern_cells::Cell;
use std::marker::Model;

/// A run: its first place, and how many places it has, up to 2^32.
#[derive(Clone, Copy, Debug, PartialEq, Eq)]
pub struct Run {
    x: i32,
    y: i32,
    length: u64,
}

impl Model for Run {
    ghost use Rattle.std.specs.Prelude.{◌≤◌, ◌^◌};
    ghost use Rattle.cell_pictures.specs.Runs.{RunValue};

    ghost Value = { RunValue };

    ghost view = { λ r. record { x = r.x; y = r.y; length = r.length } };

    ghost inverse = { λ r. record { x = r.x; y = r.y; length = r.length } };

    ghost invariant = { λ r. r.length ≤ 2 ^ 32 };
}

impl Run {
    ghost use Rattle.std.specs.Prelude.{◌≡◌};
    ghost use Rattle.pattern_cells.specs.Cells.{place_of};
    ghost use Rattle.cell_pictures.specs.Runs.{run_at};
    ghost use Rattle.cell_pictures.specs.Paths.{extended};

    /// The run of one cell.
    pub fn of_cell(cell: Cell) -> Run
        ensures { result ≡ run_at (place_of cell) }
    {
        Run {
            x: cell.x,
            y: cell.y,
            length: 1,
        }
    }

    pub fn x(self) -> i32
        ensures { result ≡ self.x }
    {
        self.x
    }

    pub fn y(self) -> i32
        ensures { result ≡ self.y }
    {
        self.y
    }

    pub fn length(self) -> u64
        ensures { result ≡ self.length }
    {
        self.length
    }

    /// The run with a cell more, if it stands right behind it.
    pub fn extended(self, cell: Cell) -> Option<Run>
        ensures { result ≡ extended self (place_of cell) }
    {
        if cell.y == self.y && i64::from(cell.x) == i64::from(self.x) + self.length as i64 {
            Some(Run {
                x: self.x,
                y: self.y,
                length: self.length + 1,
            })
        } else {
            None
        }
    }
}
