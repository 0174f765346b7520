//! Boxes of cells.

use pattern_cells::Cell;

/// The columns and rows of a box, the first and the last of each.
#[derive(Clone, Copy)]
pub(crate) struct Extent {
    left: i32,
    top: i32,
    right: i32,
    bottom: i32,
}

impl Extent {
    ghost use Rattle.std.specs.Prelude.{◌≡◌, ◌-ℤ◌, fold};
    ghost use Rattle.map_periods.specs.Moves.{are_as_large, extent_at, extent_of, grown};

    /// The box of one cell.
    fn at(cell: &Cell) -> Extent
        ensures { result ≡ extent_at cell.now }
    {
        Extent {
            left: cell.x,
            top: cell.y,
            right: cell.x,
            bottom: cell.y,
        }
    }

    /// The least box that has a cell too.
    fn grown(self, cell: &Cell) -> Extent
        ensures { result ≡ grown self cell.now }
    {
        Extent {
            left: self.left.min(cell.x),
            top: self.top.min(cell.y),
            right: self.right.max(cell.x),
            bottom: self.bottom.max(cell.y),
        }
    }

    /// The least box that has some cells; without a cell that of the origin.
    pub(crate) fn of(cells: &[Cell]) -> Extent
        ensures { result ≡ extent_of cells.now }
    {
        match cells.split_first() {
            Some((first, others)) => Extent::at(first).grown_all(others),
            None => Extent {
                left: 0,
                top: 0,
                right: 0,
                bottom: 0,
            },
        }
    }

    /// The least box that has some cells too.
    fn grown_all(self, cells: &[Cell]) -> Extent
        ensures { result ≡ fold grown self cells.now }
    {
        let mut extent = self;
        for cell in cells {
            extent = extent.grown(cell);
        }
        extent
    }

    /// Whether it is as wide and as high as another one.
    pub(crate) fn is_as_large(self, other: Extent) -> bool
        ensures { result ≡ are_as_large self other }
    {
        self.columns() == other.columns() && self.rows() == other.rows()
    }

    /// How many columns there are behind the first.
    fn columns(self) -> i64
        ensures { result ≡ self.right -ℤ self.left }
    {
        i64::from(self.right) - i64::from(self.left)
    }

    /// How many rows there are behind the first.
    fn rows(self) -> i64
        ensures { result ≡ self.bottom -ℤ self.top }
    {
        i64::from(self.bottom) - i64::from(self.top)
    }
}
