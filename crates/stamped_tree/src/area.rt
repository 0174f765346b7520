//! Columns and rows of a square.

ghost use Rattle.std.specs.Prelude.{◌≡◌, ◌↔◌, ◌<◌, ◌≤◌, ◌*◌, ◌^◌, ◌-◌, min, IsTrue};
ghost use Rattle.square_store.specs.Squares.{side_at};
ghost use Rattle.stamped_tree.specs.Area.{is_in_area, IsAreaOfPart, IsEmptyArea, IsWholeArea};

/// The columns from `left` up to `right` and the rows from `top` up to `bottom`, without these two
/// ends. They count from the corner of a square.
#[derive(Clone, Copy, PartialEq, Eq, Hash)]
pub struct Area {
    pub left: u32,
    pub right: u32,
    pub top: u32,
    pub bottom: u32,
}

impl Area {
    /// What the area has of a square with so many columns and rows, whose corner is at a column and
    /// a row. It has no column or row that the square does not have.
    pub fn of_part(self, left: u32, top: u32, side: u32) -> Area
        ensures part { IsAreaOfPart self left top side result }
        ensures within { (result.right ≤ side) × (result.bottom ≤ side) }
    {
        Area {
            left: clipped(self.left, left, side),
            right: clipped(self.right, left, side),
            top: clipped(self.top, top, side),
            bottom: clipped(self.bottom, top, side),
        }
    }

    pub fn has(self, column: u32, row: u32) -> bool
        ensures { result ≡ is_in_area self column row }
    {
        self.left <= column && column < self.right && (self.top <= row && row < self.bottom)
    }

    pub fn is_empty(self) -> bool
        ensures { IsTrue result ↔ IsEmptyArea self }
    {
        self.left >= self.right || self.top >= self.bottom
    }

    /// Whether the area has the first so many columns and rows.
    pub fn is_whole(self, side: u32) -> bool
        ensures { IsTrue result ↔ IsWholeArea side self }
    {
        self.left == 0 && side <= self.right && self.top == 0 && side <= self.bottom
    }
}

/// A coordinate from a start on, or the nearer end of the side that begins there.
fn clipped(coordinate: u32, start: u32, side: u32) -> u32
    ensures { result ≡ min (coordinate - start) side }
{
    coordinate.saturating_sub(start).min(side)
}

/// How many columns and rows a square of a level has, where leaves are of level 0 and the plane is
/// of level 28.
pub fn side_of(level: u32) -> u32
    requires { level ≤ 28 }
    ensures { result ≡ side_at 8 level }
{
    8 << level
}
