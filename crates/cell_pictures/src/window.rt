//! The part of a plane that a picture shows.

ghost use Rattle.std.specs.Prelude.{◌≡◌, ◌^◌, ◌+ℤ◌, ◌≤ℤ◌, pos, int_le};
ghost use Rattle.std.specs.Int.{int_min, int_max};
ghost use Rattle.multistate_rle.specs.Bounds.{greatest_coordinate, least_coordinate, span_of};
ghost use Rattle.cell_pictures.specs.Window.{is_on_side};

use pattern_cells::Cell;
use std::marker::Model;

/// How many columns and rows a picture in a terminal has at most, unless a window is asked for.
const MOST_COLUMNS: u64 = 128;

const MOST_ROWS: u64 = 64;

/// A part of the plane: its least column and row, and its sides, which reach up to 2^32. Each of its
/// places has coordinates of 32 bits with their signs. `y` grows downwards.
#[derive(Clone, Copy, Debug, PartialEq, Eq)]
pub struct Window {
    x: i32,
    y: i32,
    width: u64,
    height: u64,
}

impl Model for Window {
    ghost use Rattle.std.specs.Prelude.{IsTrue};
    ghost use Rattle.cell_pictures.specs.Window.{WindowValue, is_window};

    ghost Value = { WindowValue };

    ghost view = { λ v. record { x = v.x; y = v.y; width = v.width; height = v.height } };

    ghost inverse = { λ v. record { x = v.x; y = v.y; width = v.width; height = v.height } };

    ghost invariant = { λ v. IsTrue (is_window (record { x = v.x; y = v.y; width = v.width; height = v.height })) };
}

impl Window {
    ghost use Rattle.std.specs.Prelude.{◌≡◌, ◌+ℤ◌, pos, ◌<◌};
    ghost use Rattle.generations_rule.specs.Place.{at_place};
    ghost use Rattle.cell_pictures.specs.Window.{box_of, cut, is_shown, is_too_large, window_given};

    /// The window with this corner and these sides; none where it has no place, or one whose
    /// coordinates have not 32 bits with their signs.
    pub fn given(x: i32, y: i32, width: u64, height: u64) -> Option<Window>
        ensures { result ≡ window_given (record { x = x; y = y; width = width; height = height }) }
    {
        if width == 0 || height == 0 || !fits(x, width) || !fits(y, height) {
            return None;
        }
        Some(Window {
            x,
            y,
            width,
            height,
        })
    }

    /// The least window that shows all of these cells; without cells it has no place.
    pub fn around(cells: &[Cell]) -> Window
        ensures { result ≡ box_of cells.now }
    {
        match cells.split_first() {
            Some((first, rest)) => reach_of(first, rest).window(),
            None => Window {
                x: 0,
                y: 0,
                width: 0,
                height: 0,
            },
        }
    }

    pub fn x(self) -> i32
        ensures { result ≡ self.x }
    {
        self.x
    }

    pub fn y(self) -> i32
        ensures { result ≡ self.y }
    {
        self.y
    }

    pub fn width(self) -> u64
        ensures { result ≡ self.width }
    {
        self.width
    }

    pub fn height(self) -> u64
        ensures { result ≡ self.height }
    {
        self.height
    }

    /// The `x` of one of its columns, counted from 0.
    pub fn column(self, column: u64) -> i32
        requires { column < self.width }
        ensures { result ≡ self.x +ℤ pos column }
    {
        (i64::from(self.x) + column as i64) as i32
    }

    /// The `y` of one of its rows, counted from 0.
    pub fn row(self, row: u64) -> i32
        requires { row < self.height }
        ensures { result ≡ self.y +ℤ pos row }
    {
        (i64::from(self.y) + row as i64) as i32
    }

    /// Whether it shows the place at these coordinates.
    pub fn shows(self, x: i32, y: i32) -> bool
        ensures { result ≡ is_shown self (at_place x y) }
    {
        is_on_side(self.x, self.width, x) && is_on_side(self.y, self.height, y)
    }

    /// Whether it has more columns or rows than are drawn in a terminal unless a window is asked for.
    pub fn is_too_large(self) -> bool
        ensures { result ≡ is_too_large self }
    {
        self.width > MOST_COLUMNS || self.height > MOST_ROWS
    }

    /// Its first 128 columns and 64 rows.
    pub fn cut(self) -> Window
        ensures { result ≡ cut self }
    {
        Window {
            x: self.x,
            y: self.y,
            width: self.width.min(MOST_COLUMNS),
            height: self.height.min(MOST_ROWS),
        }
    }
}

/// Whether a side that begins at a coordinate ends where coordinates of 32 bits do.
fn fits(start: i32, side: u64) -> bool
    ensures { result ≡ int_le (start +ℤ pos side) (pos (2 ^ 31)) }
{
    side <= (1 << 32) && i64::from(start) + side as i64 <= 1 << 31
}

/// Whether a coordinate is on a side that begins there and is so long.
fn is_on_side(start: i32, side: u64, coordinate: i32) -> bool
    ensures { result ≡ is_on_side start side coordinate }
{
    start <= coordinate && u64::from(coordinate.abs_diff(start)) < side
}

/// How far some cells reach.
#[derive(Clone, Copy)]
struct Reach {
    left: i32,
    right: i32,
    top: i32,
    bottom: i32,
    ghost across: { left ≤ℤ right },
    ghost down: { top ≤ℤ bottom },
}

impl Reach {
    fn at(cell: Cell) -> Reach
        ensures left { result.left ≡ cell.x }
        ensures right { result.right ≡ cell.x }
        ensures top { result.top ≡ cell.y }
        ensures bottom { result.bottom ≡ cell.y }
    {
        Reach {
            left: cell.x,
            right: cell.x,
            top: cell.y,
            bottom: cell.y,
        }
    }

    fn with(self, cell: Cell) -> Reach
        ensures left { result.left ≡ int_min self.left cell.x }
        ensures right { result.right ≡ int_max self.right cell.x }
        ensures top { result.top ≡ int_min self.top cell.y }
        ensures bottom { result.bottom ≡ int_max self.bottom cell.y }
    {
        Reach {
            left: self.left.min(cell.x),
            right: self.right.max(cell.x),
            top: self.top.min(cell.y),
            bottom: self.bottom.max(cell.y),
        }
    }

    /// The window that reaches as far.
    fn window(self) -> Window
        ensures { result ≡ record { x = self.left; y = self.top; width = span_of self.left self.right; height = span_of self.top self.bottom } }
    {
        Window {
            x: self.left,
            y: self.top,
            width: span(self.left, self.right),
            height: span(self.top, self.bottom),
        }
    }
}

/// How far a first cell and some more reach.
fn reach_of(first: &Cell, rest: &[Cell]) -> Reach
    ensures left { result.left ≡ least_coordinate (λ c. c.x) first.now.x rest.now }
    ensures right { result.right ≡ greatest_coordinate (λ c. c.x) first.now.x rest.now }
    ensures top { result.top ≡ least_coordinate (λ c. c.y) first.now.y rest.now }
    ensures bottom { result.bottom ≡ greatest_coordinate (λ c. c.y) first.now.y rest.now }
{
    let mut reach = Reach::at(*first);
    for cell in rest {
        reach = reach.with(*cell);
    }
    reach
}

/// How many coordinates there are from the one to the other, both counted.
fn span(from: i32, to: i32) -> u64
    ensures { result ≡ span_of from to }
{
    u64::from(to.abs_diff(from)) + 1
}
