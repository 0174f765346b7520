//! A cell of the plane.

/// A coordinate and the state there; `y` grows downwards.
#[derive(Clone, Copy, Debug, PartialEq, Eq)]
pub struct Cell {
    pub x: i32,
    pub y: i32,
    pub state: u8,
}
