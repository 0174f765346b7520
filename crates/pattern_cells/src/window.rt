//! Rectangles of the plane.

/// A rectangle of the plane without an edge: the columns `x`, `x + 1`, .., as many as its width, and the rows `y`,
/// `y + 1`, .., as many as its height. Where a side is 0 nothing is in it.
#[derive(Clone, Copy, Debug, PartialEq, Eq)]
pub struct Window {
    pub x: i32,
    pub y: i32,
    pub width: u32,
    pub height: u32,
}
