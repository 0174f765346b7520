//! Where a square is.

/// The column and the row of a square's corner.
#[derive(Clone, Copy)]
pub struct Corner {
    pub left: u32,
    pub top: u32,
}
