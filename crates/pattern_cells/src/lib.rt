//! Cells of a plane, rectangles of it, and patterns: the cells in a box that a text spells, an edit pastes, or a
//! picture shows. What reads and writes texts of them stands above.
#![tactic(auto)]

mod below;
mod cell;
mod pattern;
mod window;

pub use below::are_below;
pub use cell::Cell;
pub use pattern::{Pattern, PatternCell};
pub use window::Window;
