//! What tests draw, make and run: random edits, squares added by hand, boards of cells, engines filled
//! from cells, and leaves of one write.
#![tactic(auto)]

mod boards;
mod edits;
mod loading;
mod path;
mod single;
mod views;

pub use boards::Board;
pub use edits::{CENTRES, REACH, edit_near, next, write_by};
pub use loading::{advances, plane_of, refuses, shows, takes, walks};
pub use path::{LIVE, one_cell};
pub use single::Single;
pub use views::{AREA, show_the_same, zeros_listed};
