//! The plane as a quadtree of stamped writes.
//!
//! A plane is a store of distinct squares, and one of them, of level 31, that is its root. It is read as
//! a map from coordinates to writes, and changed by adding squares and setting another root. Equal maps
//! have one tree: a square whose writes are all state 0 with one stamp is one blank, however it was made.
#![tactic(auto)]

mod area;
mod cells;
mod copy;
mod corner;
mod draw;
mod filled;
mod leaf_draw;
mod leaf_kind;
mod lookup;
mod on_plane;
mod plane;
mod sought;
mod square;
mod walk;

pub use cells::ListedCell;
pub use corner::Corner;
pub use leaf_kind::{PlaneLeaf, StampBounds};
pub use plane::Plane;
pub use square::{Square, View};
pub use square_store::{Limits, Part, StoreFault};
