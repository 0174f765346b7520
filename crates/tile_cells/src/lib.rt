//! The cells of a list so many generations later, by tiles.
//!
//! The cells fill tiles of 32 by 32 cells (`tile_steps`), which are run all at once, and what they
//! show is listed row by row.
#![tactic(auto)]

mod filled;
mod later;
mod listing;
mod order;

pub use later::{CellsFault, Means, cells_later};
pub use tile_steps::TileFault;
