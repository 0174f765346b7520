//! Generations of a map of states of any extent, in tiles of 32 by 32 cells on bit planes.
//!
//! Four tiles make a window of 64 by 64 cells, a row of which is one number a plane. Up to 16 generations
//! later its middle is right in whatever map it lies: a tile of the grid that is shifted by 16 columns and
//! rows. So a step from one grid to the other has no edges, and dead tiles are not kept.
#![tactic(auto)]

mod adders;
mod bits;
mod counts;
mod fault;
mod filling;
mod generations;
mod planes;
mod rows;
mod step;
mod tile;
mod tiles;
mod window;

pub use fault::TileFault;
pub use filling::Filling;
pub use generations::{TileLimits, run};
pub use step::later;
pub use tile::{Tile, TilePlane};
pub use tiles::{Corner, Tiles};
