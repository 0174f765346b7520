//! Macrocells as universes: the squares that a macrocell tells, each distinct one once, in the store of an engine.
//!
//! No cell is listed, so how many there are does not matter: time and memory go by the square lines and by the
//! distinct pairs of squares of which one stands above the other.
#![tactic(auto)]

mod block;
mod fault;
mod leaf;
mod lowering;
mod middle;
mod quarters;
mod reach;
mod reaches;
mod root;
mod state;
mod universe;
mod widening;

pub use fault::UniverseFault;
pub use universe::{UniverseSquares, universe_of};
