//! Generations of a block of 16 by 16 cells, on bit planes.
//!
//! A plane holds one binary digit of every cell's state, so one operation on a vector acts on all
//! 256 cells at once. `BitLeaf` is a square of side 8, `Block` one of side 16, which is made of four
//! leaves, advanced by one, two or four generations, and cut down to the leaf in its middle.
#![tactic(auto)]

mod adders;
mod bits;
mod block;
mod counts;
mod leaf;
mod planes;
mod quarters;
mod step;

pub use block::Block;
pub use leaf::BitLeaf;
