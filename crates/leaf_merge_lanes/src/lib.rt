//! Squares of 8 by 8 writes, merged by whole vectors of lanes.
//!
//! A leaf is 64 last-writer-wins registers (Shapiro et al., INRIA RR-7506), row by row. Two leaves
//! merge to the greater write at each place, with no branch on what was written. No call takes
//! memory.
#![tactic(auto)]

mod bounds;
mod lanes;
mod leaf;

pub use leaf::Leaf;
