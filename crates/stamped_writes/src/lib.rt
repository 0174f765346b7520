//! Writes to the coordinates of a plane, and which of two wins.
//!
//! Each coordinate holds a last-writer-wins register (Shapiro et al., INRIA RR-7506). Writes with equal
//! stamps are ordered by their states, so that any two writes have one greater.
#![tactic(auto)]

mod write;

pub use write::Write;
