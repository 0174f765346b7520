//! Joins of planes: the pointwise greater write.
//!
//! Planes ordered pointwise are a join semilattice (Shapiro et al., INRIA RR-7506): the join of two is
//! the least that is above both. Two planes are gone through side by side, from their roots down; the way
//! ends where the stamps alone tell which writes win, and each pair of squares is joined once.
#![tactic(auto)]

mod add;
mod bring;
mod joins;
mod laws;
mod leaf;
mod looks;
mod order;
mod quarters;
mod remember;
mod sameness;
mod step;

pub use joins::{add_joined, join};
pub use laws::join_laws;
pub use order::at_most;
pub use sameness::{same, same_remembered};
