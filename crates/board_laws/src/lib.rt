//! What ties the running board to the replicas of the core.
#![tactic(auto)]

mod laws;

pub use laws::board_laws;
