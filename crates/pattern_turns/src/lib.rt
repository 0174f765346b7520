//! Patterns turned: a quarter turn to the left or to the right, a half turn, and the two mirror images that exchange
//! left and right, or top and bottom. Two turns give each of the eight ways to lay a pattern.
#![tactic(auto)]

mod laws;
mod turn;
mod turning;

pub use laws::turn_laws;
pub use turn::Turn;
pub use turning::turned;
