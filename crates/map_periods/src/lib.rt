//! Periods: after how many generations the cells of a map stand as they did, moved as a whole.
//!
//! Two lists of cells are compared (`moved_by`), and the generations of a map one after another (`period_of`), whatever
//! tells them (`Generations`): a plane does by tiles (`PlaneGenerations`).
#![tactic(auto)]

mod extent;
mod generations;
mod laws;
mod moves;
mod period;
mod plane;
mod told;

pub use generations::Generations;
pub use laws::period_laws;
pub use moves::{Move, moved_by};
pub use period::{Period, period_of};
pub use plane::{PlaneGenerations, period_in};
pub use told::ToldPeriod;
