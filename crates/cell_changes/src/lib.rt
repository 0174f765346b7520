//! Which cells of a plane look different after something was joined into it: the parts that may change
//! are looked at before, and again afterwards.
#![tactic(auto)]

mod settling;
mod states;
mod watched;

pub use pattern_cells::Cell;
pub use watched::Watched;
