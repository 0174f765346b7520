//! The client's side of a line of frames: the next body, pulled from a source until it is whole.
#![tactic(auto)]

mod fault;
mod line;
mod pulling;
mod receiving;

pub use fault::LineFault;
pub use line::Line;
pub use receiving::receive;
