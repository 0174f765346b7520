//! What each command of a client comes to at a board: which of its calls it is, and how a file's
//! text is drawn again. What is left to its caller are files, time and the end.
#![tactic(auto)]

mod alone;
mod carrying;
mod done;
mod opening;
mod pieces;
mod printing;
mod refusing;
mod undoing;
mod whole;

pub use alone::carry_on;
pub use carrying::carry_out;
pub use done::Done;
pub use opening::open;
