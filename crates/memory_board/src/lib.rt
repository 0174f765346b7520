//! A board in memory and the ends of lines to it, for tests and trials of clients.
#![tactic(auto)]

mod board;
mod ends;
mod refusal;
mod side;

pub use board::{MemoryBoard, Refusals, Shared, WrongPoll};
pub use ends::{Replies, Requests, line_to};
