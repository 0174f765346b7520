//! A client of a board that is served: commands come from standard input, one a line, and what they print
//! goes to standard output.
#![tactic(auto)]

mod ahead;
mod away;
mod connection;
mod ears;
mod ends;
mod fault;
mod joined;
mod joining;
mod late;
mod patience;
mod rescue;
mod telling;
mod typed;

pub use fault::JoinFault;
pub use joining::{JoinOptions, Terminal, join};
