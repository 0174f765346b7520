//! What a client does with a command on a board that is served: it polls, draws, shows and exports by a
//! replica of its own, and tells in lines what came and what was done.
#![tactic(auto)]

mod anew;
mod client;
mod counting;
mod drawn;
mod drawn_behind;
mod exporting;
mod fault;
mod filming;
mod following;
mod joining;
mod late;
mod laws;
mod lines;
mod macrocell;
mod naming;
mod outcome;
mod pasting;
mod polling;
mod returning;
mod searching;
mod showing;
mod telling;
mod undoing;
mod waiting;
mod workspace;

pub use client::Client;
pub use fault::CommandFault;
pub use following::Followed;
pub use joining::{Telling, Unjoined};
pub use laws::session_laws;
pub use outcome::Outcome;
pub use pasting::{Corner, PasteMode};
pub use returning::{Before, Return};
pub use waiting::{Patience, end_of, rest_within, time_until};
pub use workspace::Workspace;
