//! Serving the seats of a board that is kept in a file: each on a thread of its own, over one stream after another,
//! while the keeper takes turns, up to the closing account.
//!
//! What a reader is told is on the disk before. Where memory is wanting the keeper waits for it; where the file
//! fails it takes nothing more, and what was published can be read still.
#![tactic(auto)]

mod fault;
mod laws;
mod outages;
mod server;
mod turns;

pub use fault::KeptFault;
pub use laws::{kept_list_laws, restart_laws};
pub use outages::Outages;
pub use server::{KeptAttendance, KeptEnd, serve_kept};
