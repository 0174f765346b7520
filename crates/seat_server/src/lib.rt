//! Serving the seats of a board: each seat on a thread of its own, over one stream after another, while the
//! relay takes turns, up to the closing account.
//!
//! Where the streams come from, and what wakes who waits for one, is the caller's: `Accept` and `Wake`.
#![tactic(auto)]

mod accept;
mod fault;
mod laws;
mod progress;
mod seats;
mod server;
mod sitting;
mod turns;

pub use accept::{Accept, Ends, Streams, Wake};
pub use fault::ServerFault;
pub use laws::one_list_laws;
pub use progress::Progress;
pub use seats::{Attendance, attending};
pub use server::{Finished, parted, serve_seats};
pub use sitting::{Attended, SessionEnd};
