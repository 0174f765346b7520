//! A client of a board: a replica that polls over a line of frames.
//!
//! What the client shows is what its replica holds: the greatest-stamped writes of the edits that it was
//! handed (Shapiro et al., INRIA RR-7506).
#![tactic(auto)]

mod anew;
mod awaiting;
mod fault;
mod greeting;
mod hearing;
mod laws;
mod own;
mod pieces;
mod polling;
mod publishing;
mod pushed;
mod pushing;
mod server;
mod tries;

pub use fault::ClientFault;
pub use laws::client_laws;
pub use polling::Polling;
pub use publishing::{Drawing, Saying};
pub use pushed::Pushed;
pub use pushing::Pushing;
pub use server::Server;
