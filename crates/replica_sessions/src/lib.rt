//! Sessions: requests as bytes, answered over a hub.
#![tactic(auto)]

mod bodies;
mod fault;
mod kept;
mod kind;
mod pieces;
mod planes;
mod polls;
mod pushes;
mod room;
mod session;

pub use fault::SessionFault;
pub use kind::{Kind, kind_of};
pub use session::Session;
