//! What a command draws in a document that a file keeps: each edit is in the file, synced, before it is told.
#![tactic(auto)]

mod carrying;
mod counting;
mod done;
mod exporting;
mod fault;
mod feeding;
mod filming;
mod macrocell;
mod naming;
mod opening;
mod pen;
mod searching;
mod telling;
mod undoing;

pub use carrying::carry_out;
pub use done::Done;
pub use fault::PenFault;
pub use feeding::{Fed, FeedFault, Feeder};
pub use naming::PasteMode;
pub use pen::{Outcome, Pen};
