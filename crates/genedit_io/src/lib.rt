//! How the programs read what they are given, and how they end.
#![tactic(auto)]

mod cause;
mod fault;
mod pull;
mod push;
mod told;

pub use cause::{Cause, cause_of};
pub use fault::RunFault;
pub use pull::pull_all;
pub use push::push_output;
pub use told::{file_fault_text, port_fault_text};
