//! Files that are added to at their end, and what a crash leaves of them.
//!
//! How a file stood at each moment of a call is part of what is known of it, so that a contract can speak
//! of a crash at any of them. Of a file of the system nothing is known but its failures; a file in memory
//! says all.
#![tactic(auto)]

mod chance;
mod keep;
mod memory;
mod moment;
mod reopen;

pub use chance::Chance;
pub use devices::Failed;
pub use keep::Keep;
pub use memory::MemoryKeep;
pub use moment::Moment;
pub use reopen::Reopen;
