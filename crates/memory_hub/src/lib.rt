//! A hub in memory, without a board or threads, for what is to be seen of sessions alone.
#![tactic(auto)]

mod memory;

pub use memory::MemoryHub;
