//! Files of the system as files that are added to at their end, each for one process alone.
#![tactic(auto)]

mod beside;
mod file;
mod opening;

pub use file::FileKeep;
pub use opening::{OpenFault, open};
