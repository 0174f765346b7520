//! Files that are written whole, or not at all.
#![tactic(auto)]

mod new_file;
mod refusal;
mod standing;
mod writing;

pub use refusal::WriteRefusal;
pub use standing::Standing;
pub use writing::{write_refusal, write_whole};
