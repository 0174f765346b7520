//! Edits noted in order, each once, and found by all that they say.
#![tactic(auto)]

mod journal;
mod journal_key;
mod laws;

pub use journal::Journal;
pub use laws::journal_laws;
