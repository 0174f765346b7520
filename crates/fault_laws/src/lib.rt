//! One table for the refusals of all crates.
#![tactic(auto)]

mod laws;

pub use laws::name_laws;
