//! Rules of Golly's Generations family: their texts, one cell's step, and what runs of a rule obey.
//!
//! Golly's help ("Algorithm: Generations") describes the rules; Brian's Brain is `/2/3`, Star Wars
//! `345/2/4`, Life `23/3/2`.
#![tactic(auto)]

mod fault;
mod laws;
mod rule;
mod text;

pub use fault::RuleFault;
pub use laws::{evolution_laws, text_laws};
pub use rule::Rule;
