//! `genedit check`: what is wrong with a script, each mistake with its place and its cure, and else what
//! would be refused when it is run.
#![tactic(auto)]

mod block;
mod check;
mod refusals;
mod report;
mod words;

pub use check::{CheckOutcome, Report, check_script, checked};
pub use refusals::{Refusal, refusals_in};
