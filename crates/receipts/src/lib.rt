//! One answer for each submission: it names that submission, and a published list that has it.
//!
//! Each submission's answer goes through a channel of its own, from the relay's end (`Answering`) to the
//! seat's (`Pending`). Which entry and which board a channel is for stands in the proofs alone, in the pass
//! of each end.
#![tactic(auto)]

mod bell;
mod ends;
mod opening;
mod rule;

pub use ends::{Answered, Answering, NoAnswer, Pending};
pub use opening::open;
pub use rule::{About, Answer, Binds, ReceiptRule, Receives, Sends, Submitted};
