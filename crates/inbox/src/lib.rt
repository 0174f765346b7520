//! A bounded inbox: many seats put entries, and one relay takes them. What is taken of each seat is what that
//! seat put, in its order, each once.
//!
//! A seat's end is a `Post`, the relay's the `Drain`. What each of them knows stands in the proofs alone, in its
//! pass: a post what it put; the drain what it took, how many posts it made, and what those put that it has taken
//! in again. Once it has taken all in, these are of the whole inbox.
#![tactic(auto)]

mod ends;
mod rule;
mod submission;

pub use ends::{Drain, Post, Queue, Refused};
pub use rule::{Binds, Booked, Closing, Hand, Hires, InboxRule, Puts, Retires, Takes};
pub use submission::Submission;
