//! What a poll of one published list hands out, whoever asks: a reader of a board, or a session.
#![tactic(auto)]

mod news;

pub use news::News;
