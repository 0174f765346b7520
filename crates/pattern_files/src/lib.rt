//! What a file is that was taken for an RLE text and is none, and what to do with it.
#![tactic(auto)]

mod kind;

pub use kind::FileKind;
