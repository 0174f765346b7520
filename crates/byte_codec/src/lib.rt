//! Readers of bytes put together from parts, and the one law that makes a reader and a spelling
//! belong together.
//!
//! What is read of a text is spelt so, and what is spelt so is read with anything behind it. So no
//! text begins another, and each value has one text.
#![tactic(auto)]

mod laws;
mod reader;

pub use laws::{codec_laws, part_laws};
pub use reader::Reader;
