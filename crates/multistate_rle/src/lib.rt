//! Texts in Golly's multi-state RLE, read and written: patterns of cells with up to 256 states, as
//! pattern collectors exchange them.
//!
//! Golly's help ("File formats: Extended RLE format") and LifeWiki ("Run Length Encoded") describe
//! the format.
#![tactic(auto)]

mod ahead;
mod bounds;
mod fault;
mod header;
mod laws;
mod letters;
mod line;
mod lines;
mod numbers;
mod origin;
mod reading;
mod role;
mod tokens;
mod writable;
mod writing;

pub use fault::RleFault;
pub use laws::{reading_laws, token_laws};
pub use reading::parse;
pub use writable::are_writable;
pub use writing::write;
