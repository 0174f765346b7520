//! RLE texts brought into canonical form, from a source's bytes to a sink's.
#![tactic(auto)]

mod canonical;
mod fault;
mod run;

pub use genedit_io::RunFault;
pub use run::{rle_text, rle_text_within};
