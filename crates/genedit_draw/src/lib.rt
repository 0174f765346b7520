//! Drawing in a document: commands come from a source, one a line, and what they print goes to a sink, each line once the
//! file has what it tells.
#![tactic(auto)]

mod drawing;
mod fault;
mod lines;

pub use drawing::{Drawn, draw};
pub use fault::DrawFault;
pub use lines::Lines;
