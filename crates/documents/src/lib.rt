//! Documents: sets of edits under one rule, each stamp once. A document is a grow-only set (Shapiro et
//! al., INRIA RR-7506), whose map of the plane is made of the greatest writes of its edits.
#![tactic(auto)]

mod clash;
mod count;
mod document;
mod fault;
mod gathering;
mod laws;
mod put;
mod reading;
mod renumber;
mod set;
mod union;
mod walk;

pub use document::Document;
pub use fault::DocumentFault;
pub use gathering::{Gathered, edit_told, gather};
pub use laws::document_laws;
pub use reading::{ListedEdits, ReadDocument, read_document, read_edits};
