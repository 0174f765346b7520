//! What the text of a file draws that is opened, on a board or in a document: the cells of a board that was saved,
//! or of a macrocell, or a pattern.
#![tactic(auto)]

mod macrocells;
mod opening;
mod pieces;
mod saved;

pub use macrocells::macrocell_refusal;
pub use opening::{Opening, Unopened, opening_of};
pub use pieces::spec_of;
pub use saved::{Saved, saved_in};
