//! Golly's macrocells read: a map of states as the lines of its distinct squares.
#![tactic(auto)]

mod area;
mod block;
mod cells;
mod counts;
mod entry;
mod fault;
mod found;
mod head;
mod laws;
mod leaves;
mod listed;
mod listing_fault;
mod macrocell;
mod marks;
mod numbers;
mod reading;
mod square_line;
mod standing;
mod text;

pub use entry::Entry;
pub use fault::MacrocellFault;
pub use head::RulePlace;
pub use laws::{cell_laws, line_laws, map_laws, text_laws};
pub use listing_fault::ListingFault;
pub use macrocell::Macrocell;
pub use text::read_macrocell;
