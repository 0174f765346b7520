//! What happens in a world of replicas, and what is to be drawn: plain data, of which scripts are made and
//! which worlds are run on.
#![tactic(auto)]

mod edit_spec;
mod event;

pub use edit_spec::{CellList, EditSpec};
pub use event::Event;
