//! What ties the clients of a served board to its one list.
#![tactic(auto)]

mod laws;

pub use laws::shown_laws;
