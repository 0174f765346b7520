//! Golly's macrocells: a map of states as the lines of its distinct squares.
#![tactic(auto)]

mod block;
mod file_name;
mod laws;
mod level;
mod line;
mod lines;
mod macrocell;
mod middle;
mod name;
mod pairs;
mod root;
mod text;

pub use file_name::is_macrocell_name;
pub use laws::macrocell_laws;
pub use line::Line;
pub use macrocell::write_macrocell;
pub use name::rule_name;
