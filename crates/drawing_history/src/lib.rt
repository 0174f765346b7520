//! What one drew on a shared plane, and how its cells looked before: what taking a drawing back needs.
//! Taking back is a drawing itself, with a greater stamp: each cell whose write is still the drawing's shows
//! again what it showed before, and cells that others drew since are left alone. Memory that is refused for
//! this makes no drawing fail: what one drew is forgotten then.
#![tactic(auto)]

mod back;
mod drawn;
mod found;
mod history;
mod laws;
mod making;
mod stack;
mod stroke;
mod watching;
mod way;

pub use back::cells_back;
pub use drawn::{Drawn, MOST_CELLS, MOST_DRAWINGS};
pub use found::Found;
pub use history::History;
pub use laws::history_laws;
pub use making::Making;
pub use stroke::{Stroke, stroke_of};
pub use watching::watch;
pub use way::Way;
