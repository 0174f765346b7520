//! The door of a board's web port: what a visitor is answered, and the threads of those who are seen to.
#![tactic(auto)]

mod anteroom;
mod fault;
mod front;
mod seating;
mod visited;
mod visitors;

pub use fault::VisitFault;
pub use front::Front;
pub use seating::{SeatVisitor, Seating};
pub use visited::{Visited, tell_no_seat, visit};
pub use visitors::{VISITORS, Visitors};
