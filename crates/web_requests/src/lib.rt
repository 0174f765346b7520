//! What a browser asks of a board's web port, and what it is answered.
//!
//! A head is read by `httparse`; `wanted` says which row of the table of routes it meets. Each answer's bytes
//! are made here too, so that they are a text that a contract names. Nothing here reads or writes.
#![tactic(auto)]

mod asked;
mod house;
mod lines;
mod refusal;
mod texts;
mod token;
mod visit;

pub use house::{DIGITS, House, SeatKey, Token};
pub use refusal::Refusal;
pub use texts::{no_seat_text, page_text, refusal_text, welcome_text};
pub use visit::{LINES, SeatRequest, Visit, wanted};
