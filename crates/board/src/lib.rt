//! One published list of edits, which only grows, and readers of it that never wait. Of the list the
//! board keeps a plane and the last 1,024 edits; the list itself stands in the proofs alone.
//!
//! Two copies of the board lie behind its readers (`left_right`): the publisher changes one while the
//! other is read, and then swaps them. What a reader has seen is a prefix of the list, which it carries
//! as a `Front`.
#![tactic(auto)]

mod board_reader;
mod entry;
mod fault;
mod front;
mod history;
mod last;
mod publisher;
mod rule;
mod value;
mod window;

pub use board_reader::BoardReader;
pub use entry::Entry;
pub use fault::SeatFault;
pub use front::Front;
pub use history::{AddFault, History, HistoryRule, Prefix};
pub use last::{KEPT, LastEdits};
pub use poll_news::News;
pub use publisher::Publisher;
pub use rule::{BoardRule, Label, Note, Sees, Sight};
pub use value::{Board, Publication};
pub use window::{OpenWindow, Window};
