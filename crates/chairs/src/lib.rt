//! Which chair a newcomer gets: a page its own, by its key; else one at which nobody has sat yet, or the one that was
//! left longest ago.
#![tactic(auto)]

mod chair;
mod leaving;
mod page;
mod plan;

pub use chair::Chair;
pub use leaving::{KEPT, Leaving};
pub use page::{PageKey, PagePlace};
pub use plan::Plan;
