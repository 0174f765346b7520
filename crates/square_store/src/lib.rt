//! A store of distinct squares of writes.
//!
//! A square is a blank, a leaf or four squares of the level below. Each stands once in a store, so a
//! square is named by its place, a `Part`, and two squares of one level with the same writes are one
//! part (hash-consing, Ershov 1958; quadtrees so shared are Gosper's, 1984).
#![tactic(auto)]

mod fault;
mod first_result;
mod group;
mod groups;
mod kind;
mod limits;
mod node;
mod part;
mod square;
mod store;
mod stored;
mod table;

pub use fault::StoreFault;
pub use first_result::FirstResult;
pub use kind::LeafKind;
pub use limits::{Limits, ROOM};
pub use part::Part;
pub use square::Square;
pub use store::Store;
