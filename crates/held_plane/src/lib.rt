//! The plane of a replica: joined into, and copied where most of what it stores is no longer in use.
#![tactic(auto)]

mod added;
mod held;

pub use added::Added;
pub use held::HeldPlane;
