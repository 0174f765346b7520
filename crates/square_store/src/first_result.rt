//! What is kept of a square beside its parts.

use crate::part::Part;

/// The result that was first kept of a square of a level: which square it becomes, 2 to the power of the
/// exponent generations later. A store keeps it, and knows nothing of it.
#[derive(Clone, Copy)]
pub struct FirstResult {
    pub level: u32,
    pub exponent: u32,
    pub later: Part,
}
