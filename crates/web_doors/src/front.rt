//! What visitors find.

use web_requests::House;

/// Whom a web port lets in, and what it shows.
#[derive(Drop)]
pub struct Front {
    pub house: House,
    /// The page, whole.
    pub page: &'static str,
    /// What the page may do, as a content security policy: one line.
    pub policy: &'static str,
}
