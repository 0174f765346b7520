//! The page of a board, as a server gives it to a browser.
#![tactic(auto)]

mod page;

/// The page, whole: HTML with its script and its style. No clause says what it is, so that nobody who gives it has to
/// prove over its 100,000 bytes.
pub fn html() -> &'static str {
    page::PAGE
}

/// What the page may do, as a content security policy: one line.
pub fn policy() -> &'static str {
    page::POLICY
}
