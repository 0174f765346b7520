//! What scripts print.

/// A script, and what it prints.
pub struct Printed {
    pub script: &'static str,
    pub printed: &'static str,
}
