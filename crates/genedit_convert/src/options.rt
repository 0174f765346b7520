//! What is asked of a conversion.

use generations_rule::Rule;

/// What is asked of a conversion.
#[derive(Clone, Copy, Debug, PartialEq, Eq)]
pub struct ConvertOptions {
    /// So many generations later; else as the file has it.
    pub generation: Option<u32>,
    /// Under this rule; else under that of the file.
    pub rule: Option<Rule>,
}
