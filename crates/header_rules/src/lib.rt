//! The rule that the header of a pattern text tells, and every spelling that a person types for a rule
//! of Golly's Generations family; reading takes no memory.
#![tactic(auto)]

mod family;
mod family_forms;
mod family_names;
mod forms;
mod header;
mod in_family;
mod letters;
mod lines;
mod names;
mod notation;
mod part;
mod rule_text;
mod spelling;

pub use family::OtherFamily;
pub use header::{HeaderBounds, HeaderRule, header_rule, rule_standing};
pub use lines::split_line;
pub use part::part_at;
pub use spelling::{Misspelling, spelled_rule};
