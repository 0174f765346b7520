//! The mistakes of a script, each with its place and its cure: all of them, and not the first alone;
//! and those of a client's lines, one by one.
#![tactic(auto)]

mod due;
mod finding;
mod laws;
mod misfit;
mod nearest;
mod note;
mod notes;
mod places;
mod reason;
mod refused;
mod texts;
mod warning;
mod word;

pub use command_words::{Argument, Dialect, Keyword};
pub use finding::{Finding, client_finding};
pub use laws::fault_laws;
pub use note::{Note, Place};
pub use notes::{Notes, notes_in};
pub use places::command_places;
pub use reason::{Reason, Warning};
pub use refused::Refused;
pub use texts::{reason_text, warning_text};
pub use warning::{RuleWarning, other_rule, rule_warning};
