//! What the commands on documents print and make: listings, differences, merges and exports.
#![tactic(auto)]

mod difference;
mod exporting;
mod fault;
mod holding;
mod lines;
mod listing;
mod merging;
mod numbers;
mod states;

pub use difference::difference_text;
pub use exporting::export_text;
pub use fault::{export_fault, fault_text, run_fault};
pub use holding::replica_of;
pub use lines::{merged_line, new_line};
pub use listing::{first_edits, log_text};
pub use merging::{Merged, RenumberFault, merge_bytes, merge_renumbered};
pub use numbers::{Numbered, Numbering, NumbersFault, is_name, number_of, number_text, numbers_in};
pub use states::{StateFault, as_state};
