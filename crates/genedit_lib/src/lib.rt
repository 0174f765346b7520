//! What `genedit run` does: what happens in a world of replicas, and what is printed of it.
#![tactic(auto)]

mod edit_lines;
mod laws;
mod naming;
mod output;
mod patterns;
mod plan;
mod run;
mod step;

pub use edit_lines::{push_cells, push_edit, push_edits};
pub use genedit_io::RunFault;
pub use laws::output_laws;
pub use naming::{give_name, turn_pattern};
pub use output::{
    no_pattern_text, pattern_text, push_line, push_taken_back, push_text, text_refusal,
};
pub use patterns::Patterns;
pub use plan::{Plan, PlannedLine, planned};
pub use run::{run_script, run_script_within};
pub use step::Text;
