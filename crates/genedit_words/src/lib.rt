//! The words of the command line of `genedit`: what they ask for, and how the program ends where they ask
//! for nothing, or what they asked for is left.
#![tactic(auto)]

mod advice;
mod commands;
mod document_commands;
mod ending;
mod missing;
mod misspelt;
mod needs;
mod options;
mod rule_words;
mod subcommand;
mod task;
mod web_words;
mod words;

pub use commands::{JOIN_HELP, SCRIPT_HELP};
pub use ending::Ending;
pub use misspelt::{MisspeltRule, MisspeltWeb};
pub use needs::Needs;
pub use options::bound;
pub use rule_words::rule_cure;
pub use task::{
    ConvertTask, DiffTask, DrawTask, ExportTask, FeedTask, FollowTask, JoinTask, LogTask,
    MergeTask, NewTask, NumberTask, RleTask, ServeTask, Task, Viewing, WebTask,
};
pub use words::{asked, given};
