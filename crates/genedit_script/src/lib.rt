//! Scripts of `genedit run`: which texts are scripts, and what they ask for.
#![tactic(auto)]

mod command;
mod fault;
mod laws;
mod line;
mod name;
mod script;
mod spelling;

pub use command::{Command, Paste, PatternName, PatternText, Turning};
pub use fault::ScriptFault;
pub use laws::script_laws;
pub use line::{Lines, ScriptLine, says_something, without_return};
pub use script::{Script, read_script};
pub use spelling::{area_of, command_in, opened_in, replicas_in, rule_in, turning_in, window_of};
