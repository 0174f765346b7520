//! What programs share that carry out typed commands: the files that commands name, what came of the lines by
//! what was printed of them, and what is said on standard error of lines at fault and of commands that were
//! refused.
#![tactic(auto)]

mod cures;
mod files;
mod films;
mod opened;
mod own_files;
mod population;
mod refusals;
mod telling;

pub use cures::{About, cure};
pub use files::{
    FileCause, FileFault, read_whole, refused_text, standing_of, write_target, wrote_text,
};
pub use films::{FilmFiles, Progress, plan_of};
pub use opened::{OpenedFile, read_opened};
pub use own_files::{OwnFiles, Written};
pub use refusals::{Tally, is_script, refusal_in, refused_number};
pub use telling::{tell_cure, tell_fault, tell_open_block, warn_of_rule};
