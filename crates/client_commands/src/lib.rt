//! The commands of a client: what its lines ask for, one by one as they come. They are those of a
//! script without the replica's number, and some that only a client has.
#![tactic(auto)]

mod block;
mod command;
mod dictation;
mod film;
mod laws;
mod spelling;

pub use command::{ClientCommand, FileName, FileTarget, PeriodSearch, Placement, Wait};
pub use dictation::{Dictation, Heard};
pub use film::Film;
pub use laws::command_laws;
pub use spelling::{begins_script, command_in};
