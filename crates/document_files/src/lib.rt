//! The file of a document of the system: opened and read before anything of it is changed, its lost end saved
//! before it is cut off, and why the system or its bytes refuse it, in words.
#![tactic(auto)]

mod lost;
mod opening;
mod refusal;

pub use lost::save_lost;
pub use opening::{is_missing, open_found};
pub use refusal::{FileRefusal, cause_of_file, write_refusal};
