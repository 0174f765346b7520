//! A list of bodies that is kept in a file: each commit adds some at the end, and says that they stand
//! there only once the file was synced.
//!
//! A file that is found is read first, and changed only when that is asked for: then its end behind the last
//! whole record is cut off, or, where a sync of it failed before, a copy of its records takes its place.
#![tactic(auto)]

mod finding;
mod log;
mod reopening;

pub use finding::{FindFault, Found, Parts, find};
pub use log::{Log, LogFault, LogState};
pub use reopening::{Reopened, reopen};
