//! Bodies in a list of bytes, one after another, each behind a head that tells its length and seals it.
//!
//! What a crash leaves of the end of a file, and a byte that changed, is seen at the record where it is:
//! what stands before it is read, and nothing behind it, until it is asked for.
#![tactic(auto)]

mod laws;
mod reading;
mod writing;

pub use laws::record_laws;
pub use reading::{next_record, next_whole, read_records};
pub use writing::{HEAD_BYTES, MOST_BODY, push_record};
