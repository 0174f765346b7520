//! What the bodies of a file mean that holds a document: the first names its rule, and each further one
//! is one edit.
#![tactic(auto)]

mod fault;
mod laws;
mod newest;
mod reading;
mod writing;

pub use fault::BodyFault;
pub use laws::{body_laws, newest_laws};
pub use newest::Newest;
pub use reading::{edit_in, rule_in};
pub use writing::{edit_body, head_body};
