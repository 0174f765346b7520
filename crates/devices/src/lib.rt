//! What programs read from and write to.
//!
//! A device counts its failures, so that a contract can say that a fault is answered only where the
//! device failed in that call. A source counts its pulls too, and those that met its end; a sink
//! counts its pushes. So a contract can say how a device was used, whether or not its bytes are known.
#![tactic(auto)]

mod count;
mod reader;
mod sink;
mod source;
mod writer;

pub use reader::ReadSource;
pub use sink::Sink;
pub use source::{Failed, Source};
pub use writer::WriteSink;
