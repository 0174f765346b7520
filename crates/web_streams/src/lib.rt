//! A socket of a browser as a stream: what a session reads from and writes to.
//!
//! Each binary message is the body of one frame, without its length, both ways. One socket is one session: its two
//! halves hold one connection, and once both are let go it is ended.
//!
//! Before the socket stands the head of its request, which is read here up to its end, within limits.
#![tactic(auto)]

mod came;
mod connection;
mod frame;
mod head;
mod laws;
mod one;
mod opening;
mod reader;
mod timed;
mod writer;

pub use came::Came;
pub use connection::{Connection, TcpHalf};
pub use head::{HEAD_BYTES, HeardHead, hear_head};
pub use laws::reader_laws;
pub use opening::open_socket;
pub use reader::SocketReader;
pub use timed::Timed;
pub use writer::SocketWriter;
