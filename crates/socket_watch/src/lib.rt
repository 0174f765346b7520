//! What waits for the first of two things: something at a socket, or a call from another thread.
//!
//! It is the system's `epoll(7)` by the crate `mio`, with one socket and one `Waker`.
#![tactic(auto)]

mod watch;

pub use watch::{Came, Watch};
