//! What a session pulls from a socket: the contract of a function that does nothing.

ghost use Rattle.web_streams.specs.Session.{PullsFrames};

use crate::connection::Connection;

/// The bytes that are pulled from a reader are the bodies of the binary messages of its socket, each behind its
/// length, whole, in order, however they are pulled.
pub fn reader_laws<S: Connection>()
    ensures { PullsFrames S }
{}
