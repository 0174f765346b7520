//! What has come.

/// What has come over a socket.
#[derive(Clone, Copy, Debug, PartialEq, Eq)]
pub enum Came {
    /// A whole message whose bytes are not all read.
    Message,
    /// No whole message: nothing, a part of one, pings, or texts.
    Nothing,
    /// Nothing, and nothing will come.
    End,
}
