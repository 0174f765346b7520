//! Listening for what comes first.

use std::time::Duration;

/// What came first.
#[derive(Clone, Copy, Debug, PartialEq, Eq)]
pub enum Came {
    /// There is something to pull from the session's stream: bytes, or its end.
    Byte,
    /// News were announced.
    News,
    /// The time is over.
    Nothing,
}

/// What a session waits by for what comes first. No clause speaks of it, since time and announcements are no
/// values.
pub trait Listen {
    /// From here on news are listened for, for so long at most.
    fn begin(&mut self, most: Duration);

    /// Waits until there is something to pull from the session's stream, until news were announced since
    /// `begin` or the last call, or until the time is over.
    fn wait(&mut self) -> Came;

    /// Nothing is listened for any more.
    fn end(&mut self);
}

/// Ears for streams that never make one wait, as slices in memory: there is something to pull at once.
#[derive(Clone, Copy, Debug, PartialEq, Eq)]
pub struct Unheard;

impl Listen for Unheard {
    fn begin(&mut self, _most: Duration) {}

    fn wait(&mut self) -> Came {
        Came::Byte
    }

    fn end(&mut self) {}
}
