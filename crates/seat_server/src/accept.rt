//! Where streams come from.

ghost use Rattle.std.specs.Prelude.{IfSome};
ghost use Rattle.seat_server.specs.Sessions.{IsUnusedSink, IsUnusedSource};

use devices::{Sink, Source};
use session_service::Listen;

/// The two ends of a stream, and what its session waits by.
#[derive(Drop)]
pub struct Ends<S, K, E> {
    pub source: S,
    pub sink: K,
    pub ears: E,
}

/// A chair: gives a seat the ends of one stream after another.
pub trait Accept<S: Source, K: Sink, E: Listen> {
    /// Waits for the next stream, which nobody has used. None where no further one comes. That it is asked again
    /// says that the session over the one before has ended.
    fn accept(&mut self) -> Option<Ends<S, K, E>>
        ensures { IfSome result (λ ends. IsUnusedSource (S.known ends.source) × IsUnusedSink (K.known ends.sink)) };
}

/// What ends waits on other threads.
pub trait Wake {
    /// Lets each `accept` return, and gives no further stream.
    fn wake(&self);

    /// Lets each session look that waits for news.
    fn announce(&self);
}

/// A chair for each seat, and what ends the waits at them, and for news.
pub struct Streams<'a, A, W> {
    pub chairs: Vec<A>,
    pub wake: &'a W,
}
