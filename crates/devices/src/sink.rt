//! What bytes are pushed to.

ghost use Rattle.devices.specs.Sink.{IsPush, KnownSink};

use crate::source::Failed;

/// What bytes are pushed to.
pub trait Sink {
    /// What is known of it: how often it was pushed to, how often it failed, and the bytes that it
    /// holds.
    ghost known: { Self → KnownSink };

    /// Adds all the bytes. Each push is counted, and each failure; how many bytes went out before a
    /// failure is not told.
    fn push_all(&mut self, bytes: &[u8]) -> Result<(), Failed>
        ensures { IsPush (known self.old) (known self.new) result bytes.now };
}
