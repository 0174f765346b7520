//! What wakes who waits for an answer.

ghost use Rattle.std.specs.Duration.{as_nanos};
ghost use Rattle.std.specs.Prelude.{◌≡◌};

use std::alloc::{AllocError, Global};
use std::sync::{Arc, Wait};
use std::thread::Parker;
use std::time::Duration;

/// A bell that two ends of a channel share: one rings it, the other rests on it.
#[derive(Drop)]
pub(crate) struct Bell {
    parker: Arc<Parker, Global>,
}

impl Bell {
    /// The two ends' holds of one bell.
    pub(crate) fn pair(alloc: Global) -> Result<(Bell, Bell), AllocError> {
        let parker = Arc::new(alloc, Parker::new())?;
        let other = Arc::try_clone(&parker)?;
        Ok((Bell { parker }, Bell { parker: other }))
    }

    /// Wakes who rests on it, or lets its next rest end at once.
    pub(crate) fn ring(&self) {
        self.parker.unpark();
    }

    /// Sleeps until a ring that no rest has had yet, and for a millisecond at most.
    pub(crate) fn rest<R: Wait>(&self, rt: &R) {
        self.parker.park_timeout(rt, longest_rest());
    }
}

/// How long a rest lasts at most: a millisecond.
fn longest_rest() -> Duration
    ensures { as_nanos result ≡ 1_000_000 }
{
    Duration::from_millis(1)
}
