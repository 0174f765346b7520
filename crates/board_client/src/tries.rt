//! Tries: what is refused for a moment is said again.

ghost use Rattle.std.specs.Duration.{as_nanos};
ghost use Rattle.std.specs.Prelude.{◌≡◌};

use std::thread;
use std::time::{Clock, Duration};

/// How often a request is said again that was refused for a moment.
pub(crate) const TRIES_MORE: u32 = 9;

/// How often more behind its second saying.
pub(crate) const TRIES_AGAIN: u32 = 8;

/// How long passes between two tries: five milliseconds.
fn time_between() -> Duration
    ensures { as_nanos result ≡ 5_000_000 }
{
    Duration::from_millis(5)
}

/// Lets the time between two tries pass.
pub(crate) fn pause<C: Clock>(clock: &C) {
    thread::sleep(clock, time_between());
}
