//! The time as a desk counts it.

use std::time::{Clock, Instant};

/// Milliseconds since it was started. Where the clock cannot be read, they are those that it read last.
#[derive(Drop)]
pub(crate) struct Stopwatch {
    start: Option<Instant>,
    last: u64,
}

impl Stopwatch {
    pub(crate) fn start<C: Clock>(clock: &C) -> Stopwatch {
        Stopwatch {
            start: Instant::now(clock).ok(),
            last: 0,
        }
    }

    pub(crate) fn milliseconds<C: Clock>(&mut self, clock: &C) -> u64 {
        if let Some(now) = self.read(clock) {
            self.last = now;
        }
        self.last
    }

    fn read<C: Clock>(&self, clock: &C) -> Option<u64> {
        let now = Instant::now(clock).ok()?;
        let passed = now.checked_duration_since(self.start?)?;
        u64::try_from(passed.as_millis()).ok()
    }
}
