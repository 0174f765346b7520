//! Waiting for edits of others.

ghost use Rattle.std.specs.Duration.{as_nanos};
ghost use Rattle.std.specs.Prelude.{◌≡◌, ◌*◌, min};
ghost use Rattle.client_session.specs.Waiting.{IsWait};

use crate::client::Client;
use crate::fault::CommandFault;
use crate::polling::News;
use devices::{Sink, Source};
use std::thread;
use std::time::{Clock, Duration, Instant};

/// How many polls a wait makes at most.
const TURNS: u64 = 0x1_0000_0000;

/// How long edits are awaited, and how long nothing is done between two polls.
#[derive(Clone, Copy, Debug, PartialEq, Eq)]
pub struct Patience {
    pub milliseconds: u32,
    pub interval: u32,
}

impl<'a, C: Clock, S: Source + Drop, K: Sink + Drop> Client<'a, C, S, K> {
    /// Polls again and again, and tells what came. It ends by `edits K` once K, how many edits of others
    /// came since a number of edits, or a whole plane, was last told, is at least the number that is awaited;
    /// by `late K` once the time is over, which a clock that cannot be read says at once, or 2^32 polls were
    /// made; and behind `whole` or a refused poll, of which the refusal is printed.
    pub fn wait(&mut self, awaited: u32, patience: Patience) -> Result<(), CommandFault>
        ensures { IsWait awaited self.old self.new result }
    {
        let clock = self.server.clock();
        let end = end_of(clock, patience.milliseconds);
        for _turn in 0..TURNS {
            match self.news() {
                Ok(News::Edits) => {}
                Ok(News::Whole) => return Ok(()),
                Ok(News::Refused) => return Ok(()),
                Err(fault) => return Err(fault),
            }
            if self.others() >= awaited as usize {
                return self.tell_count();
            }
            let Some(left) = time_until(clock, end) else {
                return self.tell_late();
            };
            thread::sleep(clock, rest_within(left, patience.interval));
        }
        self.tell_late()
    }
}

/// How long nothing is done between two polls: an interval of so many milliseconds, but no longer than what
/// is left.
pub fn rest_within(left: Duration, interval: u32) -> Duration
    ensures { as_nanos result ≡ min (as_nanos left) (interval * 1_000_000) }
{
    left.min(Duration::from_millis(u64::from(interval)))
}

/// When so many milliseconds will be over; `None` where the clock cannot be read.
pub fn end_of<C: Clock>(clock: &C, milliseconds: u32) -> Option<Instant> {
    let Ok(now) = Instant::now(clock) else {
        return None;
    };
    now.checked_add(Duration::from_millis(u64::from(milliseconds)))
}

/// How long it is until an end; `None` where it is over, or the clock cannot be read.
pub fn time_until<C: Clock>(clock: &C, end: Option<Instant>) -> Option<Duration> {
    let end = end?;
    let Ok(now) = Instant::now(clock) else {
        return None;
    };
    match end.checked_duration_since(now) {
        Some(left) if !left.is_zero() => Some(left),
        _ => None,
    }
}
