//! How long clients let pass, by a clock that counts what it was asked for.

use crate::clients::{dot, obey};
use crate::plays::Party;
use crate::refusals::{FULL, refuse};
use client_session::{Outcome, Telling};
use client_tasks::Done;
use std::cell::Cell;
use std::io;
use std::test::Fail;
use std::time::{Clock, Duration};

/// A clock on which time passes where it is slept alone.
#[derive(Drop)]
struct Counting {
    slept: Cell<Duration>,
    times: Cell<u32>,
}

impl Counting {
    fn new() -> Counting {
        Counting {
            slept: Cell::new(Duration::ZERO),
            times: Cell::new(0),
        }
    }

    /// How often it was asked to let time pass, and how many milliseconds.
    fn asked(&self) -> (u32, u128) {
        (self.times.get(), self.slept.get().as_millis())
    }
}

impl Clock for Counting {
    fn monotonic(&self) -> io::Result<Duration> {
        Ok(self.slept.get())
    }

    fn since_1970(&self) -> io::Result<Duration> {
        Ok(self.slept.get())
    }

    fn sleep(&self, duration: Duration) {
        self.slept.set(self.slept.get().saturating_add(duration));
        self.times.set(self.times.get().saturating_add(1));
    }
}

/// Two rests of 5 milliseconds, and the 2 that are left.
#[test]
fn a_wait_rests_between_its_polls(rt: HostRuntime) -> Result<(), Fail> {
    let clock = Counting::new();
    let mut party = Party::join(&clock, rt.alloc(), &[Telling::Edits])?;
    let client = party.clients.get_mut(0).ok_or("client")?;
    assert!(rt; matches!(obey(client, "wait 1 12")?, Done::Told));
    assert_eq!(rt; clock.asked(), (3, 12));
    Ok(())
}

/// Nine pauses of 5 milliseconds lie between ten tries.
#[test]
fn a_push_is_tried_again_after_a_pause(rt: HostRuntime) -> Result<(), Fail> {
    let clock = Counting::new();
    let mut party = Party::join(&clock, rt.alloc(), &[Telling::Edits])?;
    refuse(&party.board, FULL)?;
    let client = party.clients.get_mut(0).ok_or("client")?;
    assert!(rt; matches!(dot(client, 0, 0, 1)?, Outcome::Refused));
    assert_eq!(rt; clock.asked(), (9, 45));
    Ok(())
}
