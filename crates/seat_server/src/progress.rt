//! How far a server is.

use crate::accept::Wake;
use relay_board::Bell;
use std::sync::atomic::{AtomicBool, AtomicUsize, Ordering};

/// How far a server is, for the thread that takes turns, those of the seats, and whoever gives streams to these.
/// No clause speaks of it: another thread may change it at any moment.
#[derive(Drop)]
pub struct Progress {
    bell: Bell,
    /// How many seats are served, or wait for a stream.
    attended: AtomicUsize,
    /// A stream could not be had.
    failed: AtomicBool,
    /// The relay takes no more turns.
    given_up: AtomicBool,
}

impl Progress {
    /// That of a server of so many seats which begins, with what wakes its relay.
    pub fn new(bell: Bell, seats: usize) -> Progress {
        Progress {
            bell,
            attended: AtomicUsize::new(seats),
            failed: AtomicBool::new(false),
            given_up: AtomicBool::new(false),
        }
    }

    /// A stream could not be had. Wakes the relay.
    pub fn fail(&self) {
        self.failed.store(true, Ordering::SeqCst);
        self.bell.ring();
    }

    pub fn has_failed(&self) -> bool {
        self.failed.load(Ordering::SeqCst)
    }

    /// One seat is served no further. Behind the last one the relay is woken.
    pub(crate) fn leave(&self) {
        let before = self.attended.fetch_sub(1, Ordering::SeqCst);
        if before <= 1 {
            self.bell.ring();
        }
    }

    /// Whether no seat is served any further.
    pub fn is_over(&self) -> bool {
        self.attended.load(Ordering::SeqCst) == 0
    }

    /// The relay takes no more turns: no further session begins. Wakes who waits for a stream, or for news.
    pub fn give_up<W: Wake>(&self, wake: &W) {
        self.given_up.store(true, Ordering::SeqCst);
        wake.wake();
        wake.announce();
    }

    pub fn has_given_up(&self) -> bool {
        self.given_up.load(Ordering::SeqCst)
    }
}
