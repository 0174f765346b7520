//! What the relay and its seats share beside the inbox: how far the relay is, how much it published, and
//! what wakes it.

use std::sync::Wait;
use std::sync::atomic::{AtomicU64, Ordering};
use std::thread::Parker;
use std::time::Duration;

/// How far the relay is. No clause speaks of it: another thread may change it at any moment.
enum Mark {
    /// It takes submissions.
    Open,
    /// `close` was called.
    Closed,
    /// It publishes nothing more. What is published can be read.
    Ceased,
    /// It was dropped. One that finishes takes its seats in, so that nobody looks.
    Gone,
}

/// The mark of how far the relay is, how many entries it published, and what it rests on. One thread at a time
/// may rest, the relay's, and it alone publishes.
#[derive(Drop)]
pub struct Door {
    /// A `Mark`.
    mark: AtomicU64,
    /// How many entries were published. No clause speaks of it either.
    published: AtomicU64,
    parker: Parker,
}

impl Door {
    /// The door of a relay that takes submissions.
    pub fn new() -> Door {
        Door {
            mark: AtomicU64::new(Mark::Open as u64),
            published: AtomicU64::new(0),
            parker: Parker::new(),
        }
    }

    /// Whether the relay takes submissions.
    pub fn is_open(&self) -> bool {
        self.mark.load(Ordering::SeqCst) == Mark::Open as u64
    }

    /// Whether the relay is gone.
    pub fn is_gone(&self) -> bool {
        self.mark.load(Ordering::SeqCst) == Mark::Gone as u64
    }

    /// Whether the relay publishes nothing more.
    pub fn has_ceased(&self) -> bool {
        self.mark.load(Ordering::SeqCst) >= Mark::Ceased as u64
    }

    /// From now on the relay takes no submissions. A relay that rests wakes.
    pub fn close(&self) {
        self.mark.store(Mark::Closed as u64, Ordering::SeqCst);
        self.parker.unpark();
    }

    /// From now on the relay publishes nothing more.
    pub fn cease(&self) {
        self.mark.store(Mark::Ceased as u64, Ordering::SeqCst);
    }

    /// The relay is gone.
    pub fn leave(&self) {
        self.mark.store(Mark::Gone as u64, Ordering::SeqCst);
    }

    /// So many entries are published by now.
    pub fn publish(&self, count: u64) {
        self.published.store(count, Ordering::SeqCst);
    }

    /// How many entries were published at one moment of the call, at least.
    pub fn published(&self) -> u64 {
        self.published.load(Ordering::SeqCst)
    }

    /// Wakes the relay, or lets its next rest end at once.
    pub fn ring(&self) {
        self.parker.unpark();
    }

    /// Sleeps until a ring or a close that no rest has had yet, and for so long at most.
    pub fn rest<R: Wait>(&self, rt: &R, most: Duration) {
        self.parker.park_timeout(rt, most);
    }
}
