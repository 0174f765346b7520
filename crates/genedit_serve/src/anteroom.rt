//! Where those are seen to who find no seat.

use std::sync::{Condvar, Mutex, Wait};

/// How many are in it at once, at most.
const MOST: usize = 256;

/// Counts those who are seen to by threads of their own, so that there are not too many, and so that the last of them
/// can be waited for.
#[derive(Drop)]
pub(crate) struct Anteroom {
    inside: Mutex<usize>,
    is_empty: Condvar,
}

impl Anteroom {
    /// An empty one.
    pub(crate) fn new() -> Anteroom {
        Anteroom {
            inside: Mutex::new(0),
            is_empty: Condvar::new(),
        }
    }

    /// Lets somebody in, unless it is full.
    pub(crate) fn enter<R: Wait>(&self, rt: &R) -> bool {
        let mut inside = self.inside.lock(rt);
        if *inside >= MOST {
            return false;
        }
        *inside += 1;
        true
    }

    /// Somebody has left.
    pub(crate) fn leave<R: Wait>(&self, rt: &R) {
        let mut inside = self.inside.lock(rt);
        *inside = inside.saturating_sub(1);
        if *inside == 0 {
            self.is_empty.notify_all();
        }
    }

    /// Waits until nobody is in it.
    pub(crate) fn wait_until_empty<R: Wait>(&self, rt: &R) {
        let inside = self.inside.lock(rt);
        let _empty = self.is_empty.wait_while(rt, inside, |inside| *inside > 0);
    }
}
