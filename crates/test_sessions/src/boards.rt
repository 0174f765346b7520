//! Boards whose relay takes turns on a thread of its own.

use relay_board::{Account, Bell, Naming, Relay, Seat, Turn, is_whole};
use std::alloc::Global;
use std::sync::atomic::{AtomicBool, Ordering};
use std::sync::{Arc, Wait};
use std::test::Fail;
use std::thread;
use std::thread::{JoinHandle, Threads};
use std::time::Duration;

/// For how many milliseconds at most the relay sleeps where the inbox is empty.
const REST: u64 = 10;

/// A relay that takes turns on a thread of its own, until it is told to end.
#[derive(Drop)]
pub struct Relaying<J: Naming, R: Wait + Drop> {
    thread: JoinHandle<Option<Relay<J, R>>>,
    is_over: Arc<AtomicBool, Global>,
    bell: Bell,
}

/// Starts the thread.
pub fn begin_relaying<
    J: Naming + Send + 'static,
    R: Threads + Wait + Copy + Drop + Send + Sync + 'static,
>(rt: R, alloc: Global, relay: Relay<J, R>) -> Result<Relaying<J, R>, Fail> {
    let bell = relay.bell()?;
    let is_over = Arc::new(alloc, AtomicBool::new(false))?;
    let theirs = Arc::try_clone(&is_over)?;
    let thread = thread::spawn(&rt, move || relays(&rt, relay, &theirs))?;
    Ok(Relaying {
        thread,
        is_over,
        bell,
    })
}

/// Takes turns until the inbox is empty and all is over. `None` where a turn fails: then the relay is gone,
/// which ends who waits for it.
fn relays<J: Naming, H: Wait, R: Wait + Drop>(
    rt: &H,
    mut relay: Relay<J, R>,
    is_over: &AtomicBool,
) -> Option<Relay<J, R>> {
    for _ in rt.forever() {
        match relay.turn() {
            Turn::Published(_) => {}
            Turn::Failed(_) => return None,
            Turn::Idle => {
                if is_over.load(Ordering::SeqCst) {
                    break;
                }
                relay.rest(Duration::from_millis(REST));
            }
        }
    }
    Some(relay)
}

impl<J: Naming, R: Wait + Drop> Relaying<J, R> {
    /// What the relay comes to, closed, with all its seats.
    pub fn finish<H: Threads>(
        self,
        rt: &H,
        alloc: Global,
        seats: Vec<Seat<J>>,
    ) -> Result<Account, Fail> {
        let Relaying {
            thread,
            is_over,
            bell,
        } = self;
        is_over.store(true, Ordering::SeqCst);
        bell.ring();
        account(alloc, thread.join(rt).ok_or("turn")?, seats)
    }
}

/// What a relay comes to that is closed, with all its seats.
fn account<J: Naming, R: Wait + Drop>(
    alloc: Global,
    mut relay: Relay<J, R>,
    seats: Vec<Seat<J>>,
) -> Result<Account, Fail> {
    relay.close();
    if !is_whole(&relay, seats.as_slice()) {
        return Err(Fail::from("whole"));
    }
    match relay.finish(alloc, seats) {
        Ok(account) => Ok(account),
        Err((_, _, fault)) => Err(Fail::from(fault)),
    }
}

/// An account in plain values.
#[derive(Clone, Copy, Debug, PartialEq, Eq)]
pub struct Summary {
    /// How many published edits came before those that it has.
    pub before: u64,
    /// How many published edits it has.
    pub published: usize,
    /// How many submissions of seat 1 were accepted.
    pub accepted: u64,
    /// The stamp and the state of the write at the origin.
    pub origin: (u64, u8),
}

pub fn summed(account: &Account) -> Summary {
    let origin = account.plane.get(0, 0);
    Summary {
        before: account.before,
        published: account.published.as_slice().len(),
        accepted: account.accepted.as_slice().first().copied().unwrap_or(0),
        origin: (origin.stamp, origin.state),
    }
}
