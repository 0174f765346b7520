//! A session over the one seat of a board, whose relay takes turns on a thread of its own.

use crate::memory::sessions::are_asked;
use crate::memory::ways::{Table, Way};
use relay_board::{Bell, Naming, Relay, Seat, Turn};
use replica_sessions::Session;
use seat_hub::SeatHub;
use std::alloc::Global;
use std::sync::atomic::{AtomicBool, Ordering};
use std::sync::{Arc, Wait};
use std::thread;
use std::thread::{JoinHandle, Threads};
use std::time::Duration;

/// For how many milliseconds at most the relay sleeps where the inbox is empty.
const REST: u64 = 10;

/// Takes turns until the inbox is empty and all is over. Where memory is refused the next turn tries the
/// same entry.
fn relays<J: Naming, R: Wait + Drop>(
    rt: &R,
    mut relay: Relay<J, R>,
    is_over: &AtomicBool,
) -> Relay<J, R> {
    for _ in rt.forever() {
        if relay.turn() == Turn::Idle {
            if is_over.load(Ordering::SeqCst) {
                break;
            }
            relay.rest(Duration::from_millis(REST));
        }
    }
    relay
}

/// A relay that takes turns on a thread of its own.
#[derive(Drop)]
struct Relaying<J: Naming, R: Wait + Drop> {
    thread: JoinHandle<Relay<J, R>>,
    is_over: Arc<AtomicBool, Global>,
    bell: Bell,
}

/// Starts the thread; `None` where there was no memory for it.
fn begin_relaying<
    J: Naming + Send + 'static,
    R: Threads + Wait + Copy + Drop + Send + Sync + 'static,
>(rt: R, alloc: Global, relay: Relay<J, R>) -> Option<Relaying<J, R>> {
    let bell = relay.bell().ok()?;
    let is_over = Arc::new(alloc, AtomicBool::new(false)).ok()?;
    let theirs = Arc::try_clone(&is_over).ok()?;
    let thread = thread::spawn(&rt, move || relays(&rt, relay, &theirs)).ok()?;
    Some(Relaying {
        thread,
        is_over,
        bell,
    })
}

/// The relay, once it has taken its last turn.
fn relayed<J: Naming, R: Threads + Wait + Drop>(rt: &R, relaying: Relaying<J, R>) -> Relay<J, R> {
    let Relaying {
        thread,
        is_over,
        bell,
    } = relaying;
    is_over.store(true, Ordering::SeqCst);
    bell.ring();
    thread.join(rt)
}

/// How many calls of a session over a board's one seat, in order, are answered as they are meant to be, and
/// one more where the board is accounted for; `None` where there was no memory to begin.
pub fn asks<J: Naming + Send + 'static, R: Threads + Wait + Copy + Drop + Send + Sync + 'static>(
    rt: R,
    alloc: Global,
    relay: Relay<J, R>,
    mut seats: Vec<Seat<J>>,
    way: &Way,
) -> Option<usize> {
    let seat = seats.pop()?;
    let relaying = begin_relaying(rt, alloc, relay)?;
    let mut session = Session::new(rt, alloc, SeatHub::new(seat, rt));
    let mut met = 0_usize;
    for rows in way.requests {
        if !are_asked(&mut session, rows) {
            break;
        }
        met = met.wrapping_add(1);
    }
    let relay = relayed(&rt, relaying);
    if seats.push(session.into_hub().into_seat()).is_err() {
        return Some(0);
    }
    Some(Table::new(rt, alloc, relay, seats).ends(way, met))
}
