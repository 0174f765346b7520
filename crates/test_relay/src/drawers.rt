//! What threads do with seats and with the relay.

use edit_stamps::Edit;
use relay_board::{Naming, Pending, Relay, Seat, SubmitFault, Turn};
use std::alloc::Global;
use std::sync::atomic::{AtomicU64, Ordering};
use std::sync::{Arc, Wait};
use std::thread;

/// How often a seat tries an edit while the inbox is full.
const TRIES: u32 = 1_000_000;

/// How many seats have drawn all that they draw.
pub type Ended = Arc<AtomicU64, Global>;

pub fn end(ended: &Ended) {
    ended.fetch_add(1, Ordering::SeqCst);
}

pub fn have_ended(ended: &Ended, count: u64) -> bool {
    ended.load(Ordering::SeqCst) >= count
}

/// Submits an edit, again while the inbox is full.
pub fn submit_at_last<J: Naming, R: Wait>(
    rt: &R,
    seat: &mut Seat<J>,
    mut edit: Edit,
) -> Option<Pending<J>> {
    for _ in 0..TRIES {
        match seat.submit(rt, edit) {
            Ok(pending) => return Some(pending),
            Err((back, SubmitFault::Full)) => edit = back,
            Err(_) => return None,
        }
        thread::yield_now();
    }
    None
}

/// Takes turns until that many seats have ended and nothing is left, or a turn fails.
pub fn turns<J: Naming, H: Wait, R: Wait + Drop>(
    rt: &H,
    mut relay: Relay<J, R>,
    ended: &Ended,
    count: u64,
) -> Relay<J, R> {
    for _ in rt.forever() {
        let is_last = have_ended(ended, count);
        match relay.turn() {
            Turn::Published(_) => {}
            Turn::Failed(_) => break,
            Turn::Idle => {
                if is_last {
                    break;
                }
                thread::yield_now();
            }
        }
    }
    relay
}
