//! Rounds in which a relay closes while two seats submit.

ghost use Rattle.std.specs.Prelude.{◌≡◌};
ghost use Rattle.std.specs.Arc.{arc_value};

use crate::drawn::{brians_board, drawn};
use crate::ending::account;
use edit_stamps::Edit;
use relay_board::{Account, Naming, Opened, Relay, Seat, SubmitFault, Turn};
use std::alloc::{AllocError, Global};
use std::marker::Brand;
use std::sync::Wait;
use std::test::Fail;
use std::thread;
use std::thread::{JoinHandle, Threads};

const ROUNDS: u32 = 200;

/// After so many published edits the relay closes.
const PUBLISHED: u32 = 20;

/// A seat, and how many of its submissions were answered well until it was closed out.
#[derive(Drop)]
struct Submitter<J: Naming> {
    seat: Seat<J>,
    accepted: u64,
    is_closed: bool,
}

/// Submits until a submission is refused for another reason than a full inbox.
fn submits<J: Naming, R: Wait>(rt: &R, alloc: Global, mut seat: Seat<J>) -> Submitter<J> {
    let rule = seat.rule();
    let number = seat.number();
    let mut accepted = 0u64;
    let mut is_closed = false;
    for _ in rt.forever() {
        let stamp = (accepted.wrapping_add(1), number);
        let Some(edit) = drawn(alloc, &rule, stamp, 0, 1) else {
            break;
        };
        match seat.submit(rt, edit) {
            Ok(_) => accepted = accepted.wrapping_add(1),
            Err((_, SubmitFault::Full)) => thread::yield_now(),
            Err((_, fault)) => {
                is_closed = fault == SubmitFault::Closed;
                break;
            }
        }
    }
    Submitter {
        seat,
        accepted,
        is_closed,
    }
}

/// Takes turns until 20 edits were published, and closes.
fn closes<J: Naming, H: Wait, R: Wait + Drop>(rt: &H, mut relay: Relay<J, R>) -> Relay<J, R> {
    let mut published = 0u32;
    for _ in rt.forever() {
        if published >= PUBLISHED {
            break;
        }
        match relay.turn() {
            Turn::Published(_) => published = published.wrapping_add(1),
            Turn::Idle => thread::yield_now(),
            Turn::Failed(_) => break,
        }
    }
    relay.close();
    relay
}

/// The last counter of each of two seats, where the edits of each have the counters from 1 on.
fn last_counters(edits: &[Edit]) -> Option<(u64, u64)> {
    let mut first = 0u64;
    let mut second = 0u64;
    for edit in edits {
        let stamp = edit.stamp();
        let last = if stamp.replica() == 1 {
            &mut first
        } else {
            &mut second
        };
        if stamp.counter() != last.wrapping_add(1) {
            return None;
        }
        *last = stamp.counter();
    }
    Some((first, second))
}

/// Starts a thread for each seat.
fn spawned<J: Naming + Send + 'static, R: Threads + Wait + Copy + Drop + Send + Sync + 'static>(
    rt: R,
    alloc: Global,
    seats: Vec<Seat<J>>,
) -> Result<Vec<JoinHandle<Submitter<J>>>, Fail> {
    let mut threads = Vec::new(alloc);
    for seat in seats {
        let thread = thread::spawn(&rt, move || submits(&rt, alloc, seat));
        threads.push(thread?)?;
    }
    Ok(threads)
}

/// The seats of all submitters, how many submissions of each were answered well, and whether all were closed
/// out.
#[derive(Drop)]
struct Submitters<J: Naming> {
    seats: Vec<Seat<J>>,
    accepted: Vec<u64>,
    are_closed: bool,
}

impl<J: Naming> Submitters<J> {
    fn new(alloc: Global) -> Submitters<J> {
        Submitters {
            seats: Vec::new(alloc),
            accepted: Vec::new(alloc),
            are_closed: true,
        }
    }

    fn add(&mut self, submitter: Submitter<J>) -> Result<(), AllocError> {
        self.are_closed = self.are_closed && submitter.is_closed;
        self.accepted.push(submitter.accepted)?;
        self.seats.push(submitter.seat)?;
        Ok(())
    }
}

/// Whether an account has of each of two seats as many accepted and published edits.
fn has(account: &Account, accepted: &[u64]) -> bool {
    let [first, second] = accepted else {
        return false;
    };
    account.before == 0
        && account.accepted.as_slice() == accepted
        && last_counters(account.published.as_slice()) == Some((*first, *second))
}

/// Whether all was accepted that was answered well, and published.
fn is_accounted<
    J: Naming + Send + 'static,
    R: Threads + Wait + Copy + Drop + Send + Sync + 'static,
>(rt: R, alloc: Global, opened: Opened<R>) -> Result<bool, Fail>
    requires origin { opened.publisher.origin ≡ J.origin }
    requires inbox { (arc_value opened.drain.queue).table.shared.table_id ≡ J.inbox }
{
    let (relay, seats) = opened.named::<J>()?;
    let threads = spawned(rt, alloc, seats)?;
    let relay = closes(&rt, relay);
    let mut all = Submitters::new(alloc);
    for thread in threads {
        all.add(thread.join(&rt))?;
    }
    let Submitters {
        seats,
        accepted,
        are_closed,
    } = all;
    Ok(are_closed && has(&account(alloc, relay, seats)?, &accepted))
}

/// How many rounds are accounted for.
fn rounds<R: Threads + Wait + Copy + Drop + Send + Sync + 'static>(
    rt: R,
    alloc: Global,
) -> Result<u32, Fail> {
    let mut right = 0u32;
    for _ in 0..ROUNDS {
        let opened = brians_board(rt, alloc, 2, 64)?;
        if is_accounted::<Brand, _>(rt, alloc, opened)? {
            right = right.wrapping_add(1);
        }
    }
    Ok(right)
}

#[test]
fn a_close_loses_nothing_that_was_accepted(rt: HostRuntime) -> Result<(), Fail> {
    assert_eq!(rt; rounds(rt, rt.alloc())?, 200);
    Ok(())
}
