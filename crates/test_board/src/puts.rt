//! Two threads that put while a third takes.

use crate::sender::{Inbox, Put, Sender, open_inbox};
use inbox::{Drain, Submission};
use std::alloc::Global;
use std::sync::Wait;
use std::test::Fail;
use std::thread;
use std::thread::{JoinHandle, Threads};

/// How many entries each of the two puts.
const ENTRIES: u64 = 10_000;

/// After so many tries a thread gives up.
const TRIES: u64 = 100_000_000;

/// Puts so many entries, and tells how many were accepted.
fn puts<R: Wait>(rt: &R, mut sender: Sender, count: u64) -> u64 {
    for _ in 0..TRIES {
        let accepted = sender.post.accepted();
        if accepted >= count {
            break;
        }
        if sender.put(rt, accepted.wrapping_add(1)) != Put::Accepted {
            thread::yield_now();
        }
    }
    sender.post.accepted()
}

/// What was taken of each of two seats: the number of the last entry, if the entries came in order and
/// each once.
#[derive(Clone, Copy, Debug, PartialEq, Eq)]
struct Came {
    first: u64,
    second: u64,
    in_order: bool,
}

impl Came {
    fn new() -> Came {
        Came {
            first: 0,
            second: 0,
            in_order: true,
        }
    }

    /// Notes an entry: the seat's next, with the edit that the seat put with it.
    fn note(&mut self, submission: &Submission) {
        let entry = &submission.entry;
        let before = if entry.seat == 0 {
            self.first
        } else {
            self.second
        };
        let stamp = entry.edit.stamp();
        self.in_order = self.in_order
            && entry.number == before.wrapping_add(1)
            && entry.number == stamp.counter()
            && u64::from(stamp.replica()) == entry.seat.wrapping_add(1);
        if entry.seat == 0 {
            self.first = entry.number;
        } else {
            self.second = entry.number;
        }
    }
}

/// Takes until that many entries came of each, or one came out of order.
fn takes<R: Wait>(rt: &R, mut drain: Drain, count: u64) -> Came {
    let mut came = Came::new();
    for _ in 0..TRIES {
        if !came.in_order || (came.first == count && came.second == count) {
            break;
        }
        match drain.take(rt) {
            Some(submission) => came.note(&submission),
            None => thread::yield_now(),
        }
    }
    came
}

/// Starts the thread of a sender that puts.
fn begin_putting<R: Threads + Wait + Copy + Drop + Send + Sync + 'static>(
    rt: R,
    sender: Sender,
) -> Result<JoinHandle<u64>, Fail> {
    Ok(thread::spawn(&rt, move || puts(&rt, sender, ENTRIES))?)
}

/// How many entries each put, and what was taken.
fn passed<R: Threads + Wait + Copy + Drop + Send + Sync + 'static>(
    rt: R,
    alloc: Global,
) -> Result<(u64, u64, Came), Fail> {
    let Inbox { drain, one, two } = open_inbox(alloc, 2).ok_or("inbox")?;
    let one = begin_putting(rt, one)?;
    let two = begin_putting(rt, two)?;
    let taker = thread::spawn(&rt, move || takes(&rt, drain, ENTRIES))?;
    Ok((one.join(&rt), two.join(&rt), taker.join(&rt)))
}

#[test]
fn what_two_put_comes_in_order_each_once(rt: HostRuntime) -> Result<(), Fail> {
    let came = Came {
        first: 10_000,
        second: 10_000,
        in_order: true,
    };
    assert_eq!(rt; passed(rt, rt.alloc())?, (10_000, 10_000, came));
    Ok(())
}
