//! Reads beside a thread that publishes.

use crate::press::Press;
use crate::told::are_next;
use board::{BoardReader, News, SeatFault};
use edit_stamps::{Write, counter_of};
use std::alloc::Global;
use std::sync::Wait;
use std::test::Fail;
use std::thread;
use std::thread::{JoinHandle, Threads};

const EDITS: u16 = 10_000;

/// What a reader was handed and has seen, where each edit writes the origin.
#[derive(Clone, Copy, Debug, PartialEq, Eq)]
struct Follower {
    handed: u64,
    /// The greatest counter that it saw at the origin.
    viewed: u64,
    /// Nothing was handed out twice or left out, and no view went back.
    is_right: bool,
}

impl Follower {
    fn new() -> Follower {
        Follower {
            handed: 0,
            viewed: 0,
            is_right: true,
        }
    }

    fn take(&mut self, news: Result<News, SeatFault>) {
        let next = self.handed.wrapping_add(1);
        let (count, goes_on) = match news {
            Ok(News::Edits(edits)) => {
                let edits = edits.as_slice();
                (
                    self.handed.wrapping_add(edits.len() as u64),
                    are_next(edits, next),
                )
            }
            Ok(News::Whole(plane, count)) => (
                count,
                next < count && counter_of(plane.get(0, 0).stamp) == count,
            ),
            Err(_) => (self.handed, false),
        };
        self.handed = count;
        self.is_right = self.is_right && goes_on;
    }

    fn look(&mut self, view: Result<Write, SeatFault>) {
        match view {
            Ok(write) => {
                let counter = counter_of(write.stamp);
                self.is_right = self.is_right && self.viewed <= counter && self.handed <= counter;
                self.viewed = counter;
            }
            Err(_) => self.is_right = false,
        }
    }
}

/// Reads until so many edits were handed out, or something is wrong.
fn follows<R: Wait>(rt: &R, mut reader: BoardReader, count: u64) -> Follower {
    let mut follower = Follower::new();
    for _ in rt.forever() {
        if !follower.is_right || follower.viewed == count {
            break;
        }
        follower.take(reader.poll());
        follower.look(reader.view(0, 0));
        thread::yield_now();
    }
    follower.take(reader.poll());
    follower
}

fn publishes<R: Wait + Drop>(mut press: Press<R>, count: u16) -> Result<Press<R>, &'static str> {
    for i in 0..count {
        press = press.publish(u64::from(i) + 1, 0)?;
    }
    Ok(press)
}

/// Starts the thread of a reader that has seen what is published.
fn begin_following<R: Threads + Wait + Copy + Drop + Send + Sync + 'static>(
    rt: R,
    press: &mut Press<R>,
) -> Result<JoinHandle<Follower>, Fail> {
    let reader = press.reader()?;
    Ok(thread::spawn(&rt, move || follows(&rt, reader, u64::from(EDITS)))?)
}

/// What three readers are handed and see, each on a thread of its own.
fn followed<R: Threads + Wait + Copy + Drop + Send + Sync + 'static>(
    rt: R,
    alloc: Global,
) -> Result<[Follower; 3], Fail> {
    let mut press = Press::new(rt, alloc, 3)?;
    let one = begin_following(rt, &mut press)?;
    let two = begin_following(rt, &mut press)?;
    let three = begin_following(rt, &mut press)?;
    let _press = publishes(press, EDITS)?;
    Ok([one.join(&rt), two.join(&rt), three.join(&rt)])
}

#[test]
fn readers_go_on_where_they_stopped(rt: HostRuntime) -> Result<(), Fail> {
    let all = Follower {
        handed: 10_000,
        viewed: 10_000,
        is_right: true,
    };
    assert_eq!(rt; followed(rt, rt.alloc())?, [all, all, all]);
    Ok(())
}
