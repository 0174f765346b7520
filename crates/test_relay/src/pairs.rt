//! Two seats that draw, the relay and a third seat, each on a thread of its own.

ghost use Rattle.std.specs.Prelude.{◌≡◌};
ghost use Rattle.std.specs.Arc.{arc_value};

use crate::drawers::{Ended, end, have_ended, submit_at_last, turns};
use crate::drawn::{brians_board, drawn};
use crate::ending::account;
use edit_stamps::Edit;
use relay_board::{Account, Naming, News, Opened, Receipt, Relay, Seat};
use std::alloc::Global;
use std::marker::Brand;
use std::sync::atomic::AtomicU64;
use std::sync::{Arc, Wait};
use std::test::Fail;
use std::thread;
use std::thread::{JoinHandle, Threads};

const EDITS: u16 = 100;

/// A seat that drew, and its last receipt.
#[derive(Drop)]
struct Drawer<J: Naming> {
    seat: Seat<J>,
    last: Option<Receipt<J>>,
}

/// Draws an edit, and waits for its receipt.
fn draw<J: Naming, R: Wait>(
    rt: &R,
    alloc: Global,
    seat: &mut Seat<J>,
    counter: u16,
) -> Option<Receipt<J>> {
    let stamp = (u64::from(counter), seat.number());
    let edit = drawn(alloc, &seat.rule(), stamp, i32::from(counter), 1)?;
    let pending = submit_at_last(rt, seat, edit)?;
    seat.receive(rt, pending).ok()
}

fn draws<J: Naming, R: Wait>(rt: &R, alloc: Global, mut seat: Seat<J>, ended: Ended) -> Drawer<J> {
    let mut last = None;
    for counter in 1..EDITS + 1 {
        last = draw(rt, alloc, &mut seat, counter);
        if last.is_none() {
            break;
        }
    }
    end(&ended);
    Drawer { seat, last }
}

/// Starts a thread for each seat that draws.
fn spawned<J: Naming + Send + 'static, R: Threads + Wait + Copy + Drop + Send + Sync + 'static>(
    rt: R,
    alloc: Global,
    seats: Vec<Seat<J>>,
    ended: &Ended,
) -> Result<Vec<JoinHandle<Drawer<J>>>, Fail> {
    let mut threads = Vec::new(alloc);
    for seat in seats {
        let ended = Arc::try_clone(ended)?;
        let thread = thread::spawn(&rt, move || draws(&rt, alloc, seat, ended));
        threads.push(thread?)?;
    }
    Ok(threads)
}

/// A seat that polls, and the stamps' numbers of what it was handed.
#[derive(Drop)]
struct Follower<J: Naming> {
    seat: Seat<J>,
    stamps: Vec<u64>,
}

impl<J: Naming> Follower<J> {
    fn new(alloc: Global, seat: Seat<J>) -> Follower<J> {
        Follower {
            seat,
            stamps: Vec::new(alloc),
        }
    }

    /// Polls. A plane is not counted in.
    fn poll(&mut self) -> Result<(), Fail> {
        let Ok(News::Edits(edits)) = self.seat.poll() else {
            return Err(Fail::from("news"));
        };
        for edit in edits.as_slice() {
            self.stamps.push(edit.stamp().number())?;
        }
        Ok(())
    }

    /// Polls until both have ended.
    fn poll_to_the_end<R: Wait>(&mut self, rt: &R, ended: &Ended) -> Result<(), Fail> {
        for _ in rt.forever() {
            if have_ended(ended, 2) {
                break;
            }
            self.poll()?;
            thread::yield_now();
        }
        Ok(())
    }

    /// Joins those who drew, and learns their last receipts: their seats, in order.
    fn join<R: Threads>(
        &mut self,
        rt: &R,
        alloc: Global,
        drawers: Vec<JoinHandle<Drawer<J>>>,
    ) -> Result<Vec<Seat<J>>, Fail> {
        let mut seats = Vec::new(alloc);
        for drawer in drawers {
            let Drawer { seat, last } = drawer.join(rt);
            seats.push(seat)?;
            self.seat.learn(&last.ok_or("receipt")?);
        }
        Ok(seats)
    }
}

/// The threads of the two who draw, and of the relay.
#[derive(Drop)]
struct Drawing<J: Naming, R: Wait + Drop> {
    ended: Ended,
    drawers: Vec<JoinHandle<Drawer<J>>>,
    relay: JoinHandle<Relay<J, R>>,
}

/// Starts the threads.
fn begin_drawing<
    J: Naming + Send + 'static,
    R: Threads + Wait + Copy + Drop + Send + Sync + 'static,
>(rt: R, alloc: Global, relay: Relay<J, R>, seats: Vec<Seat<J>>) -> Result<Drawing<J, R>, Fail> {
    let ended = Arc::new(alloc, AtomicU64::new(0))?;
    let theirs = Arc::try_clone(&ended)?;
    let drawers = spawned(rt, alloc, seats, &ended)?;
    let relay = thread::spawn(&rt, move || turns(&rt, relay, &theirs, 2))?;
    Ok(Drawing {
        ended,
        drawers,
        relay,
    })
}

fn are_stamped(edits: &[Edit], stamps: &[u64]) -> bool {
    if edits.len() != stamps.len() {
        return false;
    }
    for (edit, stamp) in edits.iter().zip(stamps) {
        if edit.stamp().number() != *stamp {
            return false;
        }
    }
    true
}

/// How many edits came before the account's, how many those are, whether the third seat was handed these,
/// and whether three seats were accepted 100, 100 and none.
type Compared = (u64, usize, bool, bool);

fn compared(account: &Account, stamps: &[u64]) -> Compared {
    let published = account.published.as_slice();
    (
        account.before,
        published.len(),
        are_stamped(published, stamps),
        account.accepted.as_slice() == [100, 100, 0].as_slice(),
    )
}

/// Joins all, and compares what the third seat was handed with what the relay comes to.
fn drawn_apart<J: Naming, R: Threads + Wait + Drop>(
    rt: &R,
    alloc: Global,
    drawing: Drawing<J, R>,
    mut third: Follower<J>,
) -> Result<Compared, Fail> {
    let Drawing {
        ended: _,
        drawers,
        relay,
    } = drawing;
    let mut seats = third.join(rt, alloc, drawers)?;
    let mut relay = relay.join(rt);
    third.poll()?;
    relay.close();
    let Follower { seat, stamps } = third;
    seats.push(seat)?;
    Ok(compared(&account(alloc, relay, seats)?, &stamps))
}

fn draws_apart<J: Naming + Send + 'static, R: Threads + Wait + Copy + Drop + Send + Sync + 'static>(
    rt: R,
    alloc: Global,
    opened: Opened<R>,
) -> Result<Compared, Fail>
    requires origin { opened.publisher.origin ≡ J.origin }
    requires inbox { (arc_value opened.drain.queue).table.shared.table_id ≡ J.inbox }
{
    let (relay, mut seats) = opened.named::<J>()?;
    let mut third = Follower::new(alloc, seats.pop().ok_or("third")?);
    let drawing = begin_drawing(rt, alloc, relay, seats)?;
    third.poll_to_the_end(&rt, &drawing.ended)?;
    drawn_apart(&rt, alloc, drawing, third)
}

#[test]
fn a_third_seat_is_handed_what_two_draw(rt: HostRuntime) -> Result<(), Fail> {
    let opened = brians_board(rt, rt.alloc(), 3, 2)?;
    let compared = draws_apart::<Brand, _>(rt, rt.alloc(), opened)?;
    assert_eq!(rt; compared, (0, 200, true, true));
    Ok(())
}
