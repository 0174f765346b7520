//! Eight seats that draw 1,000 edits each, each on a thread of its own, and two more that only poll.

ghost use Rattle.std.specs.Prelude.{◌≡◌};
ghost use Rattle.std.specs.Arc.{arc_value};

use crate::drawers::{Ended, end, have_ended, submit_at_last, turns};
use crate::drawn::brians_board;
use edit_stamps::{Cell, Edit, Stamp};
use generations_rule::Rule;
use relay_board::{Naming, News, Opened, Seat, SeatFault};
use stamped_tree::Plane;
use std::alloc::Global;
use std::marker::Brand;
use std::sync::atomic::AtomicU64;
use std::sync::{Arc, Wait};
use std::test::Fail;
use std::thread;
use std::thread::{JoinHandle, Threads};

const DRAWERS: u16 = 8;

const EDITS: u16 = 1_000;

/// The edit of a seat that writes a cell of its own, in the row of its number, and one of 100 cells of
/// row 0 that all write.
fn drawn(alloc: Global, rule: &Rule, counter: u16, replica: u16) -> Option<Edit> {
    let stamp = Stamp::new(u64::from(counter), replica)?;
    let own = Cell {
        x: i32::from(counter),
        y: i32::from(replica),
        state: 1,
    };
    let shared = Cell {
        x: i32::from(counter % 100),
        y: 0,
        state: if counter % 2 == 0 { 2 } else { 1 },
    };
    Edit::cells(alloc, rule, stamp, &[own, shared]).ok()
}

/// How many edits a seat was handed, and the last counter of each seat among them.
#[derive(Clone, Copy)]
struct Follower {
    handed: u64,
    last: [u64; 9],
    /// Nothing was handed out twice or left out, and each seat's edits came in its order.
    is_right: bool,
}

impl Follower {
    fn new() -> Follower {
        Follower {
            handed: 0,
            last: [0; 9],
            is_right: true,
        }
    }

    fn take(&mut self, news: Result<News, SeatFault>) {
        match news {
            Ok(News::Edits(edits)) => self.take_edits(edits.as_slice()),
            Ok(News::Whole(plane, count)) => self.take_plane(&plane, count),
            Err(_) => self.is_right = false,
        }
    }

    fn take_edits(&mut self, edits: &[Edit]) {
        for edit in edits {
            let stamp = edit.stamp();
            match self.last.get_mut(usize::from(stamp.replica())) {
                Some(last) if last.wrapping_add(1) == stamp.counter() => *last = stamp.counter(),
                _ => self.is_right = false,
            }
        }
        self.handed = self.handed.wrapping_add(edits.len() as u64);
    }

    /// A plane of so many edits has as many cells of their own.
    fn take_plane(&mut self, plane: &Plane, count: u64) {
        let Some(last) = counted(plane) else {
            self.is_right = false;
            return;
        };
        let mut edits = 0u64;
        for row in last {
            edits = edits.wrapping_add(row);
        }
        self.is_right = self.is_right && edits == count && self.handed.wrapping_add(1024) < count;
        self.last = last;
        self.handed = count;
    }

    /// Whether so many edits of a seat were handed out.
    fn has(&self, number: u16, counter: u16) -> bool {
        match self.last.get(usize::from(number)) {
            Some(last) => *last >= u64::from(counter),
            None => false,
        }
    }
}

/// How many cells a plane has in each of the rows 1 to 8.
fn counted(plane: &Plane) -> Option<[u64; 9]> {
    let mut rows = [0u64; 9];
    for cell in &plane.walk().ok()? {
        if cell.y > 0 {
            let row = rows.get_mut(usize::try_from(cell.y).ok()?)?;
            *row = row.wrapping_add(1);
        }
    }
    Some(rows)
}

/// A seat, and what it was handed.
#[derive(Drop)]
struct Member<J: Naming> {
    seat: Seat<J>,
    follower: Follower,
}

impl<J: Naming> Member<J> {
    fn new(seat: Seat<J>) -> Member<J> {
        Member {
            seat,
            follower: Follower::new(),
        }
    }

    fn poll(&mut self) {
        self.follower.take(self.seat.poll());
    }

    /// Draws an edit, waits for its receipt, learns it, and polls: that edit is among what was handed out.
    fn draw<R: Wait>(&mut self, rt: &R, alloc: Global, counter: u16) -> Option<()> {
        let number = self.seat.number();
        let edit = drawn(alloc, &self.seat.rule(), counter, number)?;
        let pending = submit_at_last(rt, &mut self.seat, edit)?;
        let receipt = self.seat.receive(rt, pending).ok()?;
        self.seat.learn(&receipt);
        self.poll();
        if self.follower.has(number, counter) {
            Some(())
        } else {
            None
        }
    }
}

fn draws<J: Naming, R: Wait>(
    rt: &R,
    alloc: Global,
    mut member: Member<J>,
    ended: Ended,
) -> Member<J> {
    for counter in 1..EDITS + 1 {
        if member.draw(rt, alloc, counter).is_none() {
            member.follower.is_right = false;
            break;
        }
    }
    end(&ended);
    member
}

fn polls<J: Naming, R: Wait>(rt: &R, mut member: Member<J>, ended: Ended) -> Member<J> {
    for _ in rt.forever() {
        if have_ended(&ended, u64::from(DRAWERS)) {
            break;
        }
        member.poll();
        thread::yield_now();
    }
    member
}

/// The greatest counter that writes a cell of row 0.
fn greatest(column: u16) -> u16 {
    if column == 0 {
        1000
    } else {
        900 + column % 100
    }
}

/// Whether a plane shows a write of a seat.
fn shows(plane: &Plane, (x, y): (u16, u16), (counter, replica): (u16, u16), state: u8) -> bool {
    let write = plane.get(i32::from(x), i32::from(y));
    write.stamp == u64::from(counter) * 65536 + u64::from(replica) && write.state == state
}

/// Whether a plane shows at row 0 the last of the edits, those of seat 8, and in each seat's row the one
/// edit that wrote each cell.
fn is_of_all(plane: &Plane) -> bool {
    for column in 0..100u16 {
        let counter = greatest(column);
        let state = if counter % 2 == 0 { 2 } else { 1 };
        if !shows(plane, (column, 0), (counter, 8), state) {
            return false;
        }
    }
    for replica in 1..DRAWERS + 1 {
        if !is_row_of(plane, replica) {
            return false;
        }
    }
    true
}

fn is_row_of(plane: &Plane, replica: u16) -> bool {
    for counter in 1..EDITS + 1 {
        if !shows(plane, (counter, replica), (counter, replica), 1) {
            return false;
        }
    }
    true
}

/// Whether a seat was handed all of 8,000 edits, as it ought to be, and shows the map of all.
fn has_all<J: Naming>(mut member: Member<J>) -> bool {
    member.poll();
    let is_map = match member.seat.plane() {
        Ok(plane) => is_of_all(&plane),
        Err(_) => false,
    };
    is_map && member.follower.is_right && member.follower.handed == 8000
}

/// Starts a thread for each seat: the first eight draw, the others poll.
fn spawned<J: Naming + Send + 'static, R: Threads + Wait + Copy + Drop + Send + Sync + 'static>(
    rt: R,
    alloc: Global,
    seats: Vec<Seat<J>>,
    ended: &Ended,
) -> Result<Vec<JoinHandle<Member<J>>>, Fail> {
    let mut threads = Vec::new(alloc);
    for seat in seats {
        let ended = Arc::try_clone(ended)?;
        let is_drawer = seat.number() <= DRAWERS;
        let member = Member::new(seat);
        let thread = thread::spawn(&rt, move || {
            if is_drawer {
                draws(&rt, alloc, member, ended)
            } else {
                polls(&rt, member, ended)
            }
        });
        threads.push(thread?)?;
    }
    Ok(threads)
}

/// How many of ten seats end with all.
fn draws_together<
    J: Naming + Send + 'static,
    R: Threads + Wait + Copy + Drop + Send + Sync + 'static,
>(rt: R, alloc: Global, opened: Opened<R>) -> Result<usize, Fail>
    requires origin { opened.publisher.origin ≡ J.origin }
    requires inbox { (arc_value opened.drain.queue).table.shared.table_id ≡ J.inbox }
{
    let ended = Arc::new(alloc, AtomicU64::new(0))?;
    let (relay, seats) = opened.named::<J>()?;
    let threads = spawned(rt, alloc, seats, &ended)?;
    let _relay = turns(&rt, relay, &ended, u64::from(DRAWERS));
    let mut right = 0usize;
    for thread in threads {
        if has_all(thread.join(&rt)) {
            right = right.wrapping_add(1);
        }
    }
    Ok(right)
}

#[test]
fn all_end_with_one_map(rt: HostRuntime) -> Result<(), Fail> {
    let opened = brians_board(rt, rt.alloc(), 10, 8)?;
    assert_eq!(rt; draws_together::<Brand, _>(rt, rt.alloc(), opened)?, 10);
    Ok(())
}
