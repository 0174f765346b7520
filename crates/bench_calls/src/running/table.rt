//! A board with all who sit at it.

use crate::drawing::{Chance, Field};
use anyhow::{Context, Result, ensure};
use edit_stamps::{Cell, Edit, Stamp};
use relay_board::{Naming, Pending, Relay, Seat, Turn};
use std::alloc::{AllocError, Global};
use std::sync::Wait;
use std::sync::atomic::{AtomicBool, Ordering};
use std::thread;
use std::thread::Threads;
use std::time::Duration;

/// How many seats write; the others read.
pub const WRITERS: usize = 4;

/// For how many milliseconds at most the relay sleeps where the inbox is empty.
const REST: u64 = 10;

/// A seat that submits edits. Their stamps follow those of the list that it has learnt.
#[derive(Drop)]
struct Writer<J: Naming> {
    alloc: Global,
    seat: Seat<J>,
    chance: Chance,
    field: Field,
    /// No counter of a stamp is greater in the list that it has learnt.
    counter: u64,
}

impl<J: Naming> Writer<J> {
    /// Submits the edit of some cells.
    fn submit<R: Wait>(&mut self, rt: &R, cells: &[Cell]) -> Result<Pending<J>> {
        let counter = self.counter.saturating_add(1);
        let stamp = Stamp::new(counter, self.seat.number()).context("a stamp in range")?;
        let edit = Edit::cells(self.alloc, &self.seat.rule(), stamp, cells)?;
        self.seat
            .submit(rt, edit)
            .ok()
            .context("a submission was refused")
    }

    /// Waits for the receipt, and learns its list.
    fn receive<R: Wait>(&mut self, rt: &R, pending: Pending<J>) -> Result<()> {
        let receipt = self
            .seat
            .receive(rt, pending)
            .ok()
            .context("no receipt came")?;
        self.seat.learn(&receipt);
        // The list has one entry more than stands before its last, and no counter beyond that.
        self.counter = receipt.place().saturating_add(1);
        Ok(())
    }

    /// Submits so many edits, each received before the next.
    fn work<R: Wait>(&mut self, rt: &R, edits: u32) -> Result<()> {
        for _ in 0..edits {
            let cell = self.chance.cell(self.field);
            let pending = self.submit(rt, &[cell])?;
            self.receive(rt, pending)?;
        }
        Ok(())
    }
}

/// A board with all who sit at it. A relay of which a turn failed is gone, which ends who waits for it.
#[derive(Drop)]
pub struct Table<J: Naming, R: Wait + Drop> {
    relay: Option<Relay<J, R>>,
    writers: Vec<Writer<J>>,
    pub readers: Vec<Seat<J>>,
}

impl<J: Naming + Send, R: Threads + Wait + Drop + Send + Sync> Table<J, R> {
    /// The relay and the seats of a board, whose writers draw in a field.
    pub fn new(
        alloc: Global,
        relay: Relay<J, R>,
        seats: Vec<Seat<J>>,
        field: Field,
    ) -> Result<Table<J, R>, AllocError> {
        let mut table = Table {
            relay: Some(relay),
            writers: Vec::new(alloc),
            readers: Vec::new(alloc),
        };
        for seat in seats {
            if table.writers.len() < WRITERS {
                table.writers.push(Writer {
                    alloc,
                    chance: Chance::new(u64::from(seat.number())),
                    seat,
                    field,
                    counter: 0,
                })?;
            } else {
                table.readers.push(seat)?;
            }
        }
        Ok(table)
    }

    /// The first writer publishes an edit of some cells.
    pub fn publish(&mut self, rt: &R, cells: &[Cell]) -> Result<()> {
        let writer = self.writers.first_mut().context("a writer")?;
        publish(rt, &mut self.relay, writer, cells)
    }

    /// The first writer publishes so many edits of one cell, with the relay in one thread. Where they are polled,
    /// the others poll without pause, each in a thread of its own.
    pub fn publish_many(&mut self, rt: &R, edits: u32, is_polled: bool) -> Result<()> {
        let is_over = AtomicBool::new(!is_polled);
        let (writer, others) = self.writers.split_first_mut().context("a writer")?;
        let relay = &mut self.relay;
        let poll = |_: usize, writer: &mut Writer<J>| poll_on(rt, &mut writer.seat, &is_over);
        let ((), published) = thread::join(
            rt,
            || thread::for_each_mut(rt, others, WRITERS, &poll),
            || {
                let published = publish_all(rt, relay, writer, edits);
                is_over.store(true, Ordering::SeqCst);
                published
            },
        );
        published
    }

    /// Each writer publishes so many edits of one cell, in a thread of its own, as the relay has one.
    pub fn work_all(&mut self, rt: &R, edits: u32) -> Result<()> {
        let Table { relay, writers, .. } = self;
        let bell = relay.as_ref().context("the relay is gone")?.bell()?;
        let (is_over, has_failed) = (AtomicBool::new(false), AtomicBool::new(false));
        let work = |_: usize, writer: &mut Writer<J>| {
            if writer.work(rt, edits).is_err() {
                has_failed.store(true, Ordering::SeqCst);
            }
        };
        thread::join(
            rt,
            || take_turns(rt, relay, &is_over),
            || {
                thread::for_each_mut(rt, writers, WRITERS, &work);
                is_over.store(true, Ordering::SeqCst);
                bell.ring();
            },
        );
        ensure!(!has_failed.load(Ordering::SeqCst), "a writer failed");
        Ok(())
    }

    /// How many edits of the writers were accepted.
    pub fn accepted(&self) -> u64 {
        let mut accepted = 0_u64;
        for writer in &self.writers {
            accepted = accepted.wrapping_add(writer.seat.accepted());
        }
        accepted
    }
}

/// Publishes an edit of some cells, and receives it.
fn publish<J: Naming, R: Wait + Drop>(
    rt: &R,
    relay: &mut Option<Relay<J, R>>,
    writer: &mut Writer<J>,
    cells: &[Cell],
) -> Result<()> {
    let relay = relay.as_mut().context("the relay is gone")?;
    let pending = writer.submit(rt, cells)?;
    ensure!(matches!(relay.turn(), Turn::Published(_)), "a turn failed");
    writer.receive(rt, pending)
}

/// Publishes so many edits of one cell.
fn publish_all<J: Naming, R: Wait + Drop>(
    rt: &R,
    relay: &mut Option<Relay<J, R>>,
    writer: &mut Writer<J>,
    edits: u32,
) -> Result<()> {
    for _ in 0..edits {
        let cell = writer.chance.cell(writer.field);
        publish(rt, relay, writer, &[cell])?;
    }
    Ok(())
}

/// Takes turns until the inbox is empty and all is over, or a turn fails.
fn take_turns<J: Naming, R: Wait + Drop>(
    rt: &R,
    slot: &mut Option<Relay<J, R>>,
    is_over: &AtomicBool,
) {
    for _ in rt.forever() {
        let Some(relay) = slot else {
            break;
        };
        match relay.turn() {
            Turn::Published(_) => {}
            Turn::Failed(_) => *slot = None,
            Turn::Idle if is_over.load(Ordering::SeqCst) => break,
            Turn::Idle => relay.rest(Duration::from_millis(REST)),
        }
    }
}

/// Polls until all is over.
fn poll_on<J: Naming>(rt: &impl Wait, seat: &mut Seat<J>, is_over: &AtomicBool) {
    for _ in rt.forever() {
        if is_over.load(Ordering::SeqCst) || seat.poll().is_err() {
            break;
        }
    }
}
