//! The desk, which gives out chairs.

use crate::alarm::Alarms;
use crate::guest::Guest;
use crate::stopwatch::Stopwatch;
use chairs::{PagePlace, Plan};
use crossbeam_channel::{SendError, Sender};
use std::alloc::{AllocError, Global};
use std::collections::VecDeque;
use std::net::Shutdown;
use std::sync::{Arc, Wait};
use std::time::Clock;
use web_doors::SeatVisitor;

/// Somebody for whom no chair was free, under a number of their own.
#[derive(Drop)]
struct Waiting {
    number: u64,
    guest: Guest,
}

/// What the desk did with a guest.
#[derive(Drop)]
pub(crate) enum Received {
    /// They have a chair.
    Seated,
    /// They wait for one, and can be taken back by this number.
    Waits(u64),
    /// Nobody more is seated, or there is no memory for it.
    Back(Guest),
}

/// The chairs of a board's seats, as the desk finds them.
#[derive(Drop)]
pub(crate) struct DeskChairs {
    pub(crate) plan: Plan,
    /// What gives each its guests, in their order.
    pub(crate) guests: Vec<Sender<Guest, Global>>,
    pub(crate) alarms: Arc<Alarms, Global>,
}

/// Gives guests to the chairs of a board's seats, by the plan: to a page its own, else one at which nobody has sat yet, or
/// the one that was left longest ago. At each chair there is one guest at a time.
#[derive(Drop)]
pub(crate) struct Desk {
    /// None of the senders is left once nobody more is seated.
    chairs: DeskChairs,
    /// For each chair its page's next socket, which is seated once the session over the one before has ended.
    pending: Vec<Option<SeatVisitor>>,
    /// Those who wait for a chair, in the order in which they came.
    waiting: VecDeque<Waiting>,
    /// How many have waited for a chair so far.
    waited: u64,
    /// How many chairs somebody sits at.
    sitting: usize,
    stopwatch: Stopwatch,
    /// When a chair was left last.
    left_at: u64,
    is_closed: bool,
}

impl Desk {
    /// The desk of chairs at which nobody has sat.
    pub(crate) fn new<C: Clock>(
        clock: &C,
        alloc: Global,
        chairs: DeskChairs,
    ) -> Result<Desk, AllocError> {
        let mut pending = Vec::new(alloc);
        for _chair in 0..chairs.plan.len() {
            pending.push(None)?;
        }
        Ok(Desk {
            chairs,
            pending,
            waiting: VecDeque::new(alloc),
            waited: 0,
            sitting: 0,
            stopwatch: Stopwatch::start(clock),
            left_at: 0,
            is_closed: false,
        })
    }

    /// Gives a guest a chair. They come back where there is none for them, or nobody more is seated.
    pub(crate) fn seat<R: Wait + Clock>(&mut self, rt: &R, guest: Guest) -> Result<(), Guest> {
        if self.is_closed {
            return Err(guest);
        }
        let now = self.stopwatch.milliseconds(rt);
        match guest {
            Guest::Frames(connection) => match self.chairs.plan.take(now) {
                None => Err(Guest::Frames(connection)),
                Some(at) => self.give(rt, at, Guest::Frames(connection)),
            },
            Guest::Page(visitor) => match self.chairs.plan.take_for(visitor.request.key, now) {
                None => Err(Guest::Page(visitor)),
                Some(PagePlace::Free(at)) => self.give(rt, at, Guest::Page(visitor)),
                Some(PagePlace::Own(at)) => self.replace(rt, at, visitor),
            },
        }
    }

    /// Gives a guest the chair that the plan has given them.
    fn give<R: Wait + Clock>(&mut self, rt: &R, at: usize, guest: Guest) -> Result<(), Guest> {
        let sent = match self.chairs.guests.get(at) {
            None => Err(guest),
            Some(guests) => match guests.send(rt, guest) {
                Ok(()) => Ok(()),
                Err(SendError::OutOfMemory(back) | SendError::Disconnected(back)) => Err(back),
            },
        };
        if sent.is_ok() {
            self.sitting = self.sitting.saturating_add(1);
        } else {
            self.free(rt, at);
        }
        sent
    }

    /// Has the next socket of a page wait for its chair, and ends the session over the one before. A socket that waited
    /// there already is closed.
    fn replace<R: Wait>(&mut self, rt: &R, at: usize, visitor: SeatVisitor) -> Result<(), Guest> {
        let Some(pending) = self.pending.get_mut(at) else {
            return Err(Guest::Page(visitor));
        };
        *pending = Some(visitor);
        // Under the desk's lock: the next socket cannot have been seated meanwhile, and be ended in its place.
        self.chairs.alarms.shut_at(rt, at, Shutdown::Both);
        Ok(())
    }

    /// Gives a guest a chair, or has them wait for one: at one moment, so that no chair comes free in between.
    pub(crate) fn seat_or_wait<R: Wait + Clock>(&mut self, rt: &R, guest: Guest) -> Received {
        let guest = match self.seat(rt, guest) {
            Ok(()) => return Received::Seated,
            Err(guest) => guest,
        };
        if self.is_closed {
            return Received::Back(guest);
        }
        let number = self.waited;
        self.waited = self.waited.wrapping_add(1);
        match self.waiting.push_back(Waiting { number, guest }) {
            Ok(()) => Received::Waits(number),
            Err(failed) => Received::Back(failed.value.guest),
        }
    }

    /// Takes back somebody who still waits for a chair; nobody where they were given one.
    pub(crate) fn take_back(&mut self, number: u64) -> Option<Guest> {
        let at = self
            .waiting
            .iter()
            .position(|waiting| waiting.number == number)?;
        let waiting = self.waiting.remove(at)?;
        Some(waiting.guest)
    }

    /// Somebody has waited long enough: they are given a chair now, or come back. Nobody comes back where they were given one
    /// before.
    pub(crate) fn seat_at_last<R: Wait + Clock>(&mut self, rt: &R, number: u64) -> Option<Guest> {
        let guest = self.take_back(number)?;
        self.seat(rt, guest).err()
    }

    /// The session at a chair has ended. Its page's next socket comes next, if one waits for that. Else the chair is free,
    /// and whoever waits longest of those who may have one gets it.
    pub(crate) fn leave<R: Wait + Clock>(&mut self, rt: &R, at: usize) -> Option<Guest> {
        if let Some(visitor) = self.next_of_page(at) {
            return Some(Guest::Page(visitor));
        }
        self.depart(rt);
        self.free(rt, at);
        self.seat_waiting(rt);
        None
    }

    /// The next socket of the page at a chair, if there is one.
    fn next_of_page(&mut self, at: usize) -> Option<SeatVisitor> {
        let pending = self.pending.get_mut(at)?;
        pending.take()
    }

    /// Nobody sits at a chair any more.
    pub(crate) fn depart<C: Clock>(&mut self, clock: &C) {
        self.sitting = self.sitting.saturating_sub(1);
        self.left_at = self.stopwatch.milliseconds(clock);
    }

    /// A chair can be given again, by the plan.
    fn free<C: Clock>(&mut self, clock: &C, at: usize) {
        let now = self.stopwatch.milliseconds(clock);
        if at < self.chairs.plan.len() {
            self.chairs.plan.leave(at, now);
        }
    }

    /// Gives chairs to those who wait, each in turn, as far as there are some for them.
    fn seat_waiting<R: Wait + Clock>(&mut self, rt: &R) {
        for _one in 0..self.waiting.len() {
            let Some(Waiting { number, guest }) = self.waiting.pop_front() else {
                return;
            };
            if let Err(guest) = self.seat(rt, guest) {
                // There is room for one who was taken out just now.
                let _ = self.waiting.push_back(Waiting { number, guest });
            }
        }
    }

    /// From now on nobody more is seated: who waits at a chair for a guest is let go.
    pub(crate) fn close(&mut self) {
        self.is_closed = true;
        self.chairs.guests.clear();
        self.pending.clear();
    }

    /// Closes the desk where nobody has sat at any chair for so many milliseconds, or since it was opened. Whether it is
    /// closed.
    pub(crate) fn close_if_idle<C: Clock>(&mut self, clock: &C, most: u64) -> bool {
        let now = self.stopwatch.milliseconds(clock);
        if self.sitting == 0 && now.saturating_sub(self.left_at) >= most {
            self.close();
        }
        self.is_closed
    }

    pub(crate) fn is_closed(&self) -> bool {
        self.is_closed
    }

    /// Whether the next socket of the page at a chair waits for that.
    pub(crate) fn is_awaited(&self, at: usize) -> bool {
        matches!(self.pending.get(at), Some(Some(_)))
    }

    /// Whether there is a chair at which nobody has sat yet.
    pub(crate) fn has_fresh(&self) -> bool {
        self.chairs.plan.has_fresh()
    }
}
