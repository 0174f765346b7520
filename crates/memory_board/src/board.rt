//! A board in memory.

use crate::refusal::Refusal;
use crate::side::Side;
use edit_stamps::{Cell, Edit, Stamp};
use generations_rule::Rule;
use replica_core::{Fault, Replica};
use std::alloc::{AllocError, Global};
use std::cell::RefCell;
use std::rc::Rc;
use std::slice;

/// The number of the replica that stands for the board. No seat has it.
const OWN_NUMBER: u16 = 65535;

/// A board of seats 1, 2, .. under `/2/3`. What was published stands in a replica's journal.
#[derive(Drop)]
pub struct MemoryBoard {
    alloc: Global,
    replica: Replica,
    sides: Vec<Side>,
    /// How many edits a poll hands out at most. A seat that is further behind gets the plane.
    pub most: usize,
    pub refusals: Refusals,
    /// What the next poll is answered in the place of what is true.
    pub wrong_poll: Option<WrongPoll>,
    /// How many requests came, and how many of them were polls, and pushes.
    pub requests: u32,
    pub polls: u32,
    pub pushes: u32,
    /// How many planes were handed out.
    pub planes: u32,
}

/// Which requests are refused.
#[derive(Clone, Copy, Debug)]
pub struct Refusals {
    /// By which number pushes are refused, 0 for none; and of how many more they are not yet.
    pub push: u8,
    pub passes: u32,
    /// Whether an edit whose push is refused is published all the same.
    pub publishes: bool,
    /// By which number polls are refused, 0 for none.
    pub poll: u8,
}

impl Refusals {
    pub const NONE: Refusals = Refusals {
        push: 0,
        passes: 0,
        publishes: false,
        poll: 0,
    };
}

/// A reply to a poll that announces a text of one kind, and a text that may be of another.
#[derive(Drop)]
pub struct WrongPoll {
    pub announces_plane: bool,
    pub text: Vec<u8>,
}

/// A board that its lines share.
pub type Shared = Rc<RefCell<MemoryBoard>>;

/// The first body of a reply that announces a plane.
const PLANE: [u8; 5] = [0, 255, 255, 255, 255];

impl MemoryBoard {
    /// A board of so many seats, where nothing was drawn.
    pub fn new(alloc: Global, seats: u16) -> Result<MemoryBoard, Fault> {
        let Ok(rule) = Rule::parse(b"/2/3") else {
            return Err(Fault::OtherRule);
        };
        Ok(MemoryBoard {
            alloc,
            replica: Replica::new(alloc, rule, OWN_NUMBER)?,
            sides: sides(alloc, seats)?,
            most: 1024,
            refusals: Refusals::NONE,
            wrong_poll: None,
            requests: 0,
            polls: 0,
            pushes: 0,
            planes: 0,
        })
    }

    pub fn shared(alloc: Global, seats: u16) -> Result<Shared, Fault> {
        let board = MemoryBoard::new(alloc, seats)?;
        match Rc::new(alloc, RefCell::new(board)) {
            Ok(shared) => Ok(shared),
            Err(_) => Err(Fault::Memory),
        }
    }

    /// What was published: its map, and each edit in order.
    pub fn replica(&self) -> &Replica {
        &self.replica
    }

    /// A seat draws a cell, with a counter above all others.
    pub fn publish_cell(&mut self, seat: u16, cell: Cell) -> Result<(), Fault> {
        let counter = edit_stamps::counter_of(self.replica.plane().greatest_stamp());
        let Some(stamp) = Stamp::new(counter.saturating_add(1), seat) else {
            return Err(Fault::ClockFull);
        };
        let edit = Edit::cells(self.alloc, &self.replica.rule(), stamp, &[cell])?;
        self.replica.take_edits(slice::from_ref(&edit))
    }

    /// Whoever comes to a seat next has heard nothing.
    pub fn vacate(&mut self, seat: u16) {
        if let Some(side) = self.sides.get_mut(place_of(seat)) {
            side.forget();
        }
    }

    /// Replies to a request of a seat; `None` where there is no such seat, or no memory to refuse it.
    pub(crate) fn answer(&mut self, seat: u16, request: &[u8]) -> Option<()> {
        self.requests = self.requests.saturating_add(1);
        let place = place_of(seat);
        let before = self.sides.get(place)?.len();
        let Err(refusal) = self.reply(place, request) else {
            return Some(());
        };
        let side = self.sides.get_mut(place)?;
        side.truncate(before);
        side.push(&[refusal.number]).ok()
    }

    fn reply(&mut self, place: usize, request: &[u8]) -> Result<(), Refusal> {
        match request {
            [1] => self.greet(place),
            [2, text @ ..] => self.publish(place, text),
            [3] => self.hand_out(place),
            [6] => self.push(place, &[0]),
            _ => Err(Refusal { number: 33 }),
        }
    }

    fn greet(&mut self, place: usize) -> Result<(), Refusal> {
        let number = u8::try_from(place).unwrap_or(u8::MAX).saturating_add(1);
        self.push(place, &[0, 0, number, 4, b'/', b'2', b'/', b'3'])
    }

    fn publish(&mut self, place: usize, text: &[u8]) -> Result<(), Refusal> {
        self.pushes = self.pushes.saturating_add(1);
        let number = self.push_refusal();
        if number == 0 || self.refusals.publishes {
            self.replica.take_bytes(text)?;
        }
        self.push(place, &[number])
    }

    /// By which number the next push is refused, 0 where it is not.
    fn push_refusal(&mut self) -> u8 {
        if self.refusals.passes == 0 {
            return self.refusals.push;
        }
        self.refusals.passes -= 1;
        0
    }

    fn hand_out(&mut self, place: usize) -> Result<(), Refusal> {
        self.polls = self.polls.saturating_add(1);
        if self.refusals.poll != 0 {
            return Err(Refusal {
                number: self.refusals.poll,
            });
        }
        if let Some(wrong) = self.wrong_poll.take() {
            return self.tell_wrong(place, &wrong);
        }
        let published = self.replica.journal().len();
        let handed = match self.sides.get(place) {
            Some(side) => side.handed,
            None => published,
        };
        if published.saturating_sub(handed) > self.most {
            self.hand_out_plane(place)?;
        } else {
            self.hand_out_edits(place, handed, published)?;
        }
        if let Some(side) = self.sides.get_mut(place) {
            side.handed = published;
        }
        Ok(())
    }

    fn hand_out_plane(&mut self, place: usize) -> Result<(), Refusal> {
        let text = self.replica.state()?;
        self.push(place, &PLANE)?;
        self.push(place, &text)?;
        self.planes = self.planes.saturating_add(1);
        Ok(())
    }

    fn hand_out_edits(&mut self, place: usize, from: usize, to: usize) -> Result<(), Refusal> {
        let count = u32::try_from(to.saturating_sub(from)).unwrap_or(0);
        let [a, b, c, d] = count.to_be_bytes();
        self.push(place, &[0, a, b, c, d])?;
        for index in from..to {
            let text = self.replica.delta(u32::try_from(index).unwrap_or(0), 1)?;
            self.push(place, &text)?;
        }
        Ok(())
    }

    fn tell_wrong(&mut self, place: usize, wrong: &WrongPoll) -> Result<(), Refusal> {
        if wrong.announces_plane {
            self.push(place, &PLANE)?;
        } else {
            self.push(place, &[0, 0, 0, 0, 1])?;
        }
        self.push(place, &wrong.text)
    }

    /// Puts a frame behind what came to a seat.
    fn push(&mut self, place: usize, body: &[u8]) -> Result<(), Refusal> {
        match self.sides.get_mut(place) {
            Some(side) => side.push(body),
            None => Err(Refusal { number: 30 }),
        }
    }

    /// Gives what came to a seat.
    pub(crate) fn give(&mut self, seat: u16, piece: &mut [u8]) -> Option<usize> {
        let side = self.sides.get_mut(place_of(seat))?;
        Some(side.pull(piece))
    }
}

/// So many seats to which nothing came.
fn sides(alloc: Global, seats: u16) -> Result<Vec<Side>, AllocError> {
    let mut sides = Vec::new(alloc);
    for _seat in 0..seats {
        sides.push(Side::new(alloc)?)?;
    }
    Ok(sides)
}

/// The place of a seat in the list of all.
fn place_of(seat: u16) -> usize {
    usize::from(seat).wrapping_sub(1)
}
