//! What is done at boards that were just opened, step by step.

use crate::memory::edits;
use crate::memory::rows::{
    BYE, EXPORT, HELLO, MANY, POLL_ONE, PUSH_ONE, PUSH_OTHER, PUSH_STATE, PUSH_UNSTAMPED, Row,
    WHOLE,
};
use crate::memory::seats::{
    Ended, FIRST, finished, hands_out, has_row, is_account, polled, reads, submitted, turned,
};
use edit_stamps::{Edit, Stamp, Write};
use generations_rule::Rule;
use pattern_cells::Cell;
use relay_board::{
    FinishFault, KEPT, Naming, News, Pending, Receipt, Relay, Seat, SubmitFault, Turn, TurnFault,
};
use std::alloc::Global;
use std::sync::Wait;

/// An edit of one cell, in the column of row 0 whose number is one less than the counter.
#[derive(Drop)]
struct Drawing {
    rule: &'static [u8],
    counter: u16,
    replica: u16,
    state: u8,
}

/// A step. Seats are numbered from 0; the first one submits.
#[derive(Drop)]
enum Step {
    /// The live cell of a counter is accepted.
    Submit(u16),
    /// An edit is refused by a fault, comes back, and was not accepted.
    Refuse(Drawing, SubmitFault),
    /// A turn publishes the first stamp.
    Publish,
    /// A turn finds nothing, which wants no memory.
    Idle,
    /// A turn finds no room in the relay's own plane.
    Full,
    /// The receipt of what was submitted last is received and learnt.
    Receive,
    /// The live cells of all counters up to one are submitted, published and received.
    Pass(u16, u16),
    /// A seat learns of the last receipt.
    Learn(usize),
    /// A seat that polls is handed the edits of all counters from one on, so many.
    Edits(usize, u64, usize),
    /// A seat that polls is handed a plane of so many columns.
    Whole(usize, u16),
    /// A seat sees a state at the origin, by the first stamp or by none.
    See(usize, u8),
    /// A seat reads a plane of so many columns.
    Read(usize, usize),
    Close,
}

/// What is done at a board: calls, each with the steps behind which it answers as it is meant to, in order;
/// and how its relay finishes, once it is closed, which is the last call.
pub struct Way {
    pub seats: u16,
    /// The requests of each call, where a session is over the one seat.
    pub requests: &'static [&'static [Row]],
    /// How many squares the relay's own plane has room for, where that is told.
    pub room: Option<u32>,
    calls: &'static [(&'static str, &'static [Step])],
    end: (&'static str, Result<Ended, FinishFault>),
}

/// One edit goes from its seat to another.
const PAIR: Way = Way {
    seats: 2,
    requests: &[],
    room: None,
    calls: &[
        ("start, Opened::named", &[]),
        ("Seat::submit", &[Step::Submit(1)]),
        ("Relay::turn", &[Step::Publish, Step::Idle]),
        (
            "Seat::poll",
            &[
                Step::Receive,
                Step::Learn(1),
                Step::Edits(1, 1, 1),
                Step::Edits(1, 2, 0),
            ],
        ),
        ("Seat::plane", &[Step::See(1, 1), Step::Read(1, 1)]),
    ],
    end: (
        "Relay::finish",
        Ok(Ended {
            before: 0,
            published: 1,
            accepted: &[1, 0],
        }),
    ),
};

/// A third edit, where an inbox has room for two; one of another replica; and one whose state the rule does
/// not have.
const THIRD: Drawing = Drawing {
    rule: b"/2/3",
    counter: 3,
    replica: 1,
    state: 1,
};

const THEIRS: Drawing = Drawing {
    replica: 2,
    ..THIRD
};

const BEYOND: Drawing = Drawing {
    rule: b"345/2/4",
    state: 3,
    ..THIRD
};

/// Submissions are refused: of another replica and of a state that the rule does not have, of a third, and
/// behind the close. What is queued is published then.
const REFUSED: Way = Way {
    seats: 2,
    requests: &[],
    room: None,
    calls: &[
        (
            "Seat::submit of a stranger",
            &[
                Step::Refuse(THEIRS, SubmitFault::NotYours),
                Step::Refuse(BEYOND, SubmitFault::StateRange),
            ],
        ),
        (
            "Seat::submit into a full inbox",
            &[
                Step::Submit(1),
                Step::Submit(2),
                Step::Refuse(THIRD, SubmitFault::Full),
            ],
        ),
        (
            "Seat::submit behind the close",
            &[Step::Close, Step::Refuse(THIRD, SubmitFault::Closed)],
        ),
    ],
    end: (
        "Relay::finish of what is queued",
        Ok(Ended {
            before: 0,
            published: 2,
            accepted: &[2, 0],
        }),
    ),
};

/// The relay has no room for one cell: what is submitted is not published.
const CRAMPED: Way = Way {
    seats: 1,
    requests: &[],
    room: Some(29),
    calls: &[
        ("start_within", &[]),
        (
            "Relay::turn refused",
            &[Step::Submit(1), Step::Full, Step::Full, Step::See(0, 0)],
        ),
    ],
    end: ("Relay::finish refused", Err(FinishFault::StoreFull)),
};

pub static WAYS: [Way; 3] = [PAIR, REFUSED, CRAMPED];

/// One edit more is published than a board keeps: so many calls are made before those that it is for that
/// it is tried only where it is asked for.
pub static LATE: [Way; 1] = [Way {
    seats: 3,
    requests: &[],
    room: None,
    calls: &[
        (
            "Seat::poll of 1,024 edits",
            &[
                Step::Pass(1, 1),
                Step::Learn(1),
                Step::Edits(1, 1, 1),
                Step::Pass(2, 1025),
                Step::Learn(1),
                Step::Learn(2),
                Step::Edits(1, 2, KEPT),
                Step::Edits(1, 1026, 0),
            ],
        ),
        (
            "Seat::poll of a plane",
            &[Step::Whole(2, 1025), Step::Edits(2, 1026, 0)],
        ),
    ],
    end: (
        "Relay::finish of 1,025 edits",
        Ok(Ended {
            before: 1,
            published: 1024,
            accepted: &[1025, 0, 0],
        }),
    ),
}];

/// A session asks at the one seat, from a greeting to a farewell.
pub static SESSION: [Way; 1] = [Way {
    seats: 1,
    requests: &[
        &[HELLO],
        &[PUSH_ONE, PUSH_OTHER, PUSH_UNSTAMPED, PUSH_STATE],
        &[POLL_ONE],
        &[WHOLE, EXPORT, MANY],
        &[BYE],
    ],
    room: None,
    calls: &[
        ("Hello", &[]),
        ("Push", &[]),
        ("Poll", &[]),
        ("Whole, Export, Many", &[]),
        ("Bye", &[]),
    ],
    end: (
        "the board of that seat",
        Ok(Ended {
            before: 0,
            published: 1,
            accepted: &[1],
        }),
    ),
}];

impl Way {
    /// How the calls are named, in order.
    pub fn name(&self, place: usize) -> &'static str {
        self.calls.get(place).map_or(self.end.0, |(call, _)| call)
    }

    /// How many calls there are.
    pub fn len(&self) -> usize {
        self.calls.len().saturating_add(1)
    }
}

impl Drawing {
    fn edit(&self, alloc: Global) -> Option<Edit> {
        let rule = Rule::parse(self.rule).ok()?;
        let stamp = Stamp::new(u64::from(self.counter), self.replica)?;
        let column = i32::from(self.counter).wrapping_sub(1);
        edits::drawn(alloc, &rule, stamp, &[cell!(column, 0, self.state)])
    }
}

/// A board that was opened, what its first seat submitted last, and what it received.
#[derive(Drop)]
pub struct Table<J: Naming, R: Wait + Drop> {
    rt: R,
    alloc: Global,
    relay: Relay<J, R>,
    seats: Vec<Seat<J>>,
    pending: Option<Pending<J>>,
    receipt: Option<Receipt<J>>,
}

impl<J: Naming, R: Wait + Drop> Table<J, R> {
    pub fn new(rt: R, alloc: Global, relay: Relay<J, R>, seats: Vec<Seat<J>>) -> Table<J, R> {
        Table {
            rt,
            alloc,
            relay,
            seats,
            pending: None,
            receipt: None,
        }
    }

    /// Submits an edit: whether it is accepted, or refused by a fault that is told.
    fn submits(&mut self, drawing: &Drawing, fault: Option<SubmitFault>) -> bool {
        let (Some(edit), Some(seat)) = (drawing.edit(self.alloc), self.seats.first_mut()) else {
            return false;
        };
        match submitted(&self.rt, seat, edit) {
            Ok(pending) => {
                self.pending = Some(pending);
                fault.is_none()
            }
            Err(Some((_, told))) => fault == Some(told),
            Err(None) => false,
        }
    }

    /// The same of the live cell of a counter, which is accepted.
    fn pends(&mut self, counter: u16) -> bool {
        self.submits(&Drawing { counter, ..THIRD }, None)
    }

    /// Takes a turn, beside the last seat; none where nobody sits there.
    fn turn(&mut self) -> Turn {
        match self.seats.last_mut() {
            Some(seat) => turned(&mut self.relay, seat),
            None => Turn::Idle,
        }
    }

    /// Whether a turn publishes: the first stamp, where that is asked.
    fn publishes(&mut self, is_first: bool) -> bool {
        match self.turn() {
            Turn::Published(stamp) => !is_first || stamp.number() == FIRST,
            _ => false,
        }
    }

    fn receives(&mut self) -> bool {
        let (Some(pending), Some(seat)) = (self.pending.take(), self.seats.first_mut()) else {
            return false;
        };
        match seat.receive(&self.rt, pending) {
            Ok(receipt) => {
                seat.learn(&receipt);
                self.receipt = Some(receipt);
                true
            }
            Err(_) => false,
        }
    }

    fn passes(&mut self, first: u16, last: u16) -> bool {
        for counter in first..=last {
            if !(self.pends(counter) && self.publishes(false) && self.receives()) {
                return false;
            }
        }
        true
    }

    fn learns(&mut self, seat: usize) -> bool {
        match (self.seats.get_mut(seat), &self.receipt) {
            (Some(seat), Some(receipt)) => {
                seat.learn(receipt);
                true
            }
            _ => false,
        }
    }

    /// Whether a seat that polls is handed a plane of so many columns, with their number.
    fn is_whole(&mut self, seat: usize, columns: u16) -> bool {
        let Some(seat) = self.seats.get_mut(seat) else {
            return false;
        };
        match polled(seat) {
            Ok(News::Whole(plane, count)) => {
                count == u64::from(columns) && has_row(&plane, usize::from(columns))
            }
            _ => false,
        }
    }

    fn sees(&mut self, seat: usize, state: u8) -> bool {
        let Some(seat) = self.seats.get_mut(seat) else {
            return false;
        };
        let stamp = FIRST * u64::from(state & 1);
        seat.view(0, 0) == Ok(Write { stamp, state })
    }

    /// Whether a step of a seat that looks is as it is meant to be.
    fn looks(&mut self, step: &Step) -> bool {
        match step {
            Step::Learn(seat) => self.learns(*seat),
            Step::Whole(seat, columns) => self.is_whole(*seat, *columns),
            Step::See(seat, state) => self.sees(*seat, *state),
            Step::Edits(seat, first, count) => match self.seats.get_mut(*seat) {
                Some(seat) => hands_out(seat, *first, *count),
                None => false,
            },
            Step::Read(seat, columns) => match self.seats.get_mut(*seat) {
                Some(seat) => reads(seat, *columns),
                None => false,
            },
            _ => false,
        }
    }

    /// Whether a step is as it is meant to be.
    fn takes(&mut self, step: &Step) -> bool {
        match step {
            Step::Submit(counter) => self.pends(*counter),
            Step::Refuse(drawing, fault) => self.submits(drawing, Some(*fault)),
            Step::Publish => self.publishes(true),
            Step::Idle => self.relay.turn() == Turn::Idle,
            Step::Full => self.turn() == Turn::Failed(TurnFault::StoreFull),
            Step::Receive => self.receives(),
            Step::Pass(first, last) => self.passes(*first, *last),
            Step::Close => {
                self.relay.close();
                true
            }
            step => self.looks(step),
        }
    }

    fn takes_all(&mut self, steps: &[Step]) -> bool {
        for step in steps {
            if !self.takes(step) {
                return false;
            }
        }
        true
    }

    /// How many calls, in order, answer as they are meant to.
    pub fn goes(mut self, way: &Way) -> usize {
        let mut met = 0_usize;
        for (_, steps) in way.calls {
            if !self.takes_all(steps) {
                break;
            }
            met = met.wrapping_add(1);
        }
        self.ends(way, met)
    }

    /// The same once the relay is closed, and finishes: of calls of which so many did.
    pub fn ends(mut self, way: &Way, met: usize) -> usize {
        self.relay.close();
        if self.finishes(&way.end.1) && met == way.calls.len() {
            way.len()
        } else {
            met
        }
    }

    fn finishes(self, meant: &Result<Ended, FinishFault>) -> bool {
        let Table {
            rt: _,
            alloc,
            relay,
            seats,
            pending: _,
            receipt: _,
        } = self;
        match (finished(alloc, relay, seats), meant) {
            (Some(Ok(account)), Ok(meant)) => is_account(&account, meant),
            (Some(Err(fault)), Err(meant)) => fault == *meant,
            _ => false,
        }
    }
}
