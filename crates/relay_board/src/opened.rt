//! The start, in two steps: a board and an inbox without a name, and then the relay and the seats under a
//! name. A name of what is only made now cannot be a parameter of the call that makes it.

ghost use Rattle.std.specs.Prelude.{◌≡◌, ◌≢◌, ◌≤◌, ◌+◌, [], true, false, length, replicate, IfOk, IfErr};
ghost use Rattle.std.specs.Arc.{arc_value};
ghost use Rattle.crossbeam_queue.specs.Passes.{view, ruled_capacity};
ghost use Rattle.square_store.specs.Limits.{usual_room};
ghost use Rattle.stamped_writes.specs.Write.{unwritten, AreSame};
ghost use Rattle.stamped_tree.specs.Plane.{map_of};
ghost use Rattle.board.specs.Sights.{label_of};
ghost use Rattle.relay_board.specs.Seating.{AllFresh};
ghost use Rattle.circular_buffer.specs.Buffer.{buffer};
ghost use Rattle.relay_board.specs.Starting.{fits, seats_of, Starts};
ghost use Rattle.relay_board.specs.Turns.{most_ready};

use crate::door::Door;
use crate::fault::StartFault;
use crate::naming::Naming;
use crate::new_seats::{SeatPlan, seats};
use crate::relay::{MOST_READY, Relay};
use crate::seat::Seat;
use board::Publisher;
use circular_buffer::HeapCircularBuffer;
use generations_rule::Rule;
use held_plane::HeldPlane;
use inbox::{Drain, Submission};
use square_store::Limits;
use std::alloc::{AllocError, Global};
use std::marker::PhantomData;
use std::sync::{Arc, Wait};

/// The most sessions of a board.
pub const MOST_SESSIONS: u16 = 64;

/// The most submissions that an inbox has room for.
pub const MOST_INBOX: u16 = 1024;

/// How many numbers a stamp has for replicas, with 0, which is none.
const NUMBERS: u32 = 1 << 16;

/// What a board is opened for.
#[derive(Clone, Copy)]
pub struct BoardSize {
    /// The number of its first seat, from 1 on; that of the last session's is at most 65,535.
    pub first: u16,
    /// How many seats it has for sessions, 1 to 64.
    pub sessions: u16,
    /// For how many submissions the inbox has room, 1 to 1,024.
    pub inbox: u16,
    /// Whether the board is kept in a file, which has a seat of its own, the last.
    pub is_kept: bool,
    /// The room of the relay's own plane, and the key of all its planes.
    pub limits: Limits,
}

/// A board and an inbox, with no seat yet, and no name. Its drop ends the board.
pub struct Opened<R: Wait + Drop> {
    pub publisher: Publisher,
    pub drain: Drain,
    pub tried: HeldPlane,
    door: Arc<Door, Global>,
    alloc: Global,
    pub rule: Rule,
    pub first: u16,
    pub count: u16,
    rt: R,
    pub ghost board: { (publisher.list ≡ []) × (publisher.announced ≡ []) },
    pub ghost inbox: { ((view drain.pass).made ≡ 0) × ((view drain.pass).out ≡ []) × ((view drain.pass).known ≡ []) × (drain.empties ≡ 0) },
    pub ghost same: { (view drain.pass).label ≡ label_of publisher.origin },
    pub ghost ruled: { rule.states ≡ publisher.origin.states },
    pub ghost few: { count ≤ 65 },
    pub ghost untried: { AreSame (map_of tried) (λ _. unwritten) },
}

impl<R: Wait + Drop> Drop for Opened<R> {
    fn drop(self) {
        let Self {
            publisher,
            drain: _,
            tried: _,
            door: _,
            alloc: _,
            rule: _,
            first: _,
            count: _,
            rt,
        } = self;
        publisher.end(&rt);
    }
}

/// Whether so many sessions, with numbers from the first on, and so much room may be.
fn fits(first: u16, sessions: u16, inbox: u16) -> bool
    ensures { result ≡ fits first sessions inbox }
{
    1 <= first
        && u32::from(first) + u32::from(sessions) <= NUMBERS
        && 1 <= sessions
        && sessions <= MOST_SESSIONS
        && 1 <= inbox
        && inbox <= MOST_INBOX
}

/// How many seats there are, with the file's.
fn seats_of(sessions: u16, is_kept: bool) -> u16
    requires { sessions ≤ 64 }
    ensures value { result ≡ seats_of sessions is_kept }
    ensures within { (sessions ≤ result) × (result ≤ sessions + 1) }
    ensures few { result ≤ 65 }
{
    if is_kept { sessions + 1 } else { sessions }
}

/// A board for so many sessions, 1 to 64, with numbers from 1 on, under a rule, with an inbox for so many submissions, 1 to 1,024,
/// and room for 2^26 squares in the relay's own plane.
pub fn start<R: Wait + Drop>(
    rt: R,
    alloc: Global,
    rule: Rule,
    sessions: u16,
    inbox: u16,
) -> Result<Opened<R>, StartFault>
    ensures ok { IfOk result (λ o. (fits 1 sessions inbox ≡ true) × (o.count ≡ sessions) × (o.rule ≡ rule) × (o.tried.store.room ≡ usual_room) × (ruled_capacity (arc_value o.drain.queue) ≡ inbox)) }
    ensures first { IfOk result (λ o. o.first ≡ 1) }
    ensures err { IfErr result (λ f. Starts f (fits 1 sessions inbox)) }
{
    let size = BoardSize {
        first: 1,
        sessions,
        inbox,
        is_kept: false,
        limits: Limits::usual(),
    };
    start_within(rt, alloc, rule, size)
}

/// The same of another size: with numbers from any first one on, with room for so many squares in the relay's own plane, with planes that find
/// their squares by a key's hashes, and with one seat more where the board is kept in a file.
pub fn start_within<R: Wait + Drop>(
    rt: R,
    alloc: Global,
    rule: Rule,
    size: BoardSize,
) -> Result<Opened<R>, StartFault>
    requires { 1 ≤ size.limits.room }
    ensures ok { IfOk result (λ o. (fits size.first size.sessions size.inbox ≡ true) × (o.count ≡ seats_of size.sessions size.is_kept) × (o.rule ≡ rule) × (o.tried.store.room ≡ size.limits.room) × (ruled_capacity (arc_value o.drain.queue) ≡ size.inbox)) }
    ensures first { IfOk result (λ o. o.first ≡ size.first) }
    ensures err { IfErr result (λ f. Starts f (fits size.first size.sessions size.inbox)) }
{
    let BoardSize {
        first,
        sessions,
        inbox,
        is_kept,
        limits,
    } = size;
    if !fits(first, sessions, inbox) {
        return Err(StartFault::Size);
    }
    let count = seats_of(sessions, is_kept);
    let door = Arc::new(alloc, Door::new())?;
    let tried = HeldPlane::new(alloc, limits)?;
    let seats = usize::from(count);
    let publisher = Publisher::new(&rt, alloc, rule.states(), seats, limits.key)?;
    let Ok(drain) = Drain::new(alloc, usize::from(inbox), &publisher.front()) else {
        publisher.end(&rt);
        return Err(StartFault::Memory);
    };
    Ok(Opened {
        publisher,
        drain,
        tried,
        door,
        alloc,
        rule,
        first,
        count,
        rt,
    })
}

/// The room of a relay: a count for each seat, and what is kept, which is nothing yet.
fn rooms(
    alloc: Global,
    count: u16,
) -> Result<(Vec<u64>, HeapCircularBuffer<Submission>), AllocError>
    ensures counts { IfOk result (λ r. r.0.items ≡ replicate count 0) }
    ensures kept { IfOk result (λ r. r.1 ≡ buffer [] most_ready) }
{
    let counts = vec![in alloc; 0u64; usize::from(count)]?;
    let kept = HeapCircularBuffer::with_capacity(alloc, MOST_READY)?;
    Ok((counts, kept))
}

impl<R: Wait + Drop> Opened<R> {
    /// The relay, and as many seats as were asked for, in the order of their numbers, which follow one another
    /// from the first on, and then the file's, where the board is kept in one. `NoPlace` where `left_right` gave no reader's place, which may be
    /// want of memory too.
    pub fn named<J: Naming>(self) -> Result<(Relay<J, R>, Vec<Seat<J>>), StartFault>
        requires origin { self.publisher.origin ≡ J.origin }
        requires inbox { (arc_value self.drain.queue).table.shared.table_id ≡ J.inbox }
        ensures relay { IfOk result (λ r. (r.0.list ≡ []) × (r.0.out ≡ []) × (r.0.kept ≡ []) × (r.0.made ≡ self.count) × (r.0.closed ≡ false) × (r.0.empties ≡ 0) × (r.0.room ≡ self.tried.store.room)) }
        ensures ready { IfOk result (λ r. r.0.ready ≡ 0) }
        ensures states { IfOk result (λ r. r.0.origin.states ≡ self.rule.states) }
        ensures seats { IfOk result (λ r. AllFresh self.first self.rule (ruled_capacity (arc_value self.drain.queue)) 0 r.1.items × (length r.1.items ≡ self.count)) }
        ensures err { IfErr result (λ f. f ≢ StartFault.Size) }
    {
        let Self {
            mut publisher,
            mut drain,
            tried,
            door,
            alloc,
            rule,
            first,
            count,
            rt,
        } = self;
        let (counts, kept) = match rooms(alloc, count) {
            Ok(rooms) => rooms,
            Err(_) => {
                publisher.end(&rt);
                return Err(StartFault::Memory);
            }
        };
        let plan = SeatPlan { alloc, rule, first };
        let all = match seats::<J>(&plan, &mut publisher, &mut drain, &door, count) {
            Ok(all) => all,
            Err(fault) => {
                publisher.end(&rt);
                return Err(fault);
            }
        };
        let relay = Relay {
            publisher,
            drain,
            kept,
            ready: 0,
            told: false,
            answered: None,
            tried,
            counts,
            door,
            closed: false,
            rt,
            of: PhantomData,
        };
        Ok((relay, all))
    }
}
