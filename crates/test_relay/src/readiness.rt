//! A relay in two steps: entries become ready, and are shown.

ghost use Rattle.std.specs.Prelude.{◌≡◌};
ghost use Rattle.std.specs.Arc.{arc_value};

use crate::drawn::{BRIANS_BRAIN, brians_board, submitted};
use edit_stamps::{Cell, Edit, Stamp};
use generations_rule::Rule;
use relay_board::{
    BoardSize, MOST_READY, Naming, Opened, Pending, Readiness, Relay, Seat, TurnFault, start_within,
};
use square_store::Limits;
use std::alloc::Global;
use std::marker::Brand;
use std::sync::Wait;
use std::test::Fail;

/// Shows the first entry that is ready, and gives its counter; `None` where none is.
pub fn show<J: Naming, R: Wait + Drop>(relay: &mut Relay<J, R>) -> Result<Option<u64>, Fail> {
    if relay.count_ready() == 0 {
        return Ok(None);
    }
    let stamp = relay.show()?;
    Ok(Some(stamp.counter()))
}

/// The counter of the entry at a place among those that are ready.
fn counter_at<J: Naming, R: Wait + Drop>(relay: &Relay<J, R>, at: usize) -> Option<u64> {
    match relay.ready_at(at) {
        None => None,
        Some(entry) => Some(entry.edit.stamp().counter()),
    }
}

/// How many entries become ready at once, up to 100, and what comes of the next call.
fn fill<J: Naming, R: Wait + Drop>(relay: &mut Relay<J, R>) -> (usize, Readiness) {
    for count in 0..100 {
        let came = relay.ready();
        if !matches!(came, Readiness::Ready) {
            return (count, came);
        }
    }
    (100, Readiness::Ready)
}

/// What came of 66 edits.
#[derive(Clone, Copy, Debug, PartialEq, Eq)]
struct Filling {
    /// How many became ready, and what came of the next call: at once, once one was shown, and once four more were.
    ready: [(usize, Readiness); 3],
    /// How many were ready each time.
    counts: [usize; 3],
    /// The counters of the first, the 64th and the 65th that are ready: at once, and in the end.
    stand: [[Option<u64>; 3]; 2],
    /// The counters of what was shown.
    shown: [Option<u64>; 5],
}

fn stand<J: Naming, R: Wait + Drop>(relay: &Relay<J, R>) -> [Option<u64>; 3] {
    [
        counter_at(relay, 0),
        counter_at(relay, 63),
        counter_at(relay, 64),
    ]
}

fn fills<J: Naming, R: Wait + Drop>(relay: &mut Relay<J, R>) -> Result<Filling, Fail> {
    let first = (fill(relay), relay.count_ready());
    let before = stand(relay);
    let one = show(relay)?;
    let second = (fill(relay), relay.count_ready());
    let four = [show(relay)?, show(relay)?, show(relay)?, show(relay)?];
    let third = (fill(relay), relay.count_ready());
    Ok(Filling {
        ready: [first.0, second.0, third.0],
        counts: [first.1, second.1, third.1],
        stand: [before, stand(relay)],
        shown: [one, four[0], four[1], four[2], four[3]],
    })
}

/// A seat submits 66 edits, with the counters 1 to 66.
fn filled<J: Naming, R: Wait + Drop + Copy>(
    rt: R,
    alloc: Global,
    opened: Opened<R>,
) -> Result<Filling, Fail>
    requires origin { opened.publisher.origin ≡ J.origin }
    requires inbox { (arc_value opened.drain.queue).table.shared.table_id ≡ J.inbox }
{
    let (mut relay, mut seats) = opened.named::<J>()?;
    let [one] = seats.as_mut_slice() else {
        return Err(Fail::from("one seat"));
    };
    for counter in 1..67 {
        let _pending = submitted(&rt, alloc, one, counter, 0)?;
    }
    fills(&mut relay)
}

#[test]
fn sixty_four_are_ready_and_the_next_waits(rt: HostRuntime) -> Result<(), Fail> {
    assert_eq!(rt; MOST_READY, 64);
    let opened = brians_board(rt, rt.alloc(), 1, 128)?;
    let filled = filled::<Brand, _>(rt, rt.alloc(), opened)?;
    let expected = Filling {
        ready: [
            (64, Readiness::Full),
            (1, Readiness::Full),
            (1, Readiness::Idle),
        ],
        counts: [64, 64, 61],
        stand: [[Some(1), Some(64), None], [Some(6), None, None]],
        shown: [Some(1), Some(2), Some(3), Some(4), Some(5)],
    };
    assert_eq!(rt; filled, expected);
    Ok(())
}

/// Whether a receipt is there, and its place in its list, and otherwise the pending again.
type Looked<J> = Result<u64, Pending<J>>;

fn looked<J: Naming, R: Wait>(
    rt: &R,
    seat: &mut Seat<J>,
    pending: Pending<J>,
) -> Result<Looked<J>, Fail> {
    match seat.try_receive(rt, pending) {
        Ok(receipt) => Ok(Ok(receipt.place())),
        Err(Some(pending)) => Ok(Err(pending)),
        Err(None) => Err(Fail::from("gone")),
    }
}

/// Looks for a receipt that is not there yet.
fn waits<J: Naming, R: Wait>(
    rt: &R,
    seat: &mut Seat<J>,
    pending: Pending<J>,
) -> Result<Pending<J>, Fail> {
    match looked(rt, seat, pending)? {
        Ok(_) => Err(Fail::from("early")),
        Err(pending) => Ok(pending),
    }
}

/// Looks for a receipt that is there.
fn comes<J: Naming, R: Wait>(rt: &R, seat: &mut Seat<J>, pending: Pending<J>) -> Result<u64, Fail> {
    match looked(rt, seat, pending)? {
        Ok(place) => Ok(place),
        Err(_) => Err(Fail::from("late")),
    }
}

/// Two seats' edits become ready, and then are shown: the counters in the order in which they were shown, and
/// the places of the receipts, each of which comes behind its own show and no sooner.
fn in_steps<J: Naming, R: Wait + Drop>(
    rt: &R,
    alloc: Global,
    relay: &mut Relay<J, R>,
    seats: &mut [Seat<J>],
) -> Result<([Option<u64>; 3], [u64; 2]), Fail> {
    let (one, others) = seats.split_first_mut().ok_or("one")?;
    let two = others.first_mut().ok_or("two")?;
    let first = submitted(rt, alloc, one, 7, 0)?;
    let second = submitted(rt, alloc, two, 5, 1)?;
    let ready = fill(relay);
    if ready != (2, Readiness::Idle) {
        return Err(Fail::from("ready"));
    }
    let first = waits(rt, one, first)?;
    let second = waits(rt, two, second)?;
    let seven = show(relay)?;
    let place = comes(rt, one, first)?;
    let second = waits(rt, two, second)?;
    let five = show(relay)?;
    let places = [place, comes(rt, two, second)?];
    Ok(([seven, five, show(relay)?], places))
}

fn is_in_steps<J: Naming, R: Wait + Drop + Copy>(
    rt: R,
    alloc: Global,
    opened: Opened<R>,
) -> Result<([Option<u64>; 3], [u64; 2]), Fail>
    requires origin { opened.publisher.origin ≡ J.origin }
    requires inbox { (arc_value opened.drain.queue).table.shared.table_id ≡ J.inbox }
{
    let (mut relay, mut seats) = opened.named::<J>()?;
    in_steps(&rt, alloc, &mut relay, &mut seats)
}

#[test]
fn a_receipt_comes_behind_its_show(rt: HostRuntime) -> Result<(), Fail> {
    let opened = brians_board(rt, rt.alloc(), 2, 4)?;
    let steps = is_in_steps::<Brand, _>(rt, rt.alloc(), opened)?;
    assert_eq!(rt; steps, ([Some(7), Some(5), None], [0, 1]));
    Ok(())
}

/// Submits a seat's edit with this counter, which writes four cells far from one another.
fn submitted_wide<J: Naming, R: Wait>(
    rt: &R,
    alloc: Global,
    seat: &mut Seat<J>,
    counter: u64,
) -> Result<Pending<J>, Fail> {
    let stamp = Stamp::new(counter, seat.number()).ok_or("stamp")?;
    let cells = [
        (-1_000_000, -1_000_000),
        (1_000_000, -1_000_000),
        (-1_000_000, 1_000_000),
        (1_000_000, 1_000_000),
    ]
    .map(|(x, y)| Cell { x, y, state: 1 });
    let edit = Edit::cells(alloc, &seat.rule(), stamp, &cells)?;
    Ok(seat.submit(rt, edit)?)
}

/// What came of three edits at one place, and of a fourth for which the relay's plane has no room.
#[derive(Clone, Copy, Debug, PartialEq, Eq)]
struct Packing {
    /// How many became ready, and what came of the next call: before three were shown, and behind that.
    ready: [(usize, Readiness); 2],
    shown: [Option<u64>; 4],
}

fn packs<J: Naming, R: Wait + Drop>(relay: &mut Relay<J, R>) -> Result<Packing, Fail> {
    let first = fill(relay);
    let shown = [show(relay)?, show(relay)?, show(relay)?, show(relay)?];
    Ok(Packing {
        ready: [first, fill(relay)],
        shown,
    })
}

fn packed<J: Naming, R: Wait + Drop + Copy>(
    rt: R,
    alloc: Global,
    opened: Opened<R>,
) -> Result<Packing, Fail>
    requires origin { opened.publisher.origin ≡ J.origin }
    requires inbox { (arc_value opened.drain.queue).table.shared.table_id ≡ J.inbox }
{
    let (mut relay, mut seats) = opened.named::<J>()?;
    let [one] = seats.as_mut_slice() else {
        return Err(Fail::from("one seat"));
    };
    for counter in 1..4 {
        let _pending = submitted(&rt, alloc, one, counter, 0)?;
    }
    let _pending = submitted_wide(&rt, alloc, one, 4)?;
    packs(&mut relay)
}

#[test]
fn what_is_ready_is_shown_before_a_full_store(rt: HostRuntime) -> Result<(), Fail> {
    let size = BoardSize {
        first: 1,
        sessions: 1,
        inbox: 8,
        is_kept: false,
        limits: Limits::of_room(64),
    };
    let opened = start_within(rt, rt.alloc(), Rule::parse(BRIANS_BRAIN)?, size)?;
    let full = Readiness::Failed(TurnFault::StoreFull);
    let expected = Packing {
        ready: [(3, full), (0, full)],
        shown: [Some(1), Some(2), Some(3), None],
    };
    assert_eq!(rt; packed::<Brand, _>(rt, rt.alloc(), opened)?, expected);
    Ok(())
}
