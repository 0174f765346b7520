//! Seats whose stamps have to rise.

ghost use Rattle.std.specs.Prelude.{◌≡◌};
ghost use Rattle.std.specs.Arc.{arc_value};

use crate::drawn::{BRIANS_BRAIN, STAR_WARS, brians_board, drawn};
use crate::refusals::{Submitted, submit};
use generations_rule::Rule;
use relay_board::{Naming, Opened, Relay, Seat, SubmitFault};
use std::alloc::Global;
use std::marker::Brand;
use std::sync::Wait;
use std::test::Fail;

/// From now on a seat's counters rise from this one on, if it put nothing.
fn keep_above<J: Naming>(seat: &mut Seat<J>, counter: u64) -> Result<(), Fail> {
    if seat.accepted() != 0 {
        return Err(Fail::from("put"));
    }
    seat.keep_above(counter);
    if seat.floor() != Some(counter) {
        return Err(Fail::from("floor"));
    }
    Ok(())
}

/// An edit under a rule with a state of it, and its stamp.
pub type Drawn = (&'static [u8], u8, (u64, u16));

/// What comes of edits that a seat submits.
pub fn submit_all<J: Naming, R: Wait>(
    rt: &R,
    alloc: Global,
    seat: &mut Seat<J>,
    edits: &[Drawn],
) -> Result<Vec<Submitted>, Fail> {
    let mut all = Vec::new(alloc);
    for (rule, state, stamp) in edits {
        let edit = drawn(alloc, &Rule::parse(*rule)?, *stamp, 0, *state).ok_or("edit")?;
        all.push(submit(rt, seat, edit)?)?;
    }
    Ok(all)
}

/// Of another replica, with a state that the rule does not have, equal to the floor, and below it; a good one,
/// the same again, another good one, and a third, for which the inbox has no room.
static OPEN: [Drawn; 8] = [
    (BRIANS_BRAIN, 1, (5, 2)),
    (STAR_WARS, 3, (5, 1)),
    (BRIANS_BRAIN, 1, (5, 1)),
    (BRIANS_BRAIN, 1, (4, 1)),
    (BRIANS_BRAIN, 1, (6, 1)),
    (BRIANS_BRAIN, 1, (6, 1)),
    (BRIANS_BRAIN, 1, (9, 1)),
    (BRIANS_BRAIN, 1, (10, 1)),
];

/// The third again, once there is room.
static AGAIN: [Drawn; 1] = [(BRIANS_BRAIN, 1, (10, 1))];

/// Behind the close an old one, a good one, and one of another replica.
static CLOSED: [Drawn; 3] = [
    (BRIANS_BRAIN, 1, (10, 1)),
    (BRIANS_BRAIN, 1, (11, 1)),
    (BRIANS_BRAIN, 1, (11, 2)),
];

/// What comes of edits of a seat whose counters rise from 5 on.
fn rise<J: Naming, R: Wait + Drop>(
    rt: &R,
    alloc: Global,
    relay: &mut Relay<J, R>,
    seat: &mut Seat<J>,
) -> Result<[Vec<Submitted>; 3], Fail> {
    keep_above(seat, 5)?;
    let open = submit_all(rt, alloc, seat, &OPEN)?;
    let _turn = relay.turn();
    let again = submit_all(rt, alloc, seat, &AGAIN)?;
    relay.close();
    Ok([open, again, submit_all(rt, alloc, seat, &CLOSED)?])
}

fn rises<J: Naming, R: Wait + Drop + Copy>(
    rt: R,
    alloc: Global,
    opened: Opened<R>,
) -> Result<[Vec<Submitted>; 3], Fail>
    requires origin { opened.publisher.origin ≡ J.origin }
    requires inbox { (arc_value opened.drain.queue).table.shared.table_id ≡ J.inbox }
{
    let (mut relay, mut seats) = opened.named::<J>()?;
    let [one] = seats.as_mut_slice() else {
        return Err(Fail::from("one seat"));
    };
    rise(&rt, alloc, &mut relay, one)
}

/// What is told of an old stamp.
const OLD: Submitted = Submitted::Refused(SubmitFault::OldStamp);

#[test]
fn an_old_stamp_is_refused(rt: HostRuntime) -> Result<(), Fail> {
    let opened = brians_board(rt, rt.alloc(), 1, 2)?;
    let [open, again, closed] = rises::<Brand, _>(rt, rt.alloc(), opened)?;
    let expected = [
        Submitted::Refused(SubmitFault::NotYours),
        Submitted::Refused(SubmitFault::StateRange),
        OLD,
        OLD,
        Submitted::Accepted,
        OLD,
        Submitted::Accepted,
        Submitted::Refused(SubmitFault::Full),
    ];
    assert_eq!(rt; open.as_slice(), expected.as_slice());
    assert_eq!(rt; again.as_slice(), [Submitted::Accepted].as_slice());
    let expected = [
        OLD,
        Submitted::Refused(SubmitFault::Closed),
        Submitted::Refused(SubmitFault::NotYours),
    ];
    assert_eq!(rt; closed.as_slice(), expected.as_slice());
    assert_eq!(rt; SubmitFault::OldStamp.number(), 40);
    assert_eq!(rt; SubmitFault::OldStamp.name(), "OldStamp");
    Ok(())
}

/// The first, one with an equal counter, and one with a lower one.
static ANY: [Drawn; 3] = [
    (BRIANS_BRAIN, 1, (3, 1)),
    (BRIANS_BRAIN, 1, (3, 1)),
    (BRIANS_BRAIN, 1, (2, 1)),
];

/// What comes of edits of a seat that has no floor.
fn has_no_floor<J: Naming, R: Wait + Drop + Copy>(
    rt: R,
    alloc: Global,
    opened: Opened<R>,
) -> Result<(Vec<Submitted>, Option<u64>), Fail>
    requires origin { opened.publisher.origin ≡ J.origin }
    requires inbox { (arc_value opened.drain.queue).table.shared.table_id ≡ J.inbox }
{
    let (_relay, mut seats) = opened.named::<J>()?;
    let [one] = seats.as_mut_slice() else {
        return Err(Fail::from("one seat"));
    };
    let taken = submit_all(&rt, alloc, one, &ANY)?;
    Ok((taken, one.floor()))
}

#[test]
fn without_a_floor_any_counter_is_taken(rt: HostRuntime) -> Result<(), Fail> {
    let opened = brians_board(rt, rt.alloc(), 1, 4)?;
    let (taken, floor) = has_no_floor::<Brand, _>(rt, rt.alloc(), opened)?;
    assert_eq!(rt; taken.as_slice(), [Submitted::Accepted; 3].as_slice());
    assert_eq!(rt; floor, None);
    Ok(())
}
