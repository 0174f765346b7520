//! A relay whose own plane has room for 29 squares.

ghost use Rattle.std.specs.Prelude.{◌≡◌};
ghost use Rattle.std.specs.Arc.{arc_value};

use crate::drawn::{BRIANS_BRAIN, drawn};
use crate::refusals::{Submitted, submit};
use crate::told::{View, viewed};
use generations_rule::Rule;
use relay_board::{
    BoardSize, FinishFault, Naming, Opened, Relay, Seat, SubmitFault, Turn, TurnFault, is_whole,
    start_within,
};
use square_store::Limits;
use std::alloc::Global;
use std::marker::Brand;
use std::sync::Wait;
use std::test::Fail;

/// What came of a good submission.
#[derive(Clone, Copy, Debug, PartialEq, Eq)]
struct Kept {
    submitted: [Submitted; 2],
    turns: [Turn; 2],
    view: View,
    faults: [FinishFault; 2],
}

/// Why a closed relay does not finish, once and once more.
fn faults<J: Naming, R: Wait + Drop>(
    alloc: Global,
    relay: Relay<J, R>,
    seats: Vec<Seat<J>>,
) -> Result<[FinishFault; 2], Fail> {
    let (relay, seats, first) = fault(alloc, relay, seats)?;
    let (_, _, second) = fault(alloc, relay, seats)?;
    Ok([first, second])
}

/// Why a closed relay does not finish, and what came back.
fn fault<J: Naming, R: Wait + Drop>(
    alloc: Global,
    relay: Relay<J, R>,
    seats: Vec<Seat<J>>,
) -> Result<(Relay<J, R>, Vec<Seat<J>>, FinishFault), Fail> {
    if !is_whole(&relay, seats.as_slice()) {
        return Err(Fail::from("whole"));
    }
    match relay.finish(alloc, seats) {
        Ok(_) => Err(Fail::from("finished")),
        Err(back) => Ok(back),
    }
}

/// What comes of the seat's edit with this counter, at the origin.
fn submit_dot<J: Naming, R: Wait>(
    rt: &R,
    alloc: Global,
    seat: &mut Seat<J>,
    counter: u64,
) -> Result<Submitted, Fail> {
    let edit = drawn(alloc, &seat.rule(), (counter, 1), 0, 1).ok_or("edit")?;
    submit(rt, seat, edit)
}

/// A good edit, two turns, and an edit behind the close.
fn keeps<J: Naming, R: Wait + Drop + Copy>(
    rt: R,
    alloc: Global,
    opened: Opened<R>,
) -> Result<Kept, Fail>
    requires origin { opened.publisher.origin ≡ J.origin }
    requires inbox { (arc_value opened.drain.queue).table.shared.table_id ≡ J.inbox }
{
    let (mut relay, mut seats) = opened.named::<J>()?;
    let [one] = seats.as_mut_slice() else {
        return Err(Fail::from("one seat"));
    };
    let good = submit_dot(&rt, alloc, one, 1)?;
    let turns = [relay.turn(), relay.turn()];
    let view = viewed(one.view(0, 0));
    relay.close();
    let late = submit_dot(&rt, alloc, one, 2)?;
    Ok(Kept {
        submitted: [good, late],
        turns,
        view,
        faults: faults(alloc, relay, seats)?,
    })
}

#[test]
fn a_full_store_keeps_what_was_submitted(rt: HostRuntime) -> Result<(), Fail> {
    let size = BoardSize {
        first: 1,
        sessions: 1,
        inbox: 2,
        is_kept: false,
        limits: Limits::of_room(29),
    };
    let opened = start_within(rt, rt.alloc(), Rule::parse(BRIANS_BRAIN)?, size)?;
    let full = Turn::Failed(TurnFault::StoreFull);
    let kept = Kept {
        submitted: [Submitted::Accepted, Submitted::Refused(SubmitFault::Closed)],
        turns: [full, full],
        view: Ok((0, 0)),
        faults: [FinishFault::StoreFull, FinishFault::StoreFull],
    };
    assert_eq!(rt; keeps::<Brand, _>(rt, rt.alloc(), opened)?, kept);
    Ok(())
}
