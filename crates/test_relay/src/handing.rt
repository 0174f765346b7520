//! What seats are handed of 1,025 edits.

ghost use Rattle.std.specs.Prelude.{◌≡◌};
ghost use Rattle.std.specs.Arc.{arc_value};

use crate::drawn::{brians_board, submitted};
use crate::ending::{Summary, account, summed};
use crate::told::{Told, tell};
use relay_board::{Naming, Opened, Receipt, Relay, Seat, Turn};
use std::alloc::Global;
use std::marker::Brand;
use std::sync::Wait;
use std::test::Fail;

/// A seat's edit with this counter, at a cell of its own, submitted, published and received.
fn passes<J: Naming, R: Wait + Drop>(
    rt: &R,
    alloc: Global,
    relay: &mut Relay<J, R>,
    seat: &mut Seat<J>,
    counter: u16,
) -> Result<Receipt<J>, Fail> {
    let pending = submitted(rt, alloc, seat, u64::from(counter), i32::from(counter))?;
    match relay.turn() {
        Turn::Published(_) => Ok(seat.receive(rt, pending)?),
        _ => Err(Fail::from("turn")),
    }
}

/// The same of all counters from one to another, the last of which is received at the end.
fn passes_all<J: Naming, R: Wait + Drop>(
    rt: &R,
    alloc: Global,
    relay: &mut Relay<J, R>,
    seat: &mut Seat<J>,
    (from, last): (u16, u16),
) -> Result<Receipt<J>, Fail> {
    for counter in from..last {
        let _receipt = passes(rt, alloc, relay, seat, counter)?;
    }
    passes(rt, alloc, relay, seat, last)
}

/// What a seat that learns of the first edit and of the last is handed, and one that learns of the last
/// alone.
fn polls<J: Naming, R: Wait + Drop>(
    rt: &R,
    alloc: Global,
    relay: &mut Relay<J, R>,
    seats: &mut [Seat<J>],
) -> Result<[Told; 5], Fail> {
    let (one, others) = seats.split_first_mut().ok_or("one")?;
    let (two, others) = others.split_first_mut().ok_or("two")?;
    let three = others.first_mut().ok_or("three")?;
    two.learn(&passes(rt, alloc, relay, one, 1)?);
    let first = tell(&two.poll());
    let last = passes_all(rt, alloc, relay, one, (2, 1025))?;
    two.learn(&last);
    three.learn(&last);
    Ok([
        first,
        tell(&two.poll()),
        tell(&three.poll()),
        tell(&two.poll()),
        tell(&three.poll()),
    ])
}

/// The same, and what the relay comes to.
fn hands<J: Naming, R: Wait + Drop + Copy>(
    rt: R,
    alloc: Global,
    opened: Opened<R>,
) -> Result<([Told; 5], Option<Summary>), Fail>
    requires origin { opened.publisher.origin ≡ J.origin }
    requires inbox { (arc_value opened.drain.queue).table.shared.table_id ≡ J.inbox }
{
    let (mut relay, mut seats) = opened.named::<J>()?;
    let polls = polls(&rt, alloc, &mut relay, &mut seats)?;
    relay.close();
    Ok((polls, summed(&account(alloc, relay, seats)?)))
}

#[test]
fn of_1025_edits_all_or_a_plane(rt: HostRuntime) -> Result<(), Fail> {
    let opened = brians_board(rt, rt.alloc(), 3, 2)?;
    let (polls, summary) = hands::<Brand, _>(rt, rt.alloc(), opened)?;
    assert_eq!(rt;
        polls,
        [
            Told::Edits(1, 1),
            Told::Edits(2, 1024),
            Told::Whole(1025, 1025),
            Told::Edits(0, 0),
            Told::Edits(0, 0),
        ]
    );
    let all = Summary {
        before: 1,
        published: Told::Edits(2, 1024),
        cells: 1025,
        front: 1025,
        seats: 3,
        accepted: (1025, 0),
    };
    assert_eq!(rt; summary, Some(all));
    Ok(())
}
