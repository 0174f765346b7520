//! A relay that rests, and seats that look for receipts.

ghost use Rattle.std.specs.Prelude.{◌≡◌};
ghost use Rattle.std.specs.Arc.{arc_value};

use crate::drawn::{brians_board, submitted};
use relay_board::{Naming, Opened, Relay, Seat, Turn};
use std::alloc::Global;
use std::marker::Brand;
use std::sync::Wait;
use std::test::Fail;
use std::time::Duration;

/// An hour, in milliseconds. A rest that is not ended at once outlasts the test.
const HOUR: u64 = 3_600_000;

/// Rests behind a submission, a ring of a bell, a ring of a seat and a close, each of which ends one.
fn rests_all<J: Naming, R: Wait + Drop>(
    rt: &R,
    alloc: Global,
    relay: &mut Relay<J, R>,
    seats: &mut [Seat<J>],
) -> Result<Turn, Fail> {
    let [one] = seats else {
        return Err(Fail::from("one seat"));
    };
    let _pending = submitted(rt, alloc, one, 1, 0)?;
    relay.rest(Duration::from_millis(HOUR));
    relay.bell()?.ring();
    relay.rest(Duration::from_millis(HOUR));
    one.ring();
    relay.rest(Duration::from_millis(HOUR));
    relay.close();
    relay.rest(Duration::from_millis(HOUR));
    relay.rest(Duration::from_millis(1));
    Ok(relay.turn())
}

fn rests<J: Naming, R: Wait + Drop + Copy>(
    rt: R,
    alloc: Global,
    opened: Opened<R>,
) -> Result<Turn, Fail>
    requires origin { opened.publisher.origin ≡ J.origin }
    requires inbox { (arc_value opened.drain.queue).table.shared.table_id ≡ J.inbox }
{
    let (mut relay, mut seats) = opened.named::<J>()?;
    rests_all(&rt, alloc, &mut relay, &mut seats)
}

#[test]
fn a_rest_ends_at_once(rt: HostRuntime) -> Result<(), Fail> {
    let opened = brians_board(rt, rt.alloc(), 1, 2)?;
    let turn = rests::<Brand, _>(rt, rt.alloc(), opened)?;
    assert!(rt; matches!(&turn, Turn::Published(_)));
    Ok(())
}

/// The place of the receipt that a look finds behind the turn, where one before it finds nothing.
fn looks_twice<J: Naming, R: Wait + Drop>(
    rt: &R,
    alloc: Global,
    relay: &mut Relay<J, R>,
    seats: &mut [Seat<J>],
) -> Result<u64, Fail> {
    let [one] = seats else {
        return Err(Fail::from("one seat"));
    };
    let pending = submitted(rt, alloc, one, 1, 0)?;
    let pending = match one.try_receive(rt, pending) {
        Err(Some(pending)) => pending,
        Err(None) => return Err(Fail::from("gone")),
        Ok(_) => return Err(Fail::from("too early")),
    };
    let _turn = relay.turn();
    match one.try_receive(rt, pending) {
        Ok(receipt) => Ok(receipt.place()),
        Err(_) => Err(Fail::from("receipt")),
    }
}

fn looks<J: Naming, R: Wait + Drop + Copy>(
    rt: R,
    alloc: Global,
    opened: Opened<R>,
) -> Result<u64, Fail>
    requires origin { opened.publisher.origin ≡ J.origin }
    requires inbox { (arc_value opened.drain.queue).table.shared.table_id ≡ J.inbox }
{
    let (mut relay, mut seats) = opened.named::<J>()?;
    looks_twice(&rt, alloc, &mut relay, &mut seats)
}

#[test]
fn a_look_finds_the_receipt_behind_the_turn(rt: HostRuntime) -> Result<(), Fail> {
    let opened = brians_board(rt, rt.alloc(), 1, 2)?;
    assert_eq!(rt; looks::<Brand, _>(rt, rt.alloc(), opened)?, 0);
    Ok(())
}
