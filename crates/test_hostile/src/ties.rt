//! Two edits of one stamp that write one cell, taken by two replicas in opposite orders.

ghost use Rattle.std.specs.Prelude.{◌≤◌};

use crate::spelling::{DELTA, text_of};
use crate::telling::brians_brain;
use replica_core::Replica;
use std::alloc::Global;
use std::test::Fail;

/// State 1 at the origin, and state 2, each of counter 1 and replica 1.
static EDITS: [&str; 2] = [
    "00000001 0000000000010001 00 00000001 40000000 40000000 01",
    "00000001 0000000000010001 00 00000001 40000000 40000000 02",
];

/// A replica of a number that took both, in this order, and the first of them once more.
fn replica(alloc: Global, number: u16, order: [&str; 2]) -> Result<Replica, Fail>
    requires { 1 ≤ number }
{
    let mut replica = Replica::new(alloc, brians_brain()?, number)?;
    for edit in order {
        replica.take_bytes(&text_of(alloc, DELTA, edit)?)?;
    }
    replica.take_bytes(&text_of(alloc, DELTA, order[0])?)?;
    Ok(replica)
}

#[test]
fn the_greater_state_of_one_stamp_wins(rt: HostRuntime) -> Result<(), Fail> {
    let [one, two] = EDITS;
    let early = replica(rt.alloc(), 2, [one, two])?;
    let late = replica(rt.alloc(), 3, [two, one])?;
    for replica in [&early, &late] {
        let write = replica.get(0, 0);
        assert_eq!(rt; (write.stamp, write.state), (65537, 2));
        assert_eq!(rt; replica.journal().len(), 2);
    }
    assert!(rt; early.state()? == late.state()?);
    Ok(())
}
