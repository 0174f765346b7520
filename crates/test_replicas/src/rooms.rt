//! Replicas whose store has little room: a refused call leaves map, journal and clock.

ghost use Rattle.std.specs.Prelude.{◌≤◌};

use crate::acts::{BRIANS_BRAIN, cell, draw, map_of_first, message_of_one, rule};
use replica_core::{Fault, Replica};
use std::alloc::Global;
use std::test::Fail;

/// The stamp that stands at the origin, and how many edits are noted.
type Left = (u64, usize);

fn left(replica: &Replica) -> Left {
    (replica.get(0, 0).stamp, replica.journal().len())
}

/// A replica with number 2 and so much room.
fn begun_within(alloc: Global, nodes: u32) -> Result<Replica, Fault>
    requires { 1 ≤ nodes }
{
    let rule = rule(BRIANS_BRAIN)?;
    Replica::with_room(alloc, rule, 2, nodes)
}

fn take_one(alloc: Global, replica: &mut Replica) -> Result<(), Fault> {
    let sent = message_of_one(alloc, replica.rule(), 1, 1)?;
    replica.take(&sent)
}

fn draw_one(alloc: Global, replica: &mut Replica) -> Result<u64, Fault> {
    let edit = draw(alloc, replica, &[cell((0, 0, 2))])?;
    Ok(edit.stamp().number())
}

/// What a take of an edit, and a draw of a cell, come to with so much room, and what is left.
fn taken_and_drawn(
    alloc: Global,
    nodes: u32,
) -> Result<(Result<(), Fault>, Result<u64, Fault>, Left), Fault>
    requires { 1 ≤ nodes }
{
    let mut replica = begun_within(alloc, nodes)?;
    let taken = take_one(alloc, &mut replica);
    let drawn = draw_one(alloc, &mut replica);
    Ok((taken, drawn, left(&replica)))
}

const FULL: (Result<(), Fault>, Result<u64, Fault>, Left) = (
    Err(Fault::StoreFull),
    Err(Fault::StoreFull),
    (0, 0),
);

/// How many of the first rooms refuse both, and leave nothing behind.
fn refused_by(alloc: Global, rooms: u32) -> Result<u32, Fault> {
    let mut refused = 0_u32;
    for nodes in 1..rooms {
        if taken_and_drawn(alloc, nodes)? == FULL {
            refused = refused.wrapping_add(1);
        }
    }
    Ok(refused)
}

/// A cell takes 29 squares beside the blank that a plane begins with.
#[test]
fn a_full_store_leaves_all_as_it_was(rt: HostRuntime) {
    let taken = (Ok(()), Err(Fault::StoreFull), (65537, 1));
    assert!(rt; refused_by(rt.alloc(), 30) == Ok(29));
    assert!(rt; taken_and_drawn(rt.alloc(), 30) == Ok(taken));
    assert!(rt; taken_and_drawn(rt.alloc(), 58) == Ok(taken));
    assert!(rt; taken_and_drawn(rt.alloc(), 59) == Ok((Ok(()), Ok(131074), (131074, 2))));
}

fn take_map(alloc: Global, replica: &mut Replica) -> Result<(), Fault> {
    let sent = map_of_first(alloc)?;
    replica.take(&sent)
}

/// What a take of a map comes to with so much room, and what is left.
fn told(alloc: Global, nodes: u32) -> Result<(Result<(), Fault>, Left), Fault>
    requires { 1 ≤ nodes }
{
    let mut replica = begun_within(alloc, nodes)?;
    let taken = take_map(alloc, &mut replica);
    Ok((taken, left(&replica)))
}

#[test]
fn a_map_is_taken_whole_or_not_at_all(rt: HostRuntime) {
    assert!(rt; told(rt.alloc(), 29) == Ok((Err(Fault::StoreFull), (0, 0))));
    assert!(rt; told(rt.alloc(), 30) == Ok((Ok(()), (65537, 0))));
}

/// How many edits are noted after a hundred draws of one cell with so much room.
fn draws_of_one_cell(alloc: Global, nodes: u32) -> Result<usize, Fault>
    requires { 1 ≤ nodes }
{
    let mut replica = begun_within(alloc, nodes)?;
    for _ in 0..100 {
        let _drawn = draw_one(alloc, &mut replica);
    }
    Ok(replica.journal().len())
}

/// The squares of former roots make room before a draw is refused.
#[test]
fn old_squares_make_room(rt: HostRuntime) {
    assert!(rt; draws_of_one_cell(rt.alloc(), 64) == Ok(100));
}

/// A replica that took a map, in a store of so much room.
fn taker(alloc: Global, nodes: u32) -> Result<Replica, Fault>
    requires { 1 ≤ nodes }
{
    let mut replica = begun_within(alloc, nodes)?;
    take_map(alloc, &mut replica)?;
    Ok(replica)
}

/// Whether another replica, if there is one, holds the same.
fn is_same_as(replica: &Replica, other: Result<Replica, Fault>) -> Option<bool> {
    match other {
        Ok(other) => replica.holds_same(&other).ok(),
        Err(_) => None,
    }
}

#[test]
fn same_maps_are_told(rt: HostRuntime) -> Result<(), Fail> {
    let alloc = rt.alloc();
    let replica = taker(alloc, 1000)?;
    assert!(rt; is_same_as(&replica, begun_within(alloc, 2000)) == Some(false));
    assert!(rt; is_same_as(&replica, taker(alloc, 2000)) == Some(true));
    Ok(())
}
