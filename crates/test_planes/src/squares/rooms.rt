//! Stores with little room: what is refused, and what is not.

use crate::squares::steps::{four, single};
use samples::Single;
use square_store::{Limits, Part, Store, StoreFault};
use std::alloc::{AllocError, Global};

/// 0, or the fault's number.
fn code(outcome: Result<Part, StoreFault>) -> u8 {
    match outcome {
        Ok(_) => 0,
        Err(fault) => fault.number(),
    }
}

/// A square of two blanks and two leaves.
fn add_two_and_two(store: &mut Store<Single>) -> Result<Part, StoreFault> {
    let blank = store.add_blank(0)?;
    let leaf = store.add_leaf(single(65537, 1))?;
    four(store, 1, [blank, leaf, leaf, blank])
}

/// Four leaves that are blanks, in a square of level 30.
fn add_dead(store: &mut Store<Single>) -> Result<Part, StoreFault> {
    let blank = store.add_leaf(single(0, 0))?;
    four(store, 30, [blank, blank, blank, blank])
}

/// What adding a blank, a leaf, a square of both and a dead square answers; and how many squares
/// there are then.
fn answers(alloc: Global, room: u32) -> ([u8; 4], u32) {
    let mut store = Store::new(alloc, Limits::of_room(room));
    let blank = code(store.add_blank(0));
    let leaf = code(store.add_leaf(single(65537, 1)));
    let square = code(add_two_and_two(&mut store));
    let dead = code(add_dead(&mut store));
    ([blank, leaf, square, dead], store.len())
}

#[test]
fn refuses_only_what_is_not_there(rt: HostRuntime) {
    let alloc = rt.alloc();
    assert_eq!(rt; answers(alloc, 0), ([13, 13, 13, 13], 0));
    assert_eq!(rt; answers(alloc, 1), ([0, 13, 13, 0], 1));
    assert_eq!(rt; answers(alloc, 2), ([0, 0, 13, 0], 2));
    assert_eq!(rt; answers(alloc, 3), ([0, 0, 0, 0], 3));
}

#[test]
fn names_its_faults(rt: HostRuntime) -> Result<(), AllocError> {
    let alloc = rt.alloc();
    let text = format!(in alloc; "{} {}", StoreFault::StoreFull, StoreFault::Memory)?;
    assert_eq!(rt; text.as_str(), "StoreFull Memory");
    Ok(())
}
