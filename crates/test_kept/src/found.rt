//! Files as they are found.

use crate::bodies::{are_first, back, front, listed, opened, records, ten};
use crate::crashes::{crashed, moment_of};
use kept_devices::{Keep, MemoryKeep};
use kept_log::{FindFault, find, reopen};
use std::alloc::{AllocError, Global};
use std::test::Fail;

/// Ten records and the first 30 bytes of one more; the front half of them is synced.
fn torn(alloc: Global, bodies: &[Vec<u8>]) -> Result<MemoryKeep, AllocError> {
    let text = records(alloc, bodies)?;
    let half = text.len() / 2;
    let mut keep = MemoryKeep::new(alloc, front(&text, half))?;
    if keep.push_all(back(&text, half)).is_err() || keep.push_all(front(&text, 30)).is_err() {
        return Err(AllocError);
    }
    Ok(keep.killed())
}

#[test]
fn the_end_is_cut_off(rt: HostRuntime) -> Result<(), Fail> {
    let alloc = rt.alloc();
    let bodies = ten(alloc)?;
    let text = records(alloc, &bodies)?;
    let reopened = opened(alloc, torn(alloc, &bodies)?)?;
    assert_eq!(rt; reopened.lost, 30);
    let got = listed(alloc, &reopened.head, &reopened.bodies)?;
    assert!(rt; got.len() == 10 && are_first(&got, &bodies));
    let stands = reopened.log.keep.now();
    assert!(rt; stands.durable.as_slice() == text.as_slice() && stands.pending.is_empty());
    Ok(())
}

/// How many of these crashes left anything else than at least five of the ten bodies, which are synced.
fn wrong_of(alloc: Global, keep: &MemoryKeep, bodies: &[Vec<u8>]) -> Result<u64, FindFault> {
    let mut wrong = 0u64;
    for moment in 0..keep.past().len().saturating_add(1) {
        for seed in 0..20 {
            let left = crashed(alloc, moment_of(keep, moment), seed)?;
            if left.len() < 5 || !are_first(&left, bodies) {
                wrong = wrong.saturating_add(1);
            }
        }
    }
    Ok(wrong)
}

#[test]
fn each_call_fails(rt: HostRuntime) -> Result<(), Fail> {
    let alloc = rt.alloc();
    let bodies = ten(alloc)?;
    // a sync, a read and a cut
    for call in 0..3 {
        let mut calls = Vec::new(alloc);
        calls.push(call)?;
        match reopen(alloc, torn(alloc, &bodies)?.failing_at(calls)) {
            Ok(_) => return Err(Fail::new("a call fails")),
            Err((fault, keep)) => {
                assert_eq!(rt; fault, FindFault::Failed, "call {call}");
                assert_eq!(rt; wrong_of(alloc, &keep, &bodies)?, 0, "call {call}");
                let reopened = opened(alloc, keep.killed())?;
                let got = listed(alloc, &reopened.head, &reopened.bodies)?;
                assert!(rt; got.len() == 10 && are_first(&got, &bodies), "call {call}");
            }
        }
    }
    Ok(())
}

#[test]
fn what_is_no_file_of_records_is_not_changed(rt: HostRuntime) -> Result<(), Fail> {
    let alloc = rt.alloc();
    match reopen(alloc, MemoryKeep::new(alloc, b"x = 3, y = 3")?) {
        Ok(_) => return Err(Fail::new("no record is there")),
        Err((fault, keep)) => {
            assert_eq!(rt; fault, FindFault::NoRecord);
            assert!(rt; keep.now().durable.as_slice() == b"x = 3, y = 3".as_slice());
            // its sync and its read
            assert_eq!(rt; keep.calls(), 2);
        }
    }
    let reopened = opened(alloc, MemoryKeep::new(alloc, b"")?)?;
    assert!(rt; reopened.head.is_none() && reopened.bodies.is_empty() && reopened.lost == 0);
    assert_eq!(rt; reopened.log.keep.calls(), 2);
    Ok(())
}

#[test]
fn the_end_can_be_seen_before_it_is_cut_off(rt: HostRuntime) -> Result<(), Fail> {
    let alloc = rt.alloc();
    let bodies = ten(alloc)?;
    let text = records(alloc, &bodies)?;
    let Ok(found) = find(alloc, torn(alloc, &bodies)?) else {
        return Err(Fail::new("it is found"));
    };
    if found.parts.whole > found.bytes.len() {
        return Err(Fail::new("no more is whole than there is"));
    }
    let is_end = found.end() == front(&text, 30);
    let durable = found.keep.now().durable.len();
    drop(found);
    assert!(rt; is_end);
    assert_eq!(rt; durable, text.len().saturating_add(30));
    Ok(())
}
