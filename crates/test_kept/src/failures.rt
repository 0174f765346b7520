//! Files that could not be cut back, and logs that refuse a call for the state that they are in.

use crate::bodies::{are_first, begin, commit, listed, opened, part, ten};
use crate::crashes::{crashed, failing, live, moment_of};
use kept_devices::{Keep, MemoryKeep, Reopen};
use kept_log::{LogFault, LogState};
use std::test::Fail;

#[test]
fn what_is_in_doubt_is_copied(rt: HostRuntime) -> Result<(), Fail> {
    let alloc = rt.alloc();
    let bodies = ten(alloc)?;
    // the sync of each commit, and the cut behind it
    for call in &[4, 6, 8, 10, 12] {
        let life = live(alloc, failing(alloc, *call, 2)?, &bodies)?;
        assert_eq!(rt; life.fault, Some(LogFault::Doubtful), "call {call}");
        let told = life.told();
        let found = life.keep.killed();
        assert!(rt; found.is_doubtful(), "call {call}");
        let reopened = opened(alloc, found)?;
        let keep = &reopened.log.keep;
        assert!(rt; !keep.is_doubtful(), "call {call}");
        let got = listed(alloc, &reopened.head, &reopened.bodies)?;
        assert!(rt;
            got.len() >= told && are_first(&got, &bodies),
            "call {call}"
        );
        // from now on no crash takes anything of it back
        for seed in 0..50 {
            let left = crashed(alloc, keep.now(), seed)?;
            assert!(rt;
                left.len() == got.len() && are_first(&left, &got),
                "call {call}"
            );
        }
        // and none had left anything else meanwhile
        for moment in 0..keep.past().len() {
            let left = crashed(alloc, moment_of(keep, moment), 7)?;
            assert!(rt;
                left.len() >= told && are_first(&left, &bodies),
                "call {call}"
            );
        }
    }
    Ok(())
}

#[test]
fn a_later_sync_says_nothing(rt: HostRuntime) -> Result<(), Fail> {
    let alloc = rt.alloc();
    let mut calls = Vec::new(alloc);
    calls.push(1)?;
    let mut keep = MemoryKeep::new(alloc, b"ab")?.failing_at(calls);
    assert!(rt; keep.push_all(b"cd").is_ok());
    assert!(rt; keep.sync().is_err());
    assert!(rt; keep.sync().is_ok());
    assert!(rt; keep.now().durable.as_slice() == b"ab".as_slice());
    assert!(rt; keep.now().pending.as_slice() == b"cd".as_slice());
    assert!(rt; keep.cut_back().is_ok() && !keep.is_doubtful());
    assert!(rt; keep.now().durable.as_slice() == b"ab".as_slice() && keep.now().pending.is_empty());
    Ok(())
}

#[test]
fn an_open_log_is_not_begun(rt: HostRuntime) -> Result<(), Fail> {
    let alloc = rt.alloc();
    let bodies = ten(alloc)?;
    let mut log = opened(alloc, MemoryKeep::new(alloc, b"")?)?.log;
    assert_eq!(rt; log.state(), LogState::Empty);
    assert!(rt; begin(alloc, &mut log).is_ok());
    assert!(rt; commit(alloc, &mut log, part(&bodies, 1, 10)).is_ok());
    let calls = log.keep.calls();
    assert_eq!(rt; begin(alloc, &mut log), Err(LogFault::Begun));
    assert_eq!(rt; log.keep.calls(), calls);
    // nor one that is opened with its head
    let mut reopened = opened(alloc, log.keep.killed())?;
    assert_eq!(rt; reopened.log.state(), LogState::Open);
    assert_eq!(rt; begin(alloc, &mut reopened.log), Err(LogFault::Begun));
    let found = opened(alloc, reopened.log.keep.killed())?;
    let got = listed(alloc, &found.head, &found.bodies)?;
    assert!(rt; got.len() == 10 && are_first(&got, &bodies));
    Ok(())
}

#[test]
fn an_empty_log_takes_its_head_first(rt: HostRuntime) -> Result<(), Fail> {
    let alloc = rt.alloc();
    let bodies = ten(alloc)?;
    let mut log = opened(alloc, MemoryKeep::new(alloc, b"")?)?.log;
    let calls = log.keep.calls();
    assert_eq!(rt;
        commit(alloc, &mut log, part(&bodies, 1, 3)),
        Err(LogFault::Unbegun)
    );
    assert_eq!(rt; log.keep.calls(), calls);
    let stands = log.keep.now();
    assert!(rt; stands.durable.is_empty() && stands.pending.is_empty());
    assert!(rt; begin(alloc, &mut log).is_ok());
    assert!(rt; commit(alloc, &mut log, part(&bodies, 1, 3)).is_ok());
    Ok(())
}

#[test]
fn a_log_that_failed_takes_nothing(rt: HostRuntime) -> Result<(), Fail> {
    let alloc = rt.alloc();
    let bodies = ten(alloc)?;
    // its first commit fails, and then no call does
    let mut log = opened(alloc, failing(alloc, 3, 2)?)?.log;
    assert!(rt; begin(alloc, &mut log).is_ok());
    assert_eq!(rt;
        commit(alloc, &mut log, part(&bodies, 1, 3)),
        Err(LogFault::Doubtful)
    );
    let calls = log.keep.calls();
    assert_eq!(rt;
        commit(alloc, &mut log, part(&bodies, 1, 3)),
        Err(LogFault::Stopped)
    );
    assert_eq!(rt;
        commit(alloc, &mut log, part(&bodies, 1, 1)),
        Err(LogFault::Stopped)
    );
    assert_eq!(rt; begin(alloc, &mut log), Err(LogFault::Stopped));
    assert_eq!(rt; log.keep.calls(), calls);
    Ok(())
}
