//! All bytes of a source.

use crate::failing::FaultyReader;
use devices::{ReadSource, Source};
use genedit_io::{RunFault, pull_all};
use std::alloc::Global;
use std::io::ErrorKind;

/// How many of 20,000 bytes are pulled in so many turns at most, and how often the source was pulled
/// and met its end.
fn pulled(alloc: Global, turns: u64) -> (Result<usize, RunFault>, u64, u64) {
    let text = [7; 20000];
    let mut source = ReadSource::new(text.as_slice());
    let all = pull_all(alloc, &mut source, turns).map(|all| {
        if all.as_slice() == text.as_slice() {
            all.len()
        } else {
            0
        }
    });
    (all, source.pulls(), source.ends_met())
}

/// Three pieces, and a fourth pull that gives nothing.
#[test]
fn all_bytes_are_pulled(rt: HostRuntime) {
    let alloc = rt.alloc();
    assert_eq!(rt; pulled(alloc, 2), (Err(RunFault::Turns), 2, 0));
    assert_eq!(rt; pulled(alloc, 3), (Err(RunFault::Turns), 3, 0));
    assert_eq!(rt; pulled(alloc, 4), (Ok(20000), 4, 1));
    assert_eq!(rt; pulled(alloc, 100), (Ok(20000), 4, 1));
}

/// How many of 20,000 bytes come from a reader that fails at a call, and how often it was called and
/// the source failed.
fn pulled_from_faulty(
    alloc: Global,
    fault: ErrorKind,
    fails_at: u64,
) -> (Result<usize, RunFault>, u64, u64) {
    let mut calls = 0;
    let mut source = ReadSource::new(FaultyReader {
        left: 20000,
        most: 5000,
        fails_at,
        fault,
        calls: &mut calls,
    });
    let all = pull_all(alloc, &mut source, 100).map(|all| all.len());
    let failures = source.failures();
    (all, calls, failures)
}

/// Four pieces and the end: a failure is told where it comes, and nothing is read after it or after
/// the end.
#[test]
fn failed_reads_are_told(rt: HostRuntime) {
    let alloc = rt.alloc();
    for fails_at in 1..6 {
        assert_eq!(rt;
            pulled_from_faulty(alloc, ErrorKind::Other, fails_at),
            (Err(RunFault::Read), fails_at, 1)
        );
    }
    assert_eq!(rt;
        pulled_from_faulty(alloc, ErrorKind::Other, 6),
        (Ok(20000), 5, 0)
    );
}

#[test]
fn interrupted_reads_are_made_again(rt: HostRuntime) {
    let alloc = rt.alloc();
    for fails_at in 1..6 {
        assert_eq!(rt;
            pulled_from_faulty(alloc, ErrorKind::Interrupted, fails_at),
            (Ok(20000), 6, 0)
        );
    }
}

#[test]
fn an_empty_piece_meets_no_end(rt: HostRuntime) {
    let mut source = ReadSource::new(b"o!".as_slice());
    assert_eq!(rt; source.pull(&mut []), Ok(0));
    assert_eq!(rt; source.ends_met(), 0);
}
