//! All that a run prints.

use crate::failing::{FaultyWriter, Written};
use devices::WriteSink;
use genedit_io::{RunFault, push_output};
use std::alloc::{AllocError, Global};
use std::io::ErrorKind;

/// 100,000 bytes.
fn output(alloc: Global) -> Result<Vec<u8>, AllocError> {
    (0..100_000).map(|i| (i % 251) as u8).collect(alloc)
}

#[test]
fn a_long_output_arrives_whole(rt: HostRuntime) -> Result<(), AllocError> {
    let out = output(rt.alloc())?;
    let mut arrived = Vec::new(rt.alloc());
    let end = push_output(&mut WriteSink::new(&mut arrived), &out);
    assert_eq!(rt; end, Ok(()));
    assert_eq!(rt; arrived.as_slice() == out.as_slice(), true);
    Ok(())
}

/// How a push of 100,000 bytes ends whose writer takes 10,000 at a call and fails at one, how often
/// the sink failed, and what was done to the writer.
fn pushed_to_faulty(
    out: &[u8],
    fault: ErrorKind,
    fails_at: u64,
) -> (Result<(), RunFault>, u64, Written) {
    let mut written = Written {
        calls: 0,
        bytes: 0,
        flushes: 0,
    };
    let mut sink = WriteSink::new(FaultyWriter {
        most: 10_000,
        fails_at,
        fault,
        written: &mut written,
    });
    let end = push_output(&mut sink, out);
    let failures = sink.failures();
    (end, failures, written)
}

/// Ten writes and a flush: a failure is told where it comes, and nothing is written after it.
#[test]
fn failed_writes_are_told(rt: HostRuntime) -> Result<(), AllocError> {
    let out = output(rt.alloc())?;
    for fails_at in 1..12 {
        let (end, failures, written) = pushed_to_faulty(&out, ErrorKind::Other, fails_at);
        assert_eq!(rt; (end, failures), (Err(RunFault::Write), 1));
        assert_eq!(rt;
            (written.calls, written.bytes),
            (fails_at, 10_000 * (fails_at - 1))
        );
    }
    Ok(())
}

#[test]
fn outputs_are_flushed(rt: HostRuntime) -> Result<(), AllocError> {
    let out = output(rt.alloc())?;
    let (end, failures, written) = pushed_to_faulty(&out, ErrorKind::Other, 12);
    assert_eq!(rt; (end, failures), (Ok(()), 0));
    assert_eq!(rt;
        (written.calls, written.bytes, written.flushes),
        (11, 100_000, 1)
    );
    Ok(())
}

#[test]
fn interrupted_writes_are_made_again(rt: HostRuntime) -> Result<(), AllocError> {
    let out = output(rt.alloc())?;
    for fails_at in 1..11 {
        let (end, failures, written) = pushed_to_faulty(&out, ErrorKind::Interrupted, fails_at);
        assert_eq!(rt; (end, failures), (Ok(()), 0));
        assert_eq!(rt; (written.calls, written.bytes), (12, 100_000));
    }
    Ok(())
}
