//! Services over bytes, of a hub in memory.

use crate::failing::{Greetings, Keeper, Pieces};
use crate::hubs::{NOTHING, hub_of};
use crate::texts::bytes_of;
use devices::{ReadSource, WriteSink};
use frame_service::{ServeFault, Served};
use replica_sessions::Session;
use session_service::{Unheard, serve, serve_within};
use std::alloc::Global;
use std::test::Fail;
use std::thread::Threads;

/// Bytes that are pulled, and what comes of it.
struct Fed {
    bytes: &'static str,
    end: Result<Served, ServeFault>,
    pushed: &'static str,
}

static STREAMS: [Fed; 7] = [
    Fed {
        bytes: "00000001 01 00000001 03 00000001 09 00000001 06",
        end: Ok(Served {
            requests: 4,
            bye: true,
        }),
        pushed: "00000008000001042f322f33000000050000000000000000012100000001 00",
    },
    // An empty body.
    Fed {
        bytes: "00000000",
        end: Ok(Served {
            requests: 1,
            bye: false,
        }),
        pushed: "00000001 21",
    },
    // A length that is too great, and the greatest, of which no body comes.
    Fed {
        bytes: "00000001 03 01000001 00000001 03",
        end: Err(ServeFault::FrameTooLong),
        pushed: "00000005 0000000000 00000001 15",
    },
    Fed {
        bytes: "01000000 03",
        end: Err(ServeFault::Cut),
        pushed: "",
    },
    Fed {
        bytes: "0000",
        end: Err(ServeFault::Cut),
        pushed: "",
    },
    Fed {
        bytes: "",
        end: Ok(Served {
            requests: 0,
            bye: false,
        }),
        pushed: "",
    },
    // Behind a farewell nothing is answered.
    Fed {
        bytes: "00000001 06 00000001 01 00000000",
        end: Ok(Served {
            requests: 1,
            bye: true,
        }),
        pushed: "00000001 00",
    },
];

/// How a service ends that is fed bytes in pieces of at most so many, and whether it pushed others.
fn outcome<R: Threads + Sync + Drop>(
    rt: R,
    alloc: Global,
    case: &Fed,
    size: usize,
) -> Result<(Result<Served, ServeFault>, bool), Fail> {
    let bytes = bytes_of(alloc, case.bytes)?;
    let mut session = Session::new(rt, alloc, hub_of(alloc, NOTHING)?);
    let mut out = Vec::new(alloc);
    let end = serve(
        &mut Pieces::of(&bytes, size, 0),
        &mut WriteSink::new(&mut out),
        &mut session,
        &mut Unheard,
    );
    Ok((end, out == bytes_of(alloc, case.pushed)?))
}

#[test]
fn pieces_make_no_difference(rt: HostRuntime) -> Result<(), Fail> {
    for case in &STREAMS {
        for size in [1, 3, 4096] {
            assert_eq!(rt;
                outcome(rt, rt.alloc(), case, size)?,
                (case.end, true),
                "{} by {size}",
                case.bytes
            );
        }
    }
    Ok(())
}

/// A greeting, a push, a poll and a farewell.
pub const REQUESTS: &str =
    "00000001 01 00000025 02 474c5744 01 04 2f322f33 00000001 0000000000010001 \
    00 00000001 40000000 40000000 01 00000001 03 00000001 06";

/// How a service ends that is fed only so many of their 56 bytes, and how many edits its hub is left with.
fn cut<R: Threads + Sync + Drop>(
    rt: R,
    alloc: Global,
    count: usize,
) -> Result<(Result<Served, ServeFault>, usize), Fail> {
    let mut bytes = bytes_of(alloc, REQUESTS)?;
    bytes.truncate(count);
    let mut session = Session::new(rt, alloc, hub_of(alloc, NOTHING)?);
    let mut out = Vec::new(alloc);
    let end = serve(
        &mut ReadSource::new(bytes.as_slice()),
        &mut WriteSink::new(&mut out),
        &mut session,
        &mut Unheard,
    );
    Ok((end, session.into_hub().fresh()))
}

/// The same, as it must be: the four frames end at 5, 46, 51 and 56 bytes.
fn cut_at(count: usize) -> (Result<Served, ServeFault>, usize) {
    let requests = match count {
        0 => 0,
        5 => 1,
        46 => 2,
        51 => 3,
        56 => 4,
        _ => return (Err(ServeFault::Cut), usize::from(46 <= count && count < 51)),
    };
    let end = Served {
        requests,
        bye: count == 56,
    };
    (Ok(end), usize::from(count == 46))
}

#[test]
fn a_stream_ends_well_between_frames(rt: HostRuntime) -> Result<(), Fail> {
    for count in 0..57 {
        assert_eq!(rt; cut(rt, rt.alloc(), count)?, cut_at(count), "{count} bytes");
    }
    Ok(())
}

/// How a service ends that is greeted for ever, and how often it pushed.
fn greeted<R: Threads + Sync + Drop>(
    rt: R,
    alloc: Global,
    size: usize,
    turns: u64,
) -> Result<(Result<Served, ServeFault>, u64), Fail> {
    let mut session = Session::new(rt, alloc, hub_of(alloc, NOTHING)?);
    let mut sink = Keeper::new(alloc, 0, 0);
    let end = serve_within(
        &mut Greetings::of(size),
        &mut sink,
        &mut session,
        &mut Unheard,
        turns,
    );
    Ok((end, sink.pushes))
}

#[test]
fn a_source_without_an_end_is_left(rt: HostRuntime) -> Result<(), Fail> {
    let left = Err(ServeFault::Turns);
    assert_eq!(rt; greeted(rt, rt.alloc(), 5, 1000)?, (left, 1000));
    assert_eq!(rt; greeted(rt, rt.alloc(), 1, 1000)?, (left, 200));
    assert_eq!(rt; greeted(rt, rt.alloc(), 4096, 3)?, (left, 2457));
    // No pull asks for more than 4,096 bytes, whatever the source has.
    assert_eq!(rt; greeted(rt, rt.alloc(), 8192, 3)?, (left, 2457));
    assert_eq!(rt; greeted(rt, rt.alloc(), 5, 0)?, (left, 0));
    Ok(())
}
