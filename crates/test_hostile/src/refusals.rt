//! Texts with one fault, which is told by all who read: `read`, a replica that takes them and a session that
//! they are pushed to; and streams that end a service.

use crate::spelling::{DELTA, FIRST, STATE, bytes_of, text_of};
use crate::telling::{fault_of, pushed, session_of, taken};
use delta_exchange::ReadFault;
use devices::{ReadSource, WriteSink};
use frame_service::{ServeFault, Served};
use session_service::{Unheard, serve};
use std::alloc::Global;
use std::test::Fail;
use std::thread::Threads;

/// A head, what stands behind it, and the fault of both.
type Row = (&'static str, &'static str, ReadFault);

static HEADS: [Row; 12] = [
    ("", "", ReadFault::Short),
    ("", "474c", ReadFault::Short),
    ("", "58585858", ReadFault::Magic),
    ("", "474c5744", ReadFault::Short),
    ("", "474c5744 02", ReadFault::Version),
    ("", "474c5744 00", ReadFault::Version),
    ("", "474c5753 00", ReadFault::Version),
    ("", "474c5753 03", ReadFault::Version),
    ("", "474c5744 01 04 2f332f33", ReadFault::OtherRule),
    ("", "474c5753 01 04 2f332f33", ReadFault::OtherRule),
    ("", "474c5753 02 00", ReadFault::OtherRule),
    // One byte of the rule more is said to stand there than does.
    ("", "474c5753 02 05 2f322f33", ReadFault::Short),
];

static STATES: [Row; 9] = [
    (STATE, "00000000 0000000000000001", ReadFault::StampRange),
    (STATE, "00000000 0000000000010000", ReadFault::StampRange),
    (STATE, "ffffffff", ReadFault::Short),
    (STATE, "00000001 02", ReadFault::NotCanonical),
    (STATE, "00000001 20", ReadFault::NotCanonical),
    (STATE, "00000001 1f 02", ReadFault::NotCanonical),
    (STATE, "00000001 1f 01 00000000", ReadFault::NotCanonical),
    (
        STATE,
        "00000001 1f 00 0000000000000001",
        ReadFault::StampRange,
    ),
    (
        STATE,
        "00000001 1f 00 0000000000000000 00 0000000000000000 00 0000000000000000 00 0000000000000000",
        ReadFault::NotCanonical,
    ),
];

static FIRST_STATES: [Row; 8] = [
    (
        FIRST,
        "02020202020202 02020202020202 02020202020202 02020202020202",
        ReadFault::Short,
    ),
    (
        FIRST,
        "02020202020202 02020202020202 02020202020202 02020202020202 02",
        ReadFault::NotCanonical,
    ),
    (FIRST, "01", ReadFault::NotCanonical),
    (FIRST, "03", ReadFault::NotCanonical),
    (FIRST, "00 0000000000000001", ReadFault::StampRange),
    (FIRST, "00 0000000000010000", ReadFault::StampRange),
    (FIRST, "00 0000000000000000 00", ReadFault::Trailing),
    (
        FIRST,
        "02 00 0000000000000000 00 0000000000000000 00 0000000000000000 00 0000000000000000",
        ReadFault::NotCanonical,
    ),
];

static DELTAS: [Row; 12] = [
    (DELTA, "ffffffff", ReadFault::Short),
    (DELTA, "00000001 0000000000000001", ReadFault::StampRange),
    (
        DELTA,
        "00000001 0000000000010001 02",
        ReadFault::NotCanonical,
    ),
    (
        DELTA,
        "00000001 0000000000010001 01 80000000 40000000 00000000 00000001",
        ReadFault::OutOfPlane,
    ),
    (
        DELTA,
        "00000001 0000000000010001 01 40000000 40000000 00000000 00000001",
        ReadFault::Nothing,
    ),
    // From the origin to one column past the last.
    (
        DELTA,
        "00000001 0000000000010001 01 40000000 40000000 40000001 00000001",
        ReadFault::OutOfPlane,
    ),
    (
        DELTA,
        "00000001 0000000000010001 00 00000000",
        ReadFault::Nothing,
    ),
    (
        DELTA,
        "00000001 0000000000010001 00 00100001",
        ReadFault::TooMany,
    ),
    (
        DELTA,
        "00000001 0000000000010001 00 00000001 80000000 40000000 03",
        ReadFault::StateRange,
    ),
    (
        DELTA,
        "00000001 0000000000010001 00 00000001 80000000 40000000 02",
        ReadFault::OutOfPlane,
    ),
    (
        DELTA,
        "00000001 0000000000010001 00 00000002 40000000 40000000 01 40000000 40000000 01",
        ReadFault::NotCanonical,
    ),
    (DELTA, "00000000 00", ReadFault::Trailing),
];

/// The state of a replica that holds nothing.
const EMPTY: &str = "474c5753 02 04 2f322f33 00000000 0000000000000000";

/// What each of them says of a text: its fault, its number to a replica, whether that holds nothing then, and
/// its number to a session.
#[derive(Clone, Copy, Debug, PartialEq, Eq)]
struct Told {
    read: Option<ReadFault>,
    taken: u8,
    is_as_before: bool,
    pushed: Option<u8>,
}

fn told_by_all<R: Threads + Sync + Drop>(rt: R, alloc: Global, text: &[u8]) -> Result<Told, Fail> {
    let (number, state) = taken(alloc, text)?;
    Ok(Told {
        read: fault_of(alloc, text)?,
        taken: number,
        is_as_before: state == bytes_of(alloc, EMPTY)?,
        pushed: pushed(rt, alloc, text)?,
    })
}

/// What has to be told of a fault.
fn refused_as(fault: ReadFault) -> Told {
    Told {
        read: Some(fault),
        taken: fault.number(),
        is_as_before: true,
        pushed: Some(fault.number()),
    }
}

/// The first row of which something else is told, by its place.
fn first_amiss<R: Threads + Sync + Drop + Copy>(
    rt: R,
    alloc: Global,
    rows: &[Row],
) -> Result<Option<usize>, Fail> {
    for (place, (head, rest, fault)) in rows.iter().enumerate() {
        let text = text_of(alloc, head, rest)?;
        if told_by_all(rt, alloc, &text)? != refused_as(*fault) {
            return Ok(Some(place));
        }
    }
    Ok(None)
}

#[test]
fn faults_of_heads_are_told(rt: HostRuntime) -> Result<(), Fail> {
    assert_eq!(rt; first_amiss(rt, rt.alloc(), &HEADS)?, None);
    Ok(())
}

#[test]
fn faults_of_states_are_told(rt: HostRuntime) -> Result<(), Fail> {
    assert_eq!(rt; first_amiss(rt, rt.alloc(), &STATES)?, None);
    assert_eq!(rt; first_amiss(rt, rt.alloc(), &FIRST_STATES)?, None);
    Ok(())
}

#[test]
fn faults_of_deltas_are_told(rt: HostRuntime) -> Result<(), Fail> {
    assert_eq!(rt; first_amiss(rt, rt.alloc(), &DELTAS)?, None);
    Ok(())
}

/// Texts that are read though they are near to refused ones, and what a push of them is told: an area of
/// any side, one cell at each end of the plane, no edit, and states of either version.
static READ: [(&str, &str, u8); 6] = [
    (
        DELTA,
        "00000001 0000000000010001 01 40000000 40000000 00001001 00000001 00000000",
        0,
    ),
    (
        DELTA,
        "00000001 0000000000010001 01 00000000 00000000 80000000 80000000 00000000",
        0,
    ),
    (
        DELTA,
        "00000001 0000000000010001 00 00000002 00000000 00000000 01 7fffffff 7fffffff 02",
        0,
    ),
    (DELTA, "00000000", 33),
    (STATE, "00000000 0000000000000000", 33),
    (FIRST, "00 0000000000000000", 33),
];

#[test]
fn what_is_no_fault_is_read(rt: HostRuntime) -> Result<(), Fail> {
    for (head, rest, number) in READ {
        let text = text_of(rt.alloc(), head, rest)?;
        let told = told_by_all(rt, rt.alloc(), &text)?;
        assert_eq!(rt;
            (told.read, told.taken, told.pushed),
            (None, 0, Some(number))
        );
    }
    Ok(())
}

/// Bytes that are pulled, what is pushed, and how the service ends.
static STREAMS: [(&str, &str, Result<Served, ServeFault>); 4] = [
    (
        "00000000",
        "00000001 21",
        Ok(Served {
            requests: 1,
            bye: false,
        }),
    ),
    ("01000001", "00000001 15", Err(ServeFault::FrameTooLong)),
    ("ffffffff", "00000001 15", Err(ServeFault::FrameTooLong)),
    ("0000", "", Err(ServeFault::Cut)),
];

/// How a service ends that is fed so, and whether it pushed just these bytes.
fn served<R: Threads + Sync + Drop>(
    rt: R,
    alloc: Global,
    stream: &str,
    pushed: &str,
) -> Result<(Result<Served, ServeFault>, bool), Fail> {
    let bytes = bytes_of(alloc, stream)?;
    let mut session = session_of(rt, alloc)?;
    let mut out = Vec::new(alloc);
    let end = serve(
        &mut ReadSource::new(bytes.as_slice()),
        &mut WriteSink::new(&mut out),
        &mut session,
        &mut Unheard,
    );
    Ok((end, out == bytes_of(alloc, pushed)?))
}

#[test]
fn faulty_streams_are_told_and_left(rt: HostRuntime) -> Result<(), Fail> {
    for (stream, pushed, end) in STREAMS {
        assert_eq!(rt; served(rt, rt.alloc(), stream, pushed)?, (end, true));
    }
    Ok(())
}
