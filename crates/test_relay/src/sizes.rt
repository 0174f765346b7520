//! Which relays start.

use crate::drawn::BRIANS_BRAIN;
use generations_rule::Rule;
use relay_board::{BoardSize, MOST_INBOX, MOST_SESSIONS, StartFault, start, start_within};
use square_store::Limits;
use std::alloc::Global;
use std::sync::Wait;
use std::test::Fail;

/// Why a relay does not start with so many sessions and so much room.
fn refused<R: Wait + Drop>(
    rt: R,
    alloc: Global,
    sessions: u16,
    inbox: u16,
) -> Result<Option<StartFault>, Fail> {
    Ok(start(rt, alloc, Rule::parse(BRIANS_BRAIN)?, sessions, inbox).err())
}

/// Sessions, room, and why they are refused.
static SIZES: [(u16, u16, Option<StartFault>); 8] = [
    (0, 1, Some(StartFault::Size)),
    (1, 0, Some(StartFault::Size)),
    (65, 1, Some(StartFault::Size)),
    (1, 1025, Some(StartFault::Size)),
    (u16::MAX, u16::MAX, Some(StartFault::Size)),
    (1, 1, None),
    (64, 1024, None),
    (2, 2, None),
];

#[test]
fn a_size_is_refused_where_it_does_not_fit(rt: HostRuntime) -> Result<(), Fail> {
    assert_eq!(rt; (MOST_SESSIONS, MOST_INBOX), (64, 1024));
    for (sessions, inbox, fault) in &SIZES {
        let refused = refused(rt, rt.alloc(), *sessions, *inbox)?;
        assert_eq!(rt; refused, *fault, "{sessions} sessions, {inbox} submissions");
    }
    Ok(())
}

/// Why a relay does not start with so many sessions that are numbered from a first one on.
fn refused_from<R: Wait + Drop>(
    rt: R,
    alloc: Global,
    first: u16,
    sessions: u16,
) -> Result<Option<StartFault>, Fail> {
    let size = BoardSize {
        first,
        sessions,
        inbox: 1,
        is_kept: false,
        limits: Limits::usual(),
    };
    Ok(start_within(rt, alloc, Rule::parse(BRIANS_BRAIN)?, size).err())
}

/// The number of the first session, sessions, and why they are refused.
static NUMBERS: [(u16, u16, Option<StartFault>); 8] = [
    (0, 1, Some(StartFault::Size)),
    (0, 64, Some(StartFault::Size)),
    (1, 64, None),
    (65_535, 1, None),
    (65_535, 2, Some(StartFault::Size)),
    (65_472, 64, None),
    (65_473, 64, Some(StartFault::Size)),
    (100, 65, Some(StartFault::Size)),
];

#[test]
fn a_number_is_refused_where_it_does_not_fit(rt: HostRuntime) -> Result<(), Fail> {
    for (first, sessions, fault) in &NUMBERS {
        let refused = refused_from(rt, rt.alloc(), *first, *sessions)?;
        assert_eq!(rt; refused, *fault, "{sessions} sessions from {first} on");
    }
    Ok(())
}
