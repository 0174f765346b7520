//! Requests that are refused.

use crate::dialogues::{answered, dialogue};
use crate::hubs::{NOTHING, hub_of};
use memory_hub::MemoryHub;
use replica_sessions::Session;
use session_hub::HubFault;
use std::alloc::{AllocError, Global};
use std::test::Fail;
use std::thread::Threads;

/// What is no request, what is no message of one edit, and a late generation; behind them a greeting and a poll
/// are answered as ever.
const REFUSALS: &str = "\
nothing -> 00000001 21
00 -> 00000001 21
08 -> 00000001 21
ff -> 00000001 21
01 00 -> 00000001 21
03 00 -> 00000001 21
04 00 -> 00000001 21
06 00 -> 00000001 21
05 -> 00000001 21
05 000000 -> 00000001 21
05 0000000000 -> 00000001 21
07 -> 00000001 21
07 00 -> 00000001 21
07 0001 -> 00000001 21
07 0001 000000 -> 00000001 21
07 0000 00 -> 00000001 21
02 -> 00000001 11
02 5858585801042f322f3300000000 -> 00000001 0e
02 474c5744 02 -> 00000001 0f
02 474c5744 01 04 2f322f34 00000000 -> 00000001 10
02 474c5744 01 04 2f322f33 00000001 0000000000010001 00 00000001 40000000 40000000 01 00 -> 00000001 14
02 474c5744 01 04 2f322f33 00000001 0000000000000000 00 00000001 40000000 40000000 01 -> 00000001 12
02 474c5744 01 04 2f322f33 00000001 0000000000010001 02 00000001 40000000 40000000 01 -> 00000001 13
02 474c5744 01 04 2f322f33 00000001 0000000000010001 00 00000000 -> 00000001 09
02 474c5744 01 04 2f322f33 00000001 0000000000010001 00 00100001 -> 00000001 08
02 474c5744 01 04 2f322f33 00000001 0000000000010001 00 00000001 40000000 40000000 03 -> 00000001 0b
02 474c5744 01 04 2f322f33 00000001 0000000000010001 00 00000001 80000000 40000000 02 -> 00000001 0a
02 474c5744 01 04 2f322f33 00000000 -> 00000001 21
02 474c5744 01 04 2f322f33 00000002 0000000000010001 00 00000001 40000000 40000000 01 0000000000020001 00 00000001 40000000 40000000 01 -> 00000001 21
05 20000001 -> 00000001 16
01 -> 00000008 000001042f322f33
03 -> 00000005 0000000000
";

fn refused<R: Threads + Sync + Drop>(rt: R, alloc: Global) -> Result<String, Fail> {
    let mut session = Session::new(rt, alloc, hub_of(alloc, NOTHING)?);
    let told = dialogue(alloc, &mut session, REFUSALS)?;
    Ok(told)
}

#[test]
fn each_refusal_is_told(rt: HostRuntime) -> Result<(), Fail> {
    assert_eq!(rt; refused(rt, rt.alloc())?.as_str(), REFUSALS);
    Ok(())
}

const PUSH: &str =
    "02 474c5744 01 04 2f322f33 00000001 0000000000010001 00 00000001 40000000 40000000 01";

/// A push of a second edit, a poll, the plane, a late generation, and two of many, one of them late.
static REQUESTS: [&str; 5] = [
    "02 474c5744 01 04 2f322f33 00000001 0000000000020001 00 00000001 40000001 40000000 02",
    "03",
    "04",
    "05 20000001",
    "07 0002 00000000 20000001",
];

static FAULTS: [(HubFault, &str); 6] = [
    (HubFault::NotYours, "00000001 1c"),
    (HubFault::StateRange, "00000001 0b"),
    (HubFault::Full, "00000001 1d"),
    (HubFault::Closed, "00000001 1e"),
    (HubFault::StoreFull, "00000001 0d"),
    (HubFault::Memory, "00000001 ff"),
];

/// What is answered behind the refusals, and once the hub refuses no more.
const GREETED: &str = "00000008 000001042f322f33";

const POLLED: &str =
    "00000005 0000000001, 00000024 474c574401042f322f330000000100000000000100010000000001400000004000000001";

/// The hub behind a session with one push.
fn pushed<R: Threads + Sync + Drop>(rt: R, alloc: Global) -> Result<MemoryHub, Fail> {
    let mut session = Session::new(rt, alloc, hub_of(alloc, NOTHING)?);
    let _reply = answered(alloc, &mut session, PUSH)?;
    Ok(session.into_hub())
}

/// How many of the requests have a reply.
fn replied<R: Threads + Sync + Drop>(
    alloc: Global,
    session: &mut Session<MemoryHub, R>,
    reply: &str,
) -> Result<usize, AllocError> {
    let mut count = 0_usize;
    for request in REQUESTS {
        if answered(alloc, session, request)?.as_str() == reply {
            count = count.saturating_add(1);
        }
    }
    Ok(count)
}

/// How many requests a hub with one push that refuses each call is told of so, and the reply to a greeting
/// behind them; and the hub as it is then, which refuses no more.
fn asked<R: Threads + Sync + Drop>(
    rt: R,
    alloc: Global,
    mut hub: MemoryHub,
    (fault, reply): (HubFault, &str),
) -> Result<(usize, String, MemoryHub), AllocError> {
    hub.refuse(Some(fault));
    let mut session = Session::new(rt, alloc, hub);
    let count = replied(alloc, &mut session, reply)?;
    let greeted = answered(alloc, &mut session, "01")?;
    let mut hub = session.into_hub();
    hub.refuse(None);
    Ok((count, greeted, hub))
}

/// The same, with the reply to a poll behind it all.
fn asked_and_polled<R: Threads + Sync + Drop + Copy>(
    rt: R,
    alloc: Global,
    case: (HubFault, &str),
) -> Result<(usize, String, String), Fail> {
    let (count, greeted, hub) = asked(rt, alloc, pushed(rt, alloc)?, case)?;
    let mut session = Session::new(rt, alloc, hub);
    let polled = answered(alloc, &mut session, "03")?;
    Ok((count, greeted, polled))
}

#[test]
fn what_the_hub_refuses_is_told(rt: HostRuntime) -> Result<(), Fail> {
    for case in FAULTS {
        let (count, greeted, polled) = asked_and_polled(rt, rt.alloc(), case)?;
        assert_eq!(rt;
            (count, greeted.as_str(), polled.as_str()),
            (5, GREETED, POLLED)
        );
    }
    Ok(())
}
