//! The protocol over a hub in memory.

use crate::dialogues::{answered, dialogue};
use crate::hubs::{NOTHING, Start, hub_of, row_of};
use delta_exchange::write_state;
use generations_rule::Rule;
use replica_sessions::Session;
use std::alloc::Global;
use std::test::Fail;
use std::thread::Threads;

/// Nothing was drawn.
const GREETING: &str = "\
01 -> 00000008 000001042f322f33
03 -> 00000005 0000000000
09 -> 00000001 21
06 -> 00000001 00, the last
";

/// An edit is pushed, and handed out.
const PUSH: &str = "\
01 -> 00000008 000001042f322f33
02 474c5744 01 04 2f322f33 00000001 0000000000010001 00 00000001 40000000 40000000 01 -> 00000001 00
03 -> 00000005 0000000001, 00000024 474c574401042f322f330000000100000000000100010000000001400000004000000001
06 -> 00000001 00, the last
";

/// Two pushes between polls are handed out once, in their order.
const POLLS: &str = "\
02 474c5744 01 04 2f322f33 00000001 0000000000010001 00 00000001 40000000 40000000 01 -> 00000001 00
02 474c5744 01 04 2f322f33 00000001 0000000000020001 00 00000001 40000001 40000000 02 -> 00000001 00
03 -> 00000005 0000000002, 00000024 474c574401042f322f330000000100000000000100010000000001400000004000000001, 00000024 474c574401042f322f330000000100000000000200010000000001400000014000000002
03 -> 00000005 0000000000
02 474c5744 01 04 2f322f33 00000001 0000000000020001 00 00000001 40000001 40000000 02 -> 00000001 00
03 -> 00000005 0000000001, 00000024 474c574401042f322f330000000100000000000200010000000001400000014000000002
";

/// The map where nothing was written, in version 2.
const EMPTY: &str = "\
04 -> 00000017 00474c575302042f322f33000000000000000000000000
";

/// Two cells of Brian's Brain, and two generations.
const EXPORTS: &str = "\
07 0003 00000001 20000001 00000000 -> 00000003 000003, 0000003b 00 #CXRLE Pos=0,-1 Gen=1|x = 2, y = 3, rule = /2/3|2A$2B$2A!|, 00000001 16, 00000034 00 #CXRLE Pos=0,0 Gen=0|x = 2, y = 1, rule = /2/3|2A!|
05 00000001 -> 0000003b 00 #CXRLE Pos=0,-1 Gen=1|x = 2, y = 3, rule = /2/3|2A$2B$2A!|
05 00000000 -> 00000034 00 #CXRLE Pos=0,0 Gen=0|x = 2, y = 1, rule = /2/3|2A!|
07 0000 -> 00000003 000000
";

/// Windows of them: the first column, no column at all, the second cell alone; a generation that is too late, and a
/// request that is too short.
const CUTS: &str = "\
0a 00000000 ffffffff 00000001 00000005 00000001 -> 00000038 00 #CXRLE Pos=0,-1 Gen=1|x = 1, y = 3, rule = /2/3|A$B$A!|
0a 00000000 00000000 00000000 ffffffff 00000000 -> 00000032 00 #CXRLE Pos=0,0 Gen=0|x = 0, y = 0, rule = /2/3|!|
0a 00000001 80000000 00000001 ffffffff 00000000 -> 00000033 00 #CXRLE Pos=1,0 Gen=0|x = 1, y = 1, rule = /2/3|A!|
0a 00000000 00000000 00000001 00000001 20000001 -> 00000001 16
0a 00000000 00000000 00000001 00000001 000000 -> 00000001 21
";

/// Seat 2 pushes an edit of replica 1, and a state of version 1.
const OTHER_SEAT: &str = "\
02 474c5744 01 04 2f322f33 00000001 0000000000010001 00 00000001 40000000 40000000 01 -> 00000001 1c
02 474c5753 01 04 2f322f33 00 0000000000000000 -> 00000001 21
01 -> 00000008 000002042f322f33
";

/// What a session over a hub in memory says.
struct Spoken {
    start: Start,
    text: &'static str,
}

static DIALOGUES: [Spoken; 7] = [
    Spoken {
        start: Start {
            number: 1,
            cells: 0,
            behind: 0,
        },
        text: GREETING,
    },
    Spoken {
        start: Start {
            number: 1,
            cells: 0,
            behind: 0,
        },
        text: PUSH,
    },
    Spoken {
        start: Start {
            number: 1,
            cells: 0,
            behind: 0,
        },
        text: POLLS,
    },
    Spoken {
        start: Start {
            number: 1,
            cells: 0,
            behind: 0,
        },
        text: EMPTY,
    },
    Spoken {
        start: Start {
            number: 1,
            cells: 2,
            behind: 0,
        },
        text: EXPORTS,
    },
    Spoken {
        start: Start {
            number: 1,
            cells: 2,
            behind: 0,
        },
        text: CUTS,
    },
    Spoken {
        start: Start {
            number: 2,
            cells: 0,
            behind: 0,
        },
        text: OTHER_SEAT,
    },
];

/// The dialogue of a session over such a hub.
fn said<R: Threads + Sync + Drop>(
    rt: R,
    alloc: Global,
    start: Start,
    text: &str,
) -> Result<String, Fail> {
    let mut session = Session::new(rt, alloc, hub_of(alloc, start)?);
    let told = dialogue(alloc, &mut session, text)?;
    Ok(told)
}

#[test]
fn requests_are_answered(rt: HostRuntime) -> Result<(), Fail> {
    for case in &DIALOGUES {
        assert_eq!(rt;
            said(rt, rt.alloc(), case.start, case.text)?.as_str(),
            case.text
        );
    }
    Ok(())
}

/// A session over a hub of one cell that is seven edits behind.
const BEHIND: Start = Start {
    number: 1,
    cells: 1,
    behind: 7,
};

/// The replies to two polls, the first of which hands out a plane.
fn polled<R: Threads + Sync + Drop>(rt: R, alloc: Global) -> Result<(String, String), Fail> {
    let mut session = Session::new(rt, alloc, hub_of(alloc, BEHIND)?);
    let first = answered(alloc, &mut session, "03")?;
    let second = answered(alloc, &mut session, "03")?;
    Ok((first, second))
}

/// The mark, and the state of that cell in a frame of 1,515 bytes.
fn whole(alloc: Global) -> Result<String, Fail> {
    let rule = Rule::parse(b"/2/3")?;
    let plane = row_of(alloc, &rule, 1)?;
    let state = hex::encode(alloc, write_state(alloc, &rule, &plane)?.as_slice())?;
    let told = format!(in alloc; "00000005 00ffffffff, 000005eb {state}")?;
    Ok(told)
}

#[test]
fn a_plane_is_handed_out_once(rt: HostRuntime) -> Result<(), Fail> {
    let (first, second) = polled(rt, rt.alloc())?;
    assert_eq!(rt; first.as_str(), whole(rt.alloc())?.as_str());
    assert_eq!(rt; second.as_str(), "00000005 0000000000");
    Ok(())
}

/// How many edits a hub is left with, where so many of three requests are answered: two pushes and a poll.
fn left<R: Threads + Sync + Drop>(rt: R, alloc: Global, requests: usize) -> Result<usize, Fail> {
    let mut session = Session::new(rt, alloc, hub_of(alloc, NOTHING)?);
    for line in POLLS.lines().take(requests) {
        let request = line.split(" -> ").next().unwrap_or(line);
        let _reply = answered(alloc, &mut session, request)?;
    }
    Ok(session.into_hub().fresh())
}

#[test]
fn a_hub_comes_back_with_what_it_has(rt: HostRuntime) -> Result<(), Fail> {
    for (requests, fresh) in [(0, 0), (1, 1), (2, 2), (3, 0)] {
        assert_eq!(rt; left(rt, rt.alloc(), requests)?, fresh);
    }
    Ok(())
}
