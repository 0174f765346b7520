//! When a request that awaits news is answered: over ears that note what they are asked.

use crate::failing::Pieces;
use crate::hubs::{NOTHING, Start, hub_of};
use crate::texts::bytes_of;
use devices::WriteSink;
use frame_service::Served;
use replica_sessions::Session;
use session_service::{Came, Listen, serve};
use std::alloc::Global;
use std::test::Fail;
use std::thread::Threads;
use std::time::Duration;

/// Ears that hear so many announcements, and then this, and note what they were asked.
#[derive(Drop)]
struct Noted {
    announcements: u32,
    last: Came,
    /// How often it was begun, and for how many milliseconds in all.
    begun: u32,
    milliseconds: u128,
    waits: u32,
    ended: u32,
}

impl Noted {
    fn hearing(announcements: u32, last: Came) -> Noted {
        Noted {
            announcements,
            last,
            begun: 0,
            milliseconds: 0,
            waits: 0,
            ended: 0,
        }
    }
}

impl Listen for Noted {
    fn begin(&mut self, most: Duration) {
        self.begun = self.begun.saturating_add(1);
        self.milliseconds = self.milliseconds.saturating_add(most.as_millis());
    }

    fn wait(&mut self) -> Came {
        self.waits = self.waits.saturating_add(1);
        if self.announcements > 0 {
            self.announcements -= 1;
            Came::News
        } else {
            self.last
        }
    }

    fn end(&mut self) {
        self.ended = self.ended.saturating_add(1);
    }
}

/// What a session over a hub is asked, and what comes of it: what goes out, and how often its ears were begun,
/// asked and ended, and for how many milliseconds.
struct Case {
    behind: u64,
    /// How many bytes a pull gives at most.
    size: usize,
    bytes: &'static str,
    announcements: u32,
    pushed: &'static str,
    asked: (u32, u32, u32, u128),
}

/// An Await of a second, in its frame, and one of a minute.
static CASES: [Case; 7] = [
    // The time is over: no edits.
    Case {
        behind: 0,
        size: 4096,
        bytes: "00000005 08000003e8",
        announcements: 0,
        pushed: "00000005 00 00000000",
        asked: (1, 1, 1, 1000),
    },
    // What is announced is no news of this session, three times.
    Case {
        behind: 0,
        size: 4096,
        bytes: "00000005 080000ea60",
        announcements: 3,
        pushed: "00000005 00 00000000",
        asked: (1, 4, 1, 60_000),
    },
    // A further byte was pulled already: nobody waits.
    Case {
        behind: 0,
        size: 4096,
        bytes: "00000005 08000003e8 00000001 06",
        announcements: 0,
        pushed: "00000005 00 00000000 00000001 00",
        asked: (0, 0, 0, 0),
    },
    // It was not pulled yet: it is looked for.
    Case {
        behind: 0,
        size: 9,
        bytes: "00000005 08000003e8 00000001 06",
        announcements: 0,
        pushed: "00000005 00 00000000 00000001 00",
        asked: (1, 1, 1, 1000),
    },
    // There are news: nobody waits for more.
    Case {
        behind: 7,
        size: 9,
        bytes: "00000005 08000003e8",
        announcements: 0,
        pushed: "00000005 00 ffffffff 00000016 474c575302042f322f33000000000000000000000000",
        asked: (1, 0, 1, 1000),
    },
    // More than a minute, and a poll, which does not wait.
    Case {
        behind: 0,
        size: 9,
        bytes: "00000005 080000ea61 00000001 03",
        announcements: 0,
        pushed: "00000001 21 00000005 00 00000000",
        asked: (0, 0, 0, 0),
    },
    // The plane in pieces, of seven edits; then nothing is left to poll.
    Case {
        behind: 7,
        size: 9,
        bytes: "00000001 0b 00000001 03",
        announcements: 0,
        pushed: "0000000d 00 0000000000000007 00000001 00000016 474c575302042f322f33000000000000000000000000 00000005 00 00000000",
        asked: (0, 0, 0, 0),
    },
];

/// Whether a case comes out as it is meant, where the last that the ears hear is this.
fn is_meant<R: Threads + Sync + Drop>(
    rt: R,
    alloc: Global,
    case: &Case,
    last: Came,
) -> Result<bool, Fail> {
    let start = Start {
        behind: case.behind,
        ..NOTHING
    };
    let bytes = bytes_of(alloc, case.bytes)?;
    let mut session = Session::new(rt, alloc, hub_of(alloc, start)?);
    let mut ears = Noted::hearing(case.announcements, last);
    let mut out = Vec::new(alloc);
    let end: Served = serve(
        &mut Pieces::of(&bytes, case.size, 0),
        &mut WriteSink::new(&mut out),
        &mut session,
        &mut ears,
    )?;
    let asked = (ears.begun, ears.waits, ears.ended, ears.milliseconds);
    Ok(end.requests > 0 && out == bytes_of(alloc, case.pushed)? && asked == case.asked)
}

#[test]
fn an_await_is_answered_once_something_came(rt: HostRuntime) -> Result<(), Fail> {
    for case in &CASES {
        assert!(rt; is_meant(rt, rt.alloc(), case, Came::Nothing)?);
        assert!(rt; is_meant(rt, rt.alloc(), case, Came::Byte)?);
    }
    Ok(())
}
