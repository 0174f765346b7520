//! Sessions over the seats of one board.

ghost use Rattle.std.specs.Prelude.{◌≡◌};
ghost use Rattle.std.specs.Arc.{arc_value};

use crate::boards::{Relaying, Summary, begin_relaying, summed};
use crate::dialogues::answered;
use generations_rule::Rule;
use relay_board::{Account, Naming, Opened, Seat, start};
use replica_sessions::Session;
use seat_hub::SeatHub;
use std::alloc::{AllocError, Global};
use std::marker::Brand;
use std::sync::Wait;
use std::test::Fail;
use std::thread::Threads;

/// A session over a seat.
pub type SeatSession<J, R> = Session<SeatHub<J, R>, R>;

/// Sessions over seats, in the order of their numbers.
pub fn sessions<J: Naming, R: Threads + Wait + Copy + Drop + Sync>(
    rt: R,
    alloc: Global,
    seats: Vec<Seat<J>>,
) -> Result<Vec<SeatSession<J, R>>, Fail> {
    let mut sessions = Vec::new(alloc);
    for seat in seats {
        sessions.push(Session::new(rt, alloc, SeatHub::new(seat, rt)))?;
    }
    Ok(sessions)
}

/// What a board comes to behind its sessions.
pub fn closed<J: Naming, R: Threads + Wait + Copy + Drop + Sync>(
    rt: R,
    alloc: Global,
    relaying: Relaying<J, R>,
    sessions: Vec<SeatSession<J, R>>,
) -> Result<Account, Fail> {
    let mut seats = Vec::new(alloc);
    for session in sessions {
        seats.push(session.into_hub().into_seat())?;
    }
    relaying.finish(&rt, alloc, seats)
}

/// What is asked by the session of a seat, counted from 0, and its reply.
struct Said {
    seat: usize,
    request: &'static str,
    reply: &'static str,
}

/// Seat 2 may push no edit of replica 1. Edits of either are handed out to all three, to each once, in one order.
static TALK: [Said; 14] = [
    Said {
        seat: 1,
        request: "02 474c5744 01 04 2f322f33 00000001 0000000000010001 00 00000001 40000000 40000000 01",
        reply: "00000001 1c",
    },
    Said {
        seat: 1,
        request: "02 474c5753 01 04 2f322f33 00 0000000000000000",
        reply: "00000001 21",
    },
    Said {
        seat: 1,
        request: "01",
        reply: "00000008 000002042f322f33",
    },
    Said {
        seat: 0,
        request: "02 474c5744 01 04 2f322f33 00000001 0000000000010001 00 00000001 40000000 40000000 01",
        reply: "00000001 00",
    },
    Said {
        seat: 1,
        request: "03",
        reply: "00000005 0000000001, 00000024 474c574401042f322f330000000100000000000100010000000001400000004000000001",
    },
    Said {
        seat: 1,
        request: "03",
        reply: "00000005 0000000000",
    },
    Said {
        seat: 1,
        request: "02 474c5744 01 04 2f322f33 00000001 0000000000020002 00 00000001 40000001 40000000 01",
        reply: "00000001 00",
    },
    Said {
        seat: 0,
        request: "03",
        reply: "00000005 0000000002, 00000024 474c574401042f322f330000000100000000000100010000000001400000004000000001, 00000024 474c574401042f322f330000000100000000000200020000000001400000014000000001",
    },
    Said {
        seat: 1,
        request: "03",
        reply: "00000005 0000000001, 00000024 474c574401042f322f330000000100000000000200020000000001400000014000000001",
    },
    Said {
        seat: 2,
        request: "05 00000000",
        reply: "00000034 00 #CXRLE Pos=0,0 Gen=0|x = 2, y = 1, rule = /2/3|2A!|",
    },
    Said {
        seat: 2,
        request: "05 00000001",
        reply: "0000003b 00 #CXRLE Pos=0,-1 Gen=1|x = 2, y = 3, rule = /2/3|2A$2B$2A!|",
    },
    Said {
        seat: 2,
        request: "03",
        reply: "00000005 0000000002, 00000024 474c574401042f322f330000000100000000000100010000000001400000004000000001, 00000024 474c574401042f322f330000000100000000000200020000000001400000014000000001",
    },
    Said {
        seat: 2,
        request: "03",
        reply: "00000005 0000000000",
    },
    Said {
        seat: 2,
        request: "06",
        reply: "00000001 00, the last",
    },
];

/// The replies, each in a line, and those that are expected.
fn talked<J: Naming, R: Threads + Wait + Copy + Drop + Sync>(
    alloc: Global,
    sessions: &mut [SeatSession<J, R>],
) -> Result<(String, String), AllocError> {
    let mut replies = String::new(alloc);
    let mut expected = String::new(alloc);
    for said in &TALK {
        if let Some(session) = sessions.get_mut(said.seat) {
            let reply = answered(alloc, session, said.request)?;
            replies = format!(in alloc; "{replies}{reply}\n")?;
        }
        expected = format!(in alloc; "{expected}{}\n", said.reply)?;
    }
    Ok((replies, expected))
}

/// What three seats say, what they are to say, and what their board comes to.
fn talks<J: Naming + Send + 'static, R: Threads + Wait + Copy + Drop + Send + Sync + 'static>(
    rt: R,
    alloc: Global,
    opened: Opened<R>,
) -> Result<((String, String), Summary), Fail>
    requires origin { opened.publisher.origin ≡ J.origin }
    requires inbox { (arc_value opened.drain.queue).table.shared.table_id ≡ J.inbox }
{
    let (relay, seats) = opened.named::<J>()?;
    let relaying = begin_relaying(rt, alloc, relay)?;
    let mut sessions = sessions(rt, alloc, seats)?;
    let talked = talked(alloc, &mut sessions)?;
    Ok((talked, summed(&closed(rt, alloc, relaying, sessions)?)))
}

/// The edits of both, of which one is seat 1's.
const BOTH: Summary = Summary {
    before: 0,
    published: 2,
    accepted: 1,
    origin: (65537, 1),
};

#[test]
fn seats_are_handed_what_others_push(rt: HostRuntime) -> Result<(), Fail> {
    let rule = Rule::parse(b"/2/3")?;
    let opened = start(rt, rt.alloc(), rule, 3, 2)?;
    let ((replies, expected), board) = talks::<Brand, _>(rt, rt.alloc(), opened)?;
    assert_eq!(rt; replies.as_str(), expected.as_str());
    assert_eq!(rt; board, BOTH);
    Ok(())
}
