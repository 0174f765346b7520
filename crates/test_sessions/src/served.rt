//! A service over the one seat of a board, by devices that fail.

ghost use Rattle.std.specs.Prelude.{◌≡◌};
ghost use Rattle.std.specs.Arc.{arc_value};

use crate::boards::{Summary, begin_relaying, summed};
use crate::failing::{Keeper, Pieces};
use crate::seats::{SeatSession, closed, sessions};
use crate::streams::REQUESTS;
use crate::texts::bytes_of;
use frame_service::{ServeFault, Served};
use generations_rule::Rule;
use relay_board::{Naming, Opened, start};
use session_service::{Unheard, serve};
use std::alloc::{AllocError, Global};
use std::marker::Brand;
use std::sync::Wait;
use std::test::Fail;
use std::thread::Threads;

/// The five frames of the replies to the four requests: the seat and the rule, done, one edit, that edit, done.
const REPLIES: &str = "00000008 00 0001 04 2f322f33 00000001 00 00000005 00 00000001 \
    00000024 474c5744 01 04 2f322f33 00000001 0000000000010001 00 00000001 40000000 40000000 01 \
    00000001 00";

/// How many bytes a pull gives at most, which pull fails, which push fails, and how many bytes it takes
/// before. 0 for none.
#[derive(Clone, Copy)]
struct Devices {
    size: usize,
    pull: u64,
    push: u64,
    part: usize,
}

/// What came of a service, and of the board that was closed behind it.
#[derive(Clone, Copy, Debug, PartialEq, Eq)]
struct Outcome {
    end: Result<Served, ServeFault>,
    /// How often it pushed.
    pushes: u64,
    /// How many bytes were taken, where they are the first of the replies.
    taken: Option<usize>,
    board: Summary,
}

const NOTHING: Summary = Summary {
    before: 0,
    published: 0,
    accepted: 0,
    origin: (0, 0),
};

/// The edit of counter 1 and replica 1.
const ONE_EDIT: Summary = Summary {
    before: 0,
    published: 1,
    accepted: 1,
    origin: (65537, 1),
};

/// How many bytes there are, where they are the first of the replies.
fn replied(alloc: Global, bytes: &[u8]) -> Result<Option<usize>, AllocError> {
    let replies = bytes_of(alloc, REPLIES)?;
    let is_front = replies.starts_with(bytes);
    Ok(if is_front { Some(bytes.len()) } else { None })
}

/// How a service of the requests ends over a session, how often it pushed, and how many bytes were taken, where
/// they are the first of the replies.
fn served<J: Naming, R: Threads + Wait + Drop + Sync>(
    alloc: Global,
    session: &mut SeatSession<J, R>,
    devices: Devices,
) -> Result<(Result<Served, ServeFault>, u64, Option<usize>), AllocError> {
    let requests = bytes_of(alloc, REQUESTS)?;
    let mut source = Pieces::of(&requests, devices.size, devices.pull);
    let mut sink = Keeper::new(alloc, devices.push, devices.part);
    let end = serve(&mut source, &mut sink, session, &mut Unheard);
    Ok((end, sink.pushes, replied(alloc, &sink.bytes)?))
}

/// The requests, served over the one seat.
fn serves<J: Naming + Send + 'static, R: Threads + Wait + Copy + Drop + Send + Sync + 'static>(
    rt: R,
    alloc: Global,
    opened: Opened<R>,
    devices: Devices,
) -> Result<Outcome, Fail>
    requires origin { opened.publisher.origin ≡ J.origin }
    requires inbox { (arc_value opened.drain.queue).table.shared.table_id ≡ J.inbox }
{
    let (relay, seats) = opened.named::<J>()?;
    let relaying = begin_relaying(rt, alloc, relay)?;
    let mut sessions = sessions(rt, alloc, seats)?;
    let [session] = sessions.as_mut_slice() else {
        return Err(Fail::from("one session"));
    };
    let (end, pushes, taken) = served(alloc, session, devices)?;
    let board = summed(&closed(rt, alloc, relaying, sessions)?);
    Ok(Outcome {
        end,
        pushes,
        taken,
        board,
    })
}

/// The same, on a board that is started for it.
fn outcome_by<R: Threads + Wait + Copy + Drop + Send + Sync + 'static>(
    rt: R,
    alloc: Global,
    devices: Devices,
) -> Result<Outcome, Fail> {
    let rule = Rule::parse(b"/2/3")?;
    let opened = start(rt, alloc, rule, 1, 2)?;
    serves::<Brand, R>(rt, alloc, opened, devices)
}

/// All four requests.
const ALL: Outcome = Outcome {
    end: Ok(Served {
        requests: 4,
        bye: true,
    }),
    pushes: 5,
    taken: Some(71),
    board: ONE_EDIT,
};

#[test]
fn a_seat_is_served(rt: HostRuntime) -> Result<(), Fail> {
    for size in [1, 5, 4096] {
        let devices = Devices {
            size,
            pull: 0,
            push: 0,
            part: 0,
        };
        assert_eq!(rt; outcome_by(rt, rt.alloc(), devices)?, ALL, "by {size}");
    }
    Ok(())
}

/// What has gone out once so many bytes were pulled, up to the next request's last.
#[derive(Clone, Copy)]
struct Answered {
    bytes: u64,
    pushes: u64,
    taken: usize,
    board: Summary,
}

/// The four requests end at 5, 46, 51 and 56 bytes.
static ANSWERED: [Answered; 4] = [
    Answered {
        bytes: 0,
        pushes: 0,
        taken: 0,
        board: NOTHING,
    },
    Answered {
        bytes: 5,
        pushes: 1,
        taken: 12,
        board: NOTHING,
    },
    Answered {
        bytes: 46,
        pushes: 2,
        taken: 17,
        board: ONE_EDIT,
    },
    Answered {
        bytes: 51,
        pushes: 4,
        taken: 66,
        board: ONE_EDIT,
    },
];

/// What comes of it where a pull of one byte fails: what was given before it was answered.
fn failed_pull(pull: u64) -> Outcome {
    let mut last = ANSWERED[0];
    for answered in ANSWERED {
        if answered.bytes < pull {
            last = answered;
        }
    }
    Outcome {
        end: Err(ServeFault::Read),
        pushes: last.pushes,
        taken: Some(last.taken),
        board: last.board,
    }
}

#[test]
fn what_was_pulled_is_answered_where_the_source_fails(rt: HostRuntime) -> Result<(), Fail> {
    for pull in 1..57 {
        let devices = Devices {
            size: 1,
            pull,
            push: 0,
            part: 0,
        };
        let outcome = outcome_by(rt, rt.alloc(), devices)?;
        assert_eq!(rt; outcome, failed_pull(pull), "at pull {pull}");
    }
    Ok(())
}

/// A frame of the replies: how many bytes go out before it, how many it has, and the board behind its push.
struct Frame {
    before: usize,
    length: usize,
    board: Summary,
}

static FRAMES: [Frame; 5] = [
    Frame {
        before: 0,
        length: 12,
        board: NOTHING,
    },
    Frame {
        before: 12,
        length: 5,
        board: ONE_EDIT,
    },
    Frame {
        before: 17,
        length: 9,
        board: ONE_EDIT,
    },
    Frame {
        before: 26,
        length: 40,
        board: ONE_EDIT,
    },
    Frame {
        before: 66,
        length: 5,
        board: ONE_EDIT,
    },
];

/// What comes of it where the push of a frame fails that takes so many bytes of it.
fn failed_push(push: u64, frame: &Frame, part: usize) -> Outcome {
    Outcome {
        end: Err(ServeFault::Write),
        pushes: push,
        taken: Some(frame.before.wrapping_add(part)),
        board: frame.board,
    }
}

#[test]
fn nothing_goes_out_behind_a_push_that_fails(rt: HostRuntime) -> Result<(), Fail> {
    let mut push = 0_u64;
    for frame in &FRAMES {
        push = push.wrapping_add(1);
        for part in [0, 1, 4, frame.length] {
            let devices = Devices {
                size: 4096,
                pull: 0,
                push,
                part,
            };
            let outcome = outcome_by(rt, rt.alloc(), devices)?;
            assert_eq!(rt;
                outcome,
                failed_push(push, frame, part),
                "{part} of frame {push}"
            );
        }
    }
    Ok(())
}
