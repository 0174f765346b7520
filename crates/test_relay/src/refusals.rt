//! Submissions that are refused, and their order.

ghost use Rattle.std.specs.Prelude.{◌≡◌};
ghost use Rattle.std.specs.Arc.{arc_value};

use crate::drawn::{BRIANS_BRAIN, STAR_WARS, brians_board, drawn, submitted};
use crate::ending::{Summary, account, summed};
use crate::told::Told;
use edit_stamps::Edit;
use generations_rule::Rule;
use relay_board::{Gone, Naming, Opened, Relay, Seat, SubmitFault};
use std::alloc::Global;
use std::marker::Brand;
use std::sync::Wait;
use std::test::Fail;
use std::time::{Clock, Duration, Instant};

/// What came of a submission.
#[derive(Clone, Copy, Debug, PartialEq, Eq)]
pub enum Submitted {
    Accepted,
    /// The edit came back.
    Refused(SubmitFault),
    /// Another edit came back.
    Changed,
}

/// Submits an edit, and waits for no receipt.
pub fn submit<J: Naming, R: Wait>(
    rt: &R,
    seat: &mut Seat<J>,
    edit: Edit,
) -> Result<Submitted, Fail> {
    let copy = edit.copy()?;
    match seat.submit(rt, edit) {
        Ok(_pending) => Ok(Submitted::Accepted),
        Err((back, fault)) => {
            if back.same(&copy) {
                Ok(Submitted::Refused(fault))
            } else {
                Ok(Submitted::Changed)
            }
        }
    }
}

/// An edit of one cell of row 0.
struct Drawn {
    rule: &'static [u8],
    stamp: (u64, u16),
    x: i32,
    state: u8,
}

/// An edit of another replica; one with a state that the rule does not have; one that is both; two good ones
/// and a third.
static OPEN: [Drawn; 6] = [
    Drawn {
        rule: BRIANS_BRAIN,
        stamp: (1, 2),
        x: 0,
        state: 1,
    },
    Drawn {
        rule: STAR_WARS,
        stamp: (1, 1),
        x: 0,
        state: 3,
    },
    Drawn {
        rule: STAR_WARS,
        stamp: (1, 2),
        x: 0,
        state: 3,
    },
    Drawn {
        rule: BRIANS_BRAIN,
        stamp: (1, 1),
        x: 0,
        state: 1,
    },
    Drawn {
        rule: BRIANS_BRAIN,
        stamp: (2, 1),
        x: 1,
        state: 1,
    },
    Drawn {
        rule: BRIANS_BRAIN,
        stamp: (3, 1),
        x: 2,
        state: 1,
    },
];

/// A good edit behind the close, and one with a state that the rule does not have.
static CLOSED: [Drawn; 2] = [
    Drawn {
        rule: BRIANS_BRAIN,
        stamp: (3, 1),
        x: 2,
        state: 1,
    },
    Drawn {
        rule: STAR_WARS,
        stamp: (3, 1),
        x: 2,
        state: 3,
    },
];

/// What comes of edits that a seat submits.
fn submit_all<J: Naming, R: Wait>(
    rt: &R,
    alloc: Global,
    seat: &mut Seat<J>,
    edits: &[Drawn],
) -> Result<Vec<Submitted>, Fail> {
    let mut all = Vec::new(alloc);
    for row in edits {
        let rule = Rule::parse(row.rule)?;
        let edit = drawn(alloc, &rule, row.stamp, row.x, row.state).ok_or("edit")?;
        all.push(submit(rt, seat, edit)?)?;
    }
    Ok(all)
}

/// What comes of the edits before the close, and of those behind it.
fn all_submitted<J: Naming, R: Wait + Drop>(
    rt: &R,
    alloc: Global,
    relay: &mut Relay<J, R>,
    seats: &mut [Seat<J>],
) -> Result<[Vec<Submitted>; 2], Fail> {
    let [one, _two] = seats else {
        return Err(Fail::from("two seats"));
    };
    let open = submit_all(rt, alloc, one, &OPEN)?;
    relay.close();
    Ok([open, submit_all(rt, alloc, one, &CLOSED)?])
}

/// The same, and what the relay comes to.
fn is_refused<J: Naming, R: Wait + Drop + Copy>(
    rt: R,
    alloc: Global,
    opened: Opened<R>,
) -> Result<([Vec<Submitted>; 2], Option<Summary>), Fail>
    requires origin { opened.publisher.origin ≡ J.origin }
    requires inbox { (arc_value opened.drain.queue).table.shared.table_id ≡ J.inbox }
{
    let (mut relay, mut seats) = opened.named::<J>()?;
    let submitted = all_submitted(&rt, alloc, &mut relay, &mut seats)?;
    Ok((submitted, summed(&account(alloc, relay, seats)?)))
}

#[test]
fn what_is_refused_comes_back(rt: HostRuntime) -> Result<(), Fail> {
    let opened = brians_board(rt, rt.alloc(), 2, 2)?;
    let ([open, closed], summary) = is_refused::<Brand, _>(rt, rt.alloc(), opened)?;
    assert_eq!(rt;
        open.as_slice(),
        [
            Submitted::Refused(SubmitFault::NotYours),
            Submitted::Refused(SubmitFault::StateRange),
            Submitted::Refused(SubmitFault::NotYours),
            Submitted::Accepted,
            Submitted::Accepted,
            Submitted::Refused(SubmitFault::Full),
        ]
        .as_slice()
    );
    assert_eq!(rt;
        closed.as_slice(),
        [
            Submitted::Refused(SubmitFault::Closed),
            Submitted::Refused(SubmitFault::StateRange),
        ]
        .as_slice()
    );
    let both = Summary {
        before: 0,
        published: Told::Edits(1, 2),
        cells: 2,
        front: 2,
        seats: 2,
        accepted: (2, 0),
    };
    assert_eq!(rt; summary, Some(both));
    Ok(())
}

/// Whether a seat is told of a pending submission that the relay was dropped: by a wait, within 100
/// milliseconds, and by a look.
fn is_gone<J: Naming, R: Wait + Clock + Drop + Copy>(
    rt: R,
    alloc: Global,
    opened: Opened<R>,
) -> Result<(bool, bool, bool), Fail>
    requires origin { opened.publisher.origin ≡ J.origin }
    requires inbox { (arc_value opened.drain.queue).table.shared.table_id ≡ J.inbox }
{
    let (relay, mut seats) = opened.named::<J>()?;
    let mut one = seats.pop().ok_or("one")?;
    let first = submitted(&rt, alloc, &mut one, 1, 0)?;
    let second = submitted(&rt, alloc, &mut one, 2, 0)?;
    drop(relay);
    let begun = Instant::now(&rt).ok().ok_or("clock")?;
    let is_told = matches!(one.receive(&rt, first), Err(Gone));
    let ended = Instant::now(&rt).ok().ok_or("clock")?;
    let is_soon = match ended.checked_duration_since(begun) {
        Some(time) => time < Duration::from_millis(100),
        None => false,
    };
    Ok((
        is_told,
        is_soon,
        matches!(one.try_receive(&rt, second), Err(None)),
    ))
}

#[test]
fn a_dropped_relay_is_gone(rt: HostRuntime) -> Result<(), Fail> {
    let opened = brians_board(rt, rt.alloc(), 1, 2)?;
    let gone = is_gone::<Brand, _>(rt, rt.alloc(), opened)?;
    assert_eq!(rt; gone, (true, true, true));
    Ok(())
}
