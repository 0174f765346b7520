//! A board that is kept in a file, and the file's seat.

ghost use Rattle.std.specs.Prelude.{◌≡◌};
ghost use Rattle.std.specs.Arc.{arc_value};

use crate::drawn::{BRIANS_BRAIN, STAR_WARS, drawn, submitted};
use crate::ending::{Summary, account, summed};
use crate::refusals::Submitted;
use crate::told::Told;
use generations_rule::Rule;
use relay_board::{BoardSize, FileSeat, Naming, Opened, Relay, Seat, SubmitFault, start_within};
use square_store::Limits;
use std::alloc::Global;
use std::marker::Brand;
use std::sync::Wait;
use std::test::Fail;

/// A board of Brian's Brain that is kept in a file.
fn kept_board<R: Wait + Drop>(
    rt: R,
    alloc: Global,
    sessions: u16,
    inbox: u16,
) -> Result<Opened<R>, Fail> {
    let size = BoardSize {
        first: 1,
        sessions,
        inbox,
        is_kept: true,
        limits: Limits::usual(),
    };
    Ok(start_within(rt, alloc, Rule::parse(BRIANS_BRAIN)?, size)?)
}

/// The file's seat, where its stamps need not rise.
fn of_file<J: Naming>(seat: Seat<J>) -> Result<FileSeat<J>, Fail> {
    match seat.floor() {
        Some(_) => Err(Fail::from("floor")),
        None => Ok(FileSeat::of(seat)),
    }
}

/// Brings an edit under a rule, with this stamp, and waits for no receipt.
fn brought<J: Naming, R: Wait>(
    rt: &R,
    alloc: Global,
    file: &mut FileSeat<J>,
    (rule, state): (&[u8], u8),
    stamp: (u64, u16),
) -> Result<Submitted, Fail> {
    let edit = drawn(alloc, &Rule::parse(rule)?, stamp, 0, state).ok_or("edit")?;
    let copy = edit.copy()?;
    match file.bring(rt, edit) {
        Ok(_pending) => Ok(Submitted::Accepted),
        Err((back, fault)) => {
            if back.same(&copy) {
                Ok(Submitted::Refused(fault))
            } else {
                Ok(Submitted::Changed)
            }
        }
    }
}

/// An edit that the rule has, and one that it has not.
const GOOD: (&[u8], u8) = (BRIANS_BRAIN, 1);

const BAD: (&[u8], u8) = (STAR_WARS, 3);

/// What comes of edits that a file brings, with room for four in the inbox.
fn brings<J: Naming, R: Wait + Drop>(
    rt: &R,
    alloc: Global,
    relay: &mut Relay<J, R>,
    file: &mut FileSeat<J>,
) -> Result<[Submitted; 7], Fail> {
    let first = brought(rt, alloc, file, GOOD, (4, 1))?;
    let other = brought(rt, alloc, file, GOOD, (5, 7))?;
    let own = brought(rt, alloc, file, GOOD, (6, 2))?;
    let range = brought(rt, alloc, file, BAD, (7, 1))?;
    let last = brought(rt, alloc, file, GOOD, (7, u16::MAX))?;
    let full = brought(rt, alloc, file, GOOD, (8, 1))?;
    relay.close();
    let late = brought(rt, alloc, file, GOOD, (8, 1))?;
    Ok([first, other, own, range, last, full, late])
}

/// The same, how many of them were accepted, and what the relay comes to, with the file's seat last.
fn is_brought<J: Naming, R: Wait + Drop + Copy>(
    rt: R,
    alloc: Global,
    opened: Opened<R>,
) -> Result<([Submitted; 7], u64, Option<Summary>), Fail>
    requires origin { opened.publisher.origin ≡ J.origin }
    requires inbox { (arc_value opened.drain.queue).table.shared.table_id ≡ J.inbox }
{
    let (mut relay, mut seats) = opened.named::<J>()?;
    let mut file = of_file(seats.pop().ok_or("file")?)?;
    let brought = brings(&rt, alloc, &mut relay, &mut file)?;
    let accepted = file.accepted();
    seats.push(file.into_seat())?;
    Ok((brought, accepted, summed(&account(alloc, relay, seats)?)))
}

#[test]
fn a_file_brings_edits_of_every_replica(rt: HostRuntime) -> Result<(), Fail> {
    let opened = kept_board(rt, rt.alloc(), 1, 4)?;
    let (brought, accepted, summary) = is_brought::<Brand, _>(rt, rt.alloc(), opened)?;
    let expected = [
        Submitted::Accepted,
        Submitted::Accepted,
        Submitted::Accepted,
        Submitted::Refused(SubmitFault::StateRange),
        Submitted::Accepted,
        Submitted::Refused(SubmitFault::Full),
        Submitted::Refused(SubmitFault::Closed),
    ];
    assert_eq!(rt; brought, expected);
    assert_eq!(rt; accepted, 4);
    let all = Summary {
        before: 0,
        published: Told::Edits(4, 4),
        cells: 1,
        front: 4,
        seats: 2,
        accepted: (0, 4),
    };
    assert_eq!(rt; summary, Some(all));
    Ok(())
}

/// A file's edit, and then one of a session: what the relay comes to.
fn is_mixed<J: Naming, R: Wait + Drop + Copy>(
    rt: R,
    alloc: Global,
    opened: Opened<R>,
) -> Result<Option<Summary>, Fail>
    requires origin { opened.publisher.origin ≡ J.origin }
    requires inbox { (arc_value opened.drain.queue).table.shared.table_id ≡ J.inbox }
{
    let (mut relay, mut seats) = opened.named::<J>()?;
    let mut file = of_file(seats.pop().ok_or("file")?)?;
    let _old = brought(&rt, alloc, &mut file, GOOD, (1, 1))?;
    let one = seats.first_mut().ok_or("one")?;
    let _pending = submitted(&rt, alloc, one, 2, 1)?;
    relay.close();
    seats.push(file.into_seat())?;
    Ok(summed(&account(alloc, relay, seats)?))
}

#[test]
fn a_session_draws_behind_a_file(rt: HostRuntime) -> Result<(), Fail> {
    let opened = kept_board(rt, rt.alloc(), 1, 4)?;
    let both = Summary {
        before: 0,
        published: Told::Edits(1, 2),
        cells: 2,
        front: 2,
        seats: 2,
        accepted: (1, 1),
    };
    assert_eq!(rt; is_mixed::<Brand, _>(rt, rt.alloc(), opened)?, Some(both));
    Ok(())
}

/// How many seats a relay of 64 sessions comes to at once, with the file's.
fn ends<J: Naming, R: Wait + Drop>(alloc: Global, opened: Opened<R>) -> Result<Option<usize>, Fail>
    requires origin { opened.publisher.origin ≡ J.origin }
    requires inbox { (arc_value opened.drain.queue).table.shared.table_id ≡ J.inbox }
{
    let (mut relay, seats) = opened.named::<J>()?;
    relay.close();
    let Some(summary) = summed(&account(alloc, relay, seats)?) else {
        return Ok(None);
    };
    Ok(Some(summary.seats))
}

#[test]
fn sixty_four_sessions_and_a_file_have_a_seat_each(rt: HostRuntime) -> Result<(), Fail> {
    let opened = kept_board(rt, rt.alloc(), 64, 1)?;
    assert_eq!(rt; opened.count, 65);
    assert_eq!(rt; ends::<Brand, _>(rt.alloc(), opened)?, Some(65));
    Ok(())
}
