//! The end of a relay.

ghost use Rattle.std.specs.Prelude.{◌≡◌};
ghost use Rattle.std.specs.Arc.{arc_value};

use crate::drawn::brians_board;
use crate::told::{Told, tell_edits};
use relay_board::{Account, Naming, Opened, Relay, Seat, in_order, is_whole};
use std::alloc::Global;
use std::marker::Brand;
use std::slice;
use std::sync::Wait;
use std::test::Fail;

/// What a relay and all its seats come to, once the relay was closed.
pub fn account<J: Naming, R: Wait + Drop>(
    alloc: Global,
    relay: Relay<J, R>,
    seats: Vec<Seat<J>>,
) -> Result<Account, Fail> {
    if !is_whole(&relay, seats.as_slice()) {
        return Err(Fail::from("whole"));
    }
    match relay.finish(alloc, seats) {
        Ok(account) => Ok(account),
        Err((_, _, fault)) => Err(Fail::from(fault)),
    }
}

/// An account in plain values.
#[derive(Clone, Copy, Debug, PartialEq, Eq)]
pub struct Summary {
    pub before: u64,
    pub published: Told,
    /// How many cells its plane has.
    pub cells: usize,
    /// How many edits its front has.
    pub front: u64,
    pub seats: usize,
    /// How many submissions of the first two seats were accepted, 0 of a seat that is not there.
    pub accepted: (u64, u64),
}

pub fn summed(account: &Account) -> Option<Summary> {
    let accepted = account.accepted.as_slice();
    let first = accepted.first().copied();
    let second = accepted.get(1).copied();
    Some(Summary {
        before: account.before,
        published: tell_edits(account.published.as_slice()),
        cells: account.plane.walk().ok()?.len(),
        front: account.front.len(),
        seats: accepted.len(),
        accepted: (first.unwrap_or(0), second.unwrap_or(0)),
    })
}

/// Closes a relay that published nothing, and finishes.
fn closes<J: Naming, R: Wait + Drop>(
    alloc: Global,
    opened: Opened<R>,
) -> Result<Option<Summary>, Fail>
    requires origin { opened.publisher.origin ≡ J.origin }
    requires inbox { (arc_value opened.drain.queue).table.shared.table_id ≡ J.inbox }
{
    let (mut relay, seats) = opened.named::<J>()?;
    relay.close();
    Ok(summed(&account(alloc, relay, seats)?))
}

/// What a relay with so many seats comes to at once.
fn closed_at_once<R: Wait + Drop>(
    rt: R,
    alloc: Global,
    sessions: u16,
) -> Result<Option<Summary>, Fail> {
    let opened = brians_board(rt, alloc, sessions, 1)?;
    closes::<Brand, _>(alloc, opened)
}

#[test]
fn finishes_with_as_many_seats_as_it_made(rt: HostRuntime) -> Result<(), Fail> {
    for sessions in [1u16, 2, 64] {
        let nothing = Summary {
            before: 0,
            published: Told::Edits(0, 0),
            cells: 0,
            front: 0,
            seats: usize::from(sessions),
            accepted: (0, 0),
        };
        assert_eq!(rt; closed_at_once(rt, rt.alloc(), sessions)?, Some(nothing));
    }
    Ok(())
}

/// Whether seats stand in order and are whole.
fn asked<J: Naming, R: Wait + Drop>(relay: &Relay<J, R>, seats: &[Seat<J>]) -> (bool, bool) {
    (in_order(seats), is_whole(relay, seats))
}

/// What is answered of two seats before the relay was closed, behind that, in the other order, of one of
/// the two, and of none.
fn all_asked<J: Naming, R: Wait + Drop>(opened: Opened<R>) -> Result<[(bool, bool); 5], Fail>
    requires origin { opened.publisher.origin ≡ J.origin }
    requires inbox { (arc_value opened.drain.queue).table.shared.table_id ≡ J.inbox }
{
    let (mut relay, mut seats) = opened.named::<J>()?;
    let open = asked(&relay, &seats);
    relay.close();
    let whole = asked(&relay, &seats);
    let [one, _two] = seats.as_slice() else {
        return Err(Fail::from("two seats"));
    };
    let first = asked(&relay, slice::from_ref(one));
    seats.reverse();
    let turned = asked(&relay, &seats);
    seats.clear();
    Ok([open, whole, turned, first, asked(&relay, &seats)])
}

#[test]
fn what_is_not_whole_is_told(rt: HostRuntime) -> Result<(), Fail> {
    let opened = brians_board(rt, rt.alloc(), 2, 1)?;
    let asked = all_asked::<Brand, _>(opened)?;
    assert_eq!(rt;
        asked,
        [
            (true, false),
            (true, true),
            (false, false),
            (true, false),
            (true, false),
        ]
    );
    Ok(())
}
