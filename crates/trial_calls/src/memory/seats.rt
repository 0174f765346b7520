//! Calls of relays and seats, once more where memory is refused, and what comes of them.

use edit_stamps::{Cell, Edit};
use relay_board::{
    Account, FinishFault, Naming, News, Pending, Receipt, Relay, Seat, SeatFault, SubmitFault,
    Turn, TurnFault, is_whole,
};
use stamped_tree::Plane;
use std::alloc::{AllocError, Global};
use std::sync::Wait;

/// The number of the first stamp: counter 1, replica 1.
pub const FIRST: u64 = 65537;

/// What tells an edit from the others here: the number of its stamp, and its first cell.
fn told(edit: &Edit) -> (u64, Option<Cell>) {
    (edit.stamp().number(), edit.listed_cells().first().copied())
}

/// What a submission comes to: where it is refused nothing was accepted and the edit comes back, or there
/// is no fault to tell.
type Submitted<J> = Result<Pending<J>, Option<(Edit, SubmitFault)>>;

fn submitted_once<J: Naming, R: Wait>(rt: &R, seat: &mut Seat<J>, edit: Edit) -> Submitted<J> {
    let before = (told(&edit), seat.accepted());
    match seat.submit(rt, edit) {
        Ok(pending) => Ok(pending),
        Err((edit, fault)) if (told(&edit), seat.accepted()) == before => Err(Some((edit, fault))),
        Err(_) => Err(None),
    }
}

/// Submits an edit, once more where memory is refused.
pub fn submitted<J: Naming, R: Wait>(rt: &R, seat: &mut Seat<J>, edit: Edit) -> Submitted<J> {
    match submitted_once(rt, seat, edit) {
        Err(Some((edit, SubmitFault::Memory))) => submitted_once(rt, seat, edit),
        answer => answer,
    }
}

/// Takes a turn. Where memory is refused a seat sees at the origin what it saw, and the next turn tries the
/// same entry.
pub fn turned<J: Naming, R: Wait + Drop>(relay: &mut Relay<J, R>, seat: &mut Seat<J>) -> Turn {
    let before = seat.view(0, 0);
    let turn = relay.turn();
    if turn == Turn::Failed(TurnFault::Memory) && seat.view(0, 0) == before {
        return relay.turn();
    }
    turn
}

/// Polls. Where memory is refused, the next poll gives what this one would have given.
pub fn polled<J: Naming>(seat: &mut Seat<J>) -> Result<News, SeatFault> {
    again!(SeatFault::Memory, seat.poll())
}

/// Whether a poll hands out the edits of all counters from one on, so many.
pub fn hands_out<J: Naming>(seat: &mut Seat<J>, first: u64, count: usize) -> bool {
    match polled(seat) {
        Ok(News::Edits(edits)) => are_from(edits.as_slice(), first, count),
        _ => false,
    }
}

/// Whether edits are those of replica 1 with all counters from one on, so many.
fn are_from(edits: &[Edit], first: u64, count: usize) -> bool {
    let mut counter = first;
    for edit in edits {
        if edit.stamp().counter() != counter || edit.stamp().replica() != 1 {
            return false;
        }
        counter = counter.wrapping_add(1);
    }
    edits.len() == count
}

/// Whether a seat reads a plane of so many columns.
pub fn reads<J: Naming>(seat: &mut Seat<J>, columns: usize) -> bool {
    match again!(SeatFault::Memory, seat.plane()) {
        Ok(plane) => has_row(&plane, columns),
        Err(_) => false,
    }
}

/// Whether a plane has live cells in so many columns of row 0, from the origin on, and no others.
pub fn has_row(plane: &Plane, count: usize) -> bool {
    let Ok(cells) = again!(AllocError, plane.walk()) else {
        return false;
    };
    let mut column = 0_i32;
    for cell in &cells {
        if *cell != cell!(column, 0, 1) {
            return false;
        }
        column = column.wrapping_add(1);
    }
    cells.len() == count
}

/// What a relay's account has: edits of replica 1, with the counters from 1 on.
#[derive(Drop)]
pub struct Ended {
    /// How many came before those that it lists.
    pub before: u16,
    pub published: u16,
    /// How many submissions of each seat were accepted.
    pub accepted: &'static [u64],
}

/// How a closed relay finishes; `None` where it is not whole.
fn attempted<J: Naming, R: Wait + Drop>(
    alloc: Global,
    relay: Relay<J, R>,
    seats: Vec<Seat<J>>,
) -> Option<Result<Account, (Relay<J, R>, Vec<Seat<J>>, FinishFault)>> {
    if !is_whole(&relay, seats.as_slice()) {
        return None;
    }
    Some(relay.finish(alloc, seats))
}

/// How many seats there are, and how many submissions of the first were accepted.
fn counted<J: Naming>(seats: &[Seat<J>]) -> (usize, u64) {
    (seats.len(), seats.first().map_or(0, |seat| seat.accepted()))
}

/// How it finishes, at the second time where memory is refused: all its seats come back then.
pub fn finished<J: Naming, R: Wait + Drop>(
    alloc: Global,
    relay: Relay<J, R>,
    seats: Vec<Seat<J>>,
) -> Option<Result<Account, FinishFault>> {
    let before = counted(&seats);
    let (relay, seats, fault) = match attempted(alloc, relay, seats)? {
        Ok(account) => return Some(Ok(account)),
        Err(back) => back,
    };
    if counted(&seats) != before {
        return None;
    }
    if fault != FinishFault::Memory {
        return Some(Err(fault));
    }
    match attempted(alloc, relay, seats)? {
        Ok(account) => Some(Ok(account)),
        Err((_, _, fault)) => Some(Err(fault)),
    }
}

/// Whether an account is meant, of one edit at least: the first wrote the origin.
pub fn is_account(account: &Account, meant: &Ended) -> bool {
    let (before, published) = (u64::from(meant.before), usize::from(meant.published));
    account.before == before
        && account.plane.get(0, 0).stamp == FIRST
        && are_from(
            account.published.as_slice(),
            before.wrapping_add(1),
            published,
        )
        && account.accepted.as_slice() == meant.accepted
        && has_row(
            &account.plane,
            published.wrapping_add(usize::from(meant.before)),
        )
}
