//! Boards, and the edits that seats submit.

use edit_stamps::{Cell, Edit, Stamp};
use generations_rule::Rule;
use relay_board::{Naming, Opened, Pending, Seat, start};
use std::alloc::Global;
use std::sync::Wait;
use std::test::Fail;

pub const BRIANS_BRAIN: &[u8] = b"/2/3";

pub const STAR_WARS: &[u8] = b"345/2/4";

/// A board of Brian's Brain for so many sessions, with room for so many submissions.
pub fn brians_board<R: Wait + Drop>(
    rt: R,
    alloc: Global,
    sessions: u16,
    inbox: u16,
) -> Result<Opened<R>, Fail> {
    Ok(start(rt, alloc, Rule::parse(BRIANS_BRAIN)?, sessions, inbox)?)
}

/// The edit that writes a state at a cell of row 0.
pub fn drawn(
    alloc: Global,
    rule: &Rule,
    (counter, replica): (u64, u16),
    x: i32,
    state: u8,
) -> Option<Edit> {
    let stamp = Stamp::new(counter, replica)?;
    let cell = Cell { x, y: 0, state };
    Edit::cells(alloc, rule, stamp, &[cell]).ok()
}

/// Submits a seat's edit with this counter, which writes state 1 at a cell of row 0.
pub fn submitted<J: Naming, R: Wait>(
    rt: &R,
    alloc: Global,
    seat: &mut Seat<J>,
    counter: u64,
    x: i32,
) -> Result<Pending<J>, Fail> {
    let stamp = (counter, seat.number());
    let edit = drawn(alloc, &seat.rule(), stamp, x, 1).ok_or("edit")?;
    Ok(seat.submit(rt, edit)?)
}
