//! A clock that is full, and a store that is.

ghost use Rattle.std.specs.Prelude.{◌≤◌};

use crate::memory::replicas::{Holding, begun, draw, held, spec, take, take_bytes};
use crate::memory::{is_fault, states, tell_all, texts};
use edit_stamps::{Rect, Write};
use generations_rule::Rule;
use pattern_cells::Cell;
use replica_core::{EditSpec, Fault, Replica};
use std::alloc::Global;
use std::io;

/// The delta of one edit with the last counter, 2^48 - 1: state 1 at the origin.
const LAST: &[u8] =
    b"GLWD\x01\x04/2/3\0\0\0\x01\xff\xff\xff\xff\xff\xff\0\x01\0\0\0\0\x01\x40\0\0\0\x40\0\0\0\x01";

/// The same with counter 1.
pub const FIRST: &[u8] =
    b"GLWD\x01\x04/2/3\0\0\0\x01\0\0\0\0\0\x01\0\x01\0\0\0\0\x01\x40\0\0\0\x40\0\0\0\x01";

const UNWRITTEN: Write = Write { stamp: 0, state: 0 };

/// What a replica holds that took the last counter, and no more or one edit behind it.
fn full(edits: usize, last: u64) -> Holding {
    let write = Write {
        stamp: 0xffff_ffff_ffff_0001,
        state: 1,
    };
    Holding {
        writes: [write, UNWRITTEN],
        edits,
        last,
        greatest: write.stamp,
    }
}

/// What a replica holds that took nothing and drew nothing.
const NOTHING: Holding = Holding {
    writes: [UNWRITTEN, UNWRITTEN],
    edits: 0,
    last: 0,
    greatest: 0,
};

pub fn tell_calls(rt: &impl Print, alloc: Global) -> io::Result<()> {
    tell_all(
        rt,
        "clocks",
        &[
            ("Replica::draw at the last counter", clock_is_full(alloc)),
            ("Replica::take at the last counter", last_is_taken(alloc)),
            ("Replica::with_room refused", store_is_full(alloc)),
        ],
    )
}

/// Whether a draw is refused for the clock, which wants no memory.
fn is_refused(replica: &mut Replica, spec: EditSpec) -> bool {
    is_fault(replica.draw(spec), Fault::ClockFull)
}

/// Whether each kind of draw is refused.
fn refuses(alloc: Global, replica: &mut Replica) -> bool {
    let area = Rect {
        x: 0,
        y: 0,
        width: 8,
        height: 8,
    };
    is_refused_of(replica, spec(alloc, &[cell!(1, 0, 1)]))
        && is_refused_of(replica, pasted(alloc, true))
        && is_refused_of(replica, pasted(alloc, false))
        && is_refused(replica, EditSpec::Clear(area))
}

/// The same of a draw for which there was memory.
fn is_refused_of(replica: &mut Replica, spec: Option<EditSpec>) -> bool {
    match spec {
        Some(spec) => is_refused(replica, spec),
        None => false,
    }
}

/// A paste at the origin, of a whole box or of its cells alone.
fn pasted(alloc: Global, is_whole: bool) -> Option<EditSpec> {
    let pattern = texts::pattern(alloc)?;
    if is_whole {
        Some(EditSpec::Copy(pattern, 0, 0))
    } else {
        Some(EditSpec::Or(pattern, 0, 0))
    }
}

/// A replica of the rule of those deltas, which takes what others drew.
fn taker(alloc: Global) -> Option<Replica> {
    begun(alloc, Rule::parse(b"/2/3").ok()?, 2)
}

/// A clock is full behind the last counter, and the first is taken then.
fn clock_is_full(alloc: Global) -> bool {
    let Some(mut replica) = taker(alloc) else {
        return false;
    };
    take_bytes(&mut replica, LAST).is_ok()
        && held(&replica) == full(1, 0xffff_ffff_ffff_0001)
        && refuses(alloc, &mut replica)
        && take_bytes(&mut replica, FIRST).is_ok()
        && held(&replica) == full(2, 65537)
}

/// Whether the message of a text is taken.
fn takes(alloc: Global, replica: &mut Replica, text: &[u8]) -> bool {
    match states::message(alloc, &replica.rule(), text) {
        Ok(message) => take(replica, &message).is_ok(),
        Err(_) => false,
    }
}

/// The same by messages, and without a draw between.
fn last_is_taken(alloc: Global) -> bool {
    let Some(mut replica) = taker(alloc) else {
        return false;
    };
    takes(alloc, &mut replica, LAST)
        && held(&replica) == full(1, 0xffff_ffff_ffff_0001)
        && takes(alloc, &mut replica, FIRST)
        && held(&replica) == full(2, 65537)
}

/// A new replica with room for so many squares.
fn small(alloc: Global, nodes: u32) -> Option<Replica>
    requires { 1 ≤ nodes }
{
    let rule = Rule::parse(b"/2/3").ok()?;
    again!(Fault::Memory, Replica::with_room(alloc, rule, 2, nodes)).ok()
}

/// One square less than one cell wants: an edit is neither taken nor drawn, and the replica holds nothing.
fn store_is_full(alloc: Global) -> bool {
    let Some(mut replica) = small(alloc, 29) else {
        return false;
    };
    match spec(alloc, &[cell!(0, 0, 1)]) {
        Some(spec) => has_no_room(&mut replica, &spec),
        None => false,
    }
}

fn has_no_room(replica: &mut Replica, spec: &EditSpec) -> bool {
    is_fault(take_bytes(replica, FIRST), Fault::StoreFull)
        && is_fault(draw(replica, spec), Fault::StoreFull)
        && held(replica) == NOTHING
}
