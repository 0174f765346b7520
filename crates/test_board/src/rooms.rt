//! Inboxes that are full and empty.

ghost use Rattle.std.specs.Prelude.{◌<◌};

use crate::sender::{Inbox, Put, Sender, open_inbox};
use inbox::{Drain, Refused};
use std::alloc::Global;
use std::sync::Wait;

/// Puts entries until one is refused, but no more than 2,000, and tells what came of the last.
fn fills<R: Wait>(rt: &R, sender: &mut Sender) -> Put {
    for _ in 0..2000 {
        let next = sender.post.accepted().wrapping_add(1);
        let put = sender.put(rt, next);
        if put != Put::Accepted {
            return put;
        }
    }
    Put::Nothing
}

/// Takes entries until none is left, but no more than 2,000, and tells how many.
fn empties<R: Wait>(rt: &R, drain: &mut Drain) -> usize {
    let mut taken = 0usize;
    for _ in 0..2000 {
        if drain.take(rt).is_none() {
            break;
        }
        taken = taken.wrapping_add(1);
    }
    taken
}

/// What was counted in an inbox.
#[derive(Clone, Copy, Debug, PartialEq, Eq)]
struct Counted {
    accepted: u64,
    taken: usize,
    /// Pushes that found it full.
    full: u64,
    /// Takes that found it empty.
    empties: u64,
}

/// An inbox that is found empty, is filled, is found full, and is emptied: what came of the last put, and
/// what was counted.
fn count_in<R: Wait>(rt: &R, alloc: Global, room: usize) -> Option<(Put, Counted)>
    requires { 0 < room }
{
    let Inbox {
        mut drain,
        mut one,
        two: _,
    } = open_inbox(alloc, room)?;
    let taken = empties(rt, &mut drain);
    let put = fills(rt, &mut one);
    let taken = taken.wrapping_add(empties(rt, &mut drain));
    Some((
        put,
        Counted {
            accepted: one.post.accepted(),
            taken,
            full: one.post.full,
            empties: drain.empties,
        },
    ))
}

/// Rooms, and what is counted in each.
static ROOMS: [(usize, Put, Counted); 3] = [
    (
        1,
        Put::Refused(2, Refused::Full),
        Counted {
            accepted: 1,
            taken: 1,
            full: 1,
            empties: 2,
        },
    ),
    (
        2,
        Put::Refused(3, Refused::Full),
        Counted {
            accepted: 2,
            taken: 2,
            full: 1,
            empties: 2,
        },
    ),
    (
        1024,
        Put::Refused(1025, Refused::Full),
        Counted {
            accepted: 1024,
            taken: 1024,
            full: 1,
            empties: 2,
        },
    ),
];

#[test]
fn an_inbox_holds_as_many_as_it_has_room_for(rt: HostRuntime) {
    for (room, put, count) in &ROOMS {
        let told = count_in(&rt, rt.alloc(), (*room).max(1));
        assert_eq!(rt; told, Some((*put, *count)), "in a room for {room}");
    }
}

/// The seats of what is taken, in order, where seat 0 puts, seat 1 twice, and seat 0 again.
fn seats_taken<R: Wait>(rt: &R, alloc: Global) -> Option<[u64; 4]> {
    let Inbox {
        mut drain,
        mut one,
        mut two,
    } = open_inbox(alloc, 4)?;
    let puts = [
        one.put(rt, 1),
        two.put(rt, 1),
        two.put(rt, 2),
        one.put(rt, 2),
    ];
    if puts != [Put::Accepted; 4] {
        return None;
    }
    let mut seats = [9; 4];
    for seat in &mut seats {
        *seat = drain.take(rt)?.entry.seat;
    }
    Some(seats)
}

#[test]
fn what_was_put_first_is_taken_first(rt: HostRuntime) {
    assert_eq!(rt; seats_taken(&rt, rt.alloc()), Some([0, 1, 1, 0]));
}
