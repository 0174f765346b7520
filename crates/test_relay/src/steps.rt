//! An edit's way from one seat to another.

ghost use Rattle.std.specs.Prelude.{◌≡◌};
ghost use Rattle.std.specs.Arc.{arc_value};

use crate::drawn::{brians_board, submitted};
use crate::told::{Told, View, planed, tell, viewed};
use edit_stamps::Stamp;
use relay_board::{Naming, Opened, Relay, Seat, SeatFault, Turn};
use std::alloc::Global;
use std::marker::Brand;
use std::sync::Wait;
use std::test::Fail;

/// What a seat reads: two polls, the origin, and the plane.
#[derive(Clone, Copy, Debug, PartialEq, Eq)]
struct Reads {
    polls: [Told; 2],
    view: View,
    plane: Result<(usize, u64, u8), SeatFault>,
}

fn read<J: Naming>(seat: &mut Seat<J>) -> Reads {
    Reads {
        polls: [tell(&seat.poll()), tell(&seat.poll())],
        view: viewed(seat.view(0, 0)),
        plane: planed(&seat.plane()),
    }
}

/// What came of an edit.
#[derive(Clone, Copy, Debug, PartialEq, Eq)]
struct Way {
    turns: [Turn; 3],
    /// The receipt's place in its list.
    place: u64,
    /// How many submissions of each seat were accepted.
    accepted: (u64, u64),
    /// What the other seat reads before and after it learnt the receipt.
    before: Reads,
    after: Reads,
}

/// Seat 1 submits an edit and receives; seat 2 learns the receipt.
fn goes_to<J: Naming, R: Wait + Drop>(
    rt: &R,
    alloc: Global,
    relay: &mut Relay<J, R>,
    seats: &mut [Seat<J>],
) -> Result<Way, Fail> {
    let (one, others) = seats.split_first_mut().ok_or("one")?;
    let two = others.first_mut().ok_or("two")?;
    let early = relay.turn();
    let pending = submitted(rt, alloc, one, 1, 0)?;
    let before = read(two);
    let turn = relay.turn();
    let receipt = one.receive(rt, pending)?;
    two.learn(&receipt);
    Ok(Way {
        turns: [early, turn, relay.turn()],
        place: receipt.place(),
        accepted: (one.accepted(), two.accepted()),
        before,
        after: read(two),
    })
}

fn goes<J: Naming, R: Wait + Drop + Copy>(
    rt: R,
    alloc: Global,
    opened: Opened<R>,
) -> Result<Way, Fail>
    requires origin { opened.publisher.origin ≡ J.origin }
    requires inbox { (arc_value opened.drain.queue).table.shared.table_id ≡ J.inbox }
{
    let (mut relay, mut seats) = opened.named::<J>()?;
    goes_to(&rt, alloc, &mut relay, &mut seats)
}

#[test]
fn an_edit_goes_from_seat_to_seat(rt: HostRuntime) -> Result<(), Fail> {
    let opened = brians_board(rt, rt.alloc(), 2, 2)?;
    let stamp = Stamp::new(1, 1).ok_or("stamp")?;
    let way = Way {
        turns: [Turn::Idle, Turn::Published(stamp), Turn::Idle],
        place: 0,
        accepted: (1, 0),
        before: Reads {
            polls: [Told::Edits(0, 0), Told::Edits(0, 0)],
            view: Ok((0, 0)),
            plane: Ok((0, 0, 0)),
        },
        after: Reads {
            polls: [Told::Edits(1, 1), Told::Edits(0, 0)],
            view: Ok((65537, 1)),
            plane: Ok((1, 65537, 1)),
        },
    };
    assert_eq!(rt; goes::<Brand, _>(rt, rt.alloc(), opened)?, way);
    Ok(())
}
