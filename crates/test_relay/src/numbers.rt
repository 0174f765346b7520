//! Seats whose numbers begin with another than 1.

ghost use Rattle.std.specs.Prelude.{◌≡◌};
ghost use Rattle.std.specs.Arc.{arc_value};

use crate::drawn::BRIANS_BRAIN;
use crate::ending::{Summary, account, summed};
use crate::refusals::Submitted;
use crate::rising::{Drawn, submit_all};
use crate::told::Told;
use generations_rule::Rule;
use relay_board::{BoardSize, Naming, Opened, Seat, SubmitFault, start_within};
use square_store::Limits;
use std::alloc::{AllocError, Global};
use std::marker::Brand;
use std::sync::Wait;
use std::test::Fail;

/// A board of Brian's Brain whose sessions are numbered from a first one on.
fn numbered_board<R: Wait + Drop>(
    rt: R,
    alloc: Global,
    first: u16,
    sessions: u16,
    is_kept: bool,
) -> Result<Opened<R>, Fail> {
    let size = BoardSize {
        first,
        sessions,
        inbox: 4,
        is_kept,
        limits: Limits::usual(),
    };
    Ok(start_within(rt, alloc, Rule::parse(BRIANS_BRAIN)?, size)?)
}

/// The numbers of seats.
fn numbers_of<J: Naming>(alloc: Global, seats: &[Seat<J>]) -> Result<Vec<u16>, AllocError> {
    let mut numbers = Vec::new(alloc);
    for seat in seats {
        numbers.push(seat.number())?;
    }
    Ok(numbers)
}

/// Of the number of the seat, of the seat before it, of its place, and of the number that it has where the first is 1.
static EDITS: [Drawn; 4] = [
    (BRIANS_BRAIN, 1, (1, 65_531)),
    (BRIANS_BRAIN, 1, (2, 65_530)),
    (BRIANS_BRAIN, 1, (2, 1)),
    (BRIANS_BRAIN, 1, (2, 2)),
];

/// What comes of seats.
#[derive(PartialEq, Eq, Debug, Drop)]
struct Course {
    numbers: Vec<u16>,
    /// What comes of edits that the second submits.
    submitted: Vec<Submitted>,
    summary: Option<Summary>,
}

fn comes_to<J: Naming, R: Wait + Drop + Copy>(
    rt: R,
    alloc: Global,
    opened: Opened<R>,
) -> Result<Course, Fail>
    requires origin { opened.publisher.origin ≡ J.origin }
    requires inbox { (arc_value opened.drain.queue).table.shared.table_id ≡ J.inbox }
{
    let (mut relay, mut seats) = opened.named::<J>()?;
    let numbers = numbers_of(alloc, &seats)?;
    let second = seats.get_mut(1).ok_or("a second seat")?;
    let submitted = submit_all(&rt, alloc, second, &EDITS)?;
    relay.close();
    Ok(Course {
        numbers,
        submitted,
        summary: summed(&account(alloc, relay, seats)?),
    })
}

#[test]
fn seats_are_numbered_from_the_first_on(rt: HostRuntime) -> Result<(), Fail> {
    let opened = numbered_board(rt, rt.alloc(), 65_530, 3, false)?;
    let came = comes_to::<Brand, _>(rt, rt.alloc(), opened)?;
    assert_eq!(rt;
        came.numbers.as_slice(),
        [65_530, 65_531, 65_532].as_slice()
    );
    let refused = Submitted::Refused(SubmitFault::NotYours);
    let expected = [Submitted::Accepted, refused, refused, refused];
    assert_eq!(rt; came.submitted.as_slice(), expected.as_slice());
    let all = Summary {
        before: 0,
        published: Told::Edits(1, 1),
        cells: 1,
        front: 1,
        seats: 3,
        accepted: (0, 1),
    };
    assert_eq!(rt; came.summary, Some(all));
    Ok(())
}

/// The numbers of the seats of a board.
fn numbers<J: Naming, R: Wait + Drop>(alloc: Global, opened: Opened<R>) -> Result<Vec<u16>, Fail>
    requires origin { opened.publisher.origin ≡ J.origin }
    requires inbox { (arc_value opened.drain.queue).table.shared.table_id ≡ J.inbox }
{
    let (_relay, seats) = opened.named::<J>()?;
    Ok(numbers_of(alloc, &seats)?)
}

#[test]
fn a_file_has_its_seat_behind_the_greatest_number(rt: HostRuntime) -> Result<(), Fail> {
    let opened = numbered_board(rt, rt.alloc(), 65_534, 2, true)?;
    let numbers = numbers::<Brand, _>(rt.alloc(), opened)?;
    // nobody asks that of the file's seat
    assert_eq!(rt; numbers.as_slice(), [65_534, 65_535, 65_535].as_slice());
    Ok(())
}
