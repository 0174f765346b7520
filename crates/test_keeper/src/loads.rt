//! What a file has is put on a board, and what is no board's is refused.

ghost use Rattle.std.specs.Prelude.{◌≡◌, ◌<◌};
ghost use Rattle.std.specs.Arc.{arc_value};

use crate::boards::{
    Kept, Stamped, Unkept, add_record, document, kept_board, kept_board_from, submitted, taken_up,
};
use board_keeper::{HeadFault, KeeperTurn, LoadFault};
use document_bodies::BodyFault;
use edit_stamps::Stamp;
use kept_devices::MemoryKeep;
use kept_log::FindFault;
use relay_board::{Naming, News, Opened, Seat, SubmitFault};
use std::alloc::Global;
use std::marker::Brand;
use std::sync::Wait;
use std::test::Fail;

/// The stamps of the edits that a poll hands out.
fn polled<J: Naming>(alloc: Global, seat: &mut Seat<J>) -> Result<Vec<Stamped>, Fail> {
    let News::Edits(edits) = seat.poll()? else {
        return Err(Fail::from("whole"));
    };
    let mut stamps = Vec::new(alloc);
    for edit in edits.as_slice() {
        stamps.push((edit.stamp().counter(), edit.stamp().replica()))?;
    }
    Ok(stamps)
}

/// The same of the seat at a place.
fn told_at<J: Naming>(
    alloc: Global,
    seats: &mut [Seat<J>],
    place: usize,
) -> Result<Vec<Stamped>, Fail> {
    match seats.get_mut(place) {
        Some(seat) => polled(alloc, seat),
        None => Err(Fail::from("a seat")),
    }
}

/// What came of a file's edits, and of two that a seat draws behind them.
#[derive(PartialEq, Eq, Debug, Drop)]
struct Resumed {
    /// What each of two seats is told.
    told: [Vec<Stamped>; 2],
    /// What is answered where the second seat's counter is the one that the file has, and where it is one more.
    old: Option<SubmitFault>,
    new: Option<SubmitFault>,
    turn: KeeperTurn,
}

fn goes_on<J: Naming, R: Wait + Drop + Copy>(
    rt: R,
    alloc: Global,
    board: Opened<R>,
    keep: MemoryKeep,
) -> Result<Resumed, Fail>
    requires origin { board.publisher.origin ≡ J.origin }
    requires inbox { (arc_value board.drain.queue).table.shared.table_id ≡ J.inbox }
    requires some { 0 < board.count }
{
    let Kept { mut keeper, seats } = taken_up::<J, R, R>(&rt, alloc, board, keep)?;
    let mut seats = seats.seats;
    let told = [
        told_at(alloc, &mut seats, 0)?,
        told_at(alloc, &mut seats, 1)?,
    ];
    let second = seats.get_mut(1).ok_or("a second seat")?;
    let old = submitted(&rt, alloc, second, 9)?.err();
    let new = submitted(&rt, alloc, second, 10)?.err();
    Ok(Resumed {
        told,
        old,
        new,
        turn: keeper.turn(),
    })
}

#[test]
fn a_file_goes_on(rt: HostRuntime) -> Result<(), Fail> {
    let alloc = rt.alloc();
    let stamps = [(4, 1), (2, 2), (9, 2), (1, 700)];
    let keep = MemoryKeep::new(alloc, &document(alloc, &stamps)?)?;
    let board = kept_board(rt, alloc, 2)?;
    let came = goes_on::<Brand, _>(rt, alloc, board, keep)?;
    for told in &came.told {
        assert!(rt; told.as_slice() == stamps.as_slice());
    }
    assert_eq!(rt; came.old, Some(SubmitFault::OldStamp));
    assert_eq!(rt; came.new, None);
    assert_eq!(rt; came.turn, KeeperTurn::Published(1));
    Ok(())
}

#[test]
fn numbers_from_100_on_go_on_above_their_own_counters(rt: HostRuntime) -> Result<(), Fail> {
    let alloc = rt.alloc();
    // the second seat has the number 101: the counter of another number is no floor of it
    let stamps = [(4, 100), (9, 101), (70, 1), (80, 2), (90, 102)];
    let keep = MemoryKeep::new(alloc, &document(alloc, &stamps)?)?;
    let board = kept_board_from(rt, alloc, 100, 2)?;
    let came = goes_on::<Brand, _>(rt, alloc, board, keep)?;
    for told in &came.told {
        assert!(rt; told.as_slice() == stamps.as_slice());
    }
    assert_eq!(rt; came.old, Some(SubmitFault::OldStamp));
    assert_eq!(rt; came.new, None);
    assert_eq!(rt; came.turn, KeeperTurn::Published(1));
    Ok(())
}

/// Why there is no keeper of a file.
fn unkept<J: Naming, R: Wait + Drop + Copy>(
    rt: R,
    alloc: Global,
    board: Opened<R>,
    bytes: &[u8],
) -> Result<Option<Unkept>, Fail>
    requires origin { board.publisher.origin ≡ J.origin }
    requires inbox { (arc_value board.drain.queue).table.shared.table_id ≡ J.inbox }
    requires some { 0 < board.count }
{
    let keep = MemoryKeep::new(alloc, bytes)?;
    match taken_up::<J, R, R>(&rt, alloc, board, keep) {
        Ok(_kept) => Ok(None),
        Err(why) => Ok(Some(why)),
    }
}

/// The same of a board of its own.
fn refused<R: Wait + Drop + Copy>(
    rt: R,
    alloc: Global,
    bytes: &[u8],
) -> Result<Option<Unkept>, Fail> {
    let board = kept_board(rt, alloc, 1)?;
    unkept::<Brand, R>(rt, alloc, board, bytes)
}

#[test]
fn stamps_have_to_rise(rt: HostRuntime) -> Result<(), Fail> {
    let alloc = rt.alloc();
    // the third edit has a counter that its replica had, or one below
    for (counter, replica) in &[(9, 2), (8, 2), (2, 2), (1, 1)] {
        let bytes = document(alloc, &[(1, 1), (9, 2), (*counter, *replica)])?;
        let stamp = Stamp::new(*counter, *replica).ok_or("stamp")?;
        let why = Unkept::Load(LoadFault::OldStamp(2, stamp));
        assert_eq!(rt; refused(rt, alloc, &bytes)?, Some(why));
    }
    let bytes = document(alloc, &[(1, 1), (9, 2), (2, 1)])?;
    assert_eq!(rt; refused(rt, alloc, &bytes)?, None);
    Ok(())
}

#[test]
fn bodies_have_to_be_edits(rt: HostRuntime) -> Result<(), Fail> {
    let alloc = rt.alloc();
    let mut bytes = document(alloc, &[(1, 1)])?;
    add_record(&mut bytes, b"no edit")?;
    let Some(Unkept::Load(LoadFault::Body(place, BodyFault::Read(_)))) = refused(rt, alloc, &bytes)?
    else {
        return Err(Fail::from("a body"));
    };
    assert_eq!(rt; place, 1);
    // a delta of no edit
    let mut bytes = document(alloc, &[])?;
    add_record(&mut bytes, b"GLWD\x01\x04/2/3\0\0\0\0")?;
    let why = Unkept::Load(LoadFault::Body(0, BodyFault::NoDocument));
    assert_eq!(rt; refused(rt, alloc, &bytes)?, Some(why));
    Ok(())
}

#[test]
fn a_file_has_to_have_a_head(rt: HostRuntime) -> Result<(), Fail> {
    let alloc = rt.alloc();
    assert_eq!(rt;
        refused(rt, alloc, b"")?,
        Some(Unkept::Head(HeadFault::NoRule))
    );
    assert_eq!(rt;
        refused(rt, alloc, b"no record")?,
        Some(Unkept::Find(FindFault::NoRecord))
    );
    let mut bytes = Vec::new(alloc);
    add_record(&mut bytes, b"no head")?;
    assert_eq!(rt;
        refused(rt, alloc, &bytes)?,
        Some(Unkept::Head(HeadFault::NoDocument))
    );
    Ok(())
}
