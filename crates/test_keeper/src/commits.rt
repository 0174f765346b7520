//! What a turn commits is published and answered, and nothing else is.

ghost use Rattle.std.specs.Prelude.{◌≡◌, ◌<◌};
ghost use Rattle.std.specs.Arc.{arc_value};

use crate::boards::{Kept, document, kept_board, submitted, taken_up};
use board_keeper::{KeepFault, Keeper, KeeperTurn};
use kept_devices::MemoryKeep;
use relay_board::{Naming, News, Opened, Pending, Seat};
use std::alloc::Global;
use std::marker::Brand;
use std::sync::Wait;
use std::test::Fail;

/// The bytes of a keeper's file that are on the disk.
fn on_disk<J: Naming, R: Wait + Drop>(keeper: &Keeper<J, R, MemoryKeep>) -> &[u8] {
    &keeper.keep().now().durable
}

/// The place of a receipt that is there; none where it is not, or will not come.
fn place_of<J: Naming, R: Wait>(rt: &R, seat: &mut Seat<J>, pending: Pending<J>) -> Option<u64> {
    match seat.try_receive(rt, pending) {
        Ok(receipt) => Some(receipt.place()),
        Err(_) => None,
    }
}

/// Whether two texts are the same.
fn are_same(left: &[u8], right: &[u8]) -> bool {
    left == right
}

/// The first seat of these.
fn first<J: Naming>(seats: &mut [Seat<J>]) -> Result<&mut Seat<J>, Fail> {
    match seats {
        [seat, ..] => Ok(seat),
        [] => Err(Fail::from("a seat")),
    }
}

/// What came of an edit at a keeper of a new file.
#[derive(Clone, Copy, Debug, PartialEq, Eq)]
struct OneEdit {
    /// Whether its file had just the head, before the turn.
    began_empty: bool,
    turn: KeeperTurn,
    /// Whether the file had the edit behind it.
    stands: bool,
    place: Option<u64>,
    /// How many calls the turn made of the file.
    calls: u64,
}

fn one_edit<J: Naming, R: Wait + Drop + Copy>(
    rt: R,
    alloc: Global,
    board: Opened<R>,
) -> Result<OneEdit, Fail>
    requires origin { board.publisher.origin ≡ J.origin }
    requires inbox { (arc_value board.drain.queue).table.shared.table_id ≡ J.inbox }
    requires some { 0 < board.count }
{
    let empty = document(alloc, &[])?;
    let keep = MemoryKeep::new(alloc, &empty)?;
    let Kept {
        mut keeper,
        mut seats,
    } = taken_up::<J, R, R>(&rt, alloc, board, keep)?;
    let seat = first(&mut seats.seats)?;
    let pending = submitted(&rt, alloc, seat, 1)??;
    let began_empty = are_same(on_disk(&keeper), &empty);
    let before = keeper.keep().calls();
    let turn = keeper.turn();
    let stands = are_same(on_disk(&keeper), &document(alloc, &[(1, 1)])?);
    Ok(OneEdit {
        began_empty,
        turn,
        stands,
        place: place_of(&rt, seat, pending),
        calls: keeper.keep().calls().wrapping_sub(before),
    })
}

#[test]
fn what_is_answered_stands_in_the_file(rt: HostRuntime) -> Result<(), Fail> {
    let board = kept_board(rt, rt.alloc(), 1)?;
    let came = one_edit::<Brand, _>(rt, rt.alloc(), board)?;
    let expected = OneEdit {
        began_empty: true,
        turn: KeeperTurn::Published(1),
        stands: true,
        place: Some(0),
        // a push and a sync
        calls: 2,
    };
    assert_eq!(rt; came, expected);
    Ok(())
}

/// What came of 66 edits at once.
#[derive(Clone, Copy, Debug, PartialEq, Eq)]
struct ManyEdits {
    turns: [KeeperTurn; 3],
    /// How many calls all made of the file.
    calls: u64,
}

fn many_edits<J: Naming, R: Wait + Drop + Copy>(
    rt: R,
    alloc: Global,
    board: Opened<R>,
) -> Result<ManyEdits, Fail>
    requires origin { board.publisher.origin ≡ J.origin }
    requires inbox { (arc_value board.drain.queue).table.shared.table_id ≡ J.inbox }
    requires some { 0 < board.count }
{
    let keep = MemoryKeep::new(alloc, &document(alloc, &[])?)?;
    let Kept {
        mut keeper,
        mut seats,
    } = taken_up::<J, R, R>(&rt, alloc, board, keep)?;
    let seat = first(&mut seats.seats)?;
    for counter in 1..67 {
        let _pending = submitted(&rt, alloc, seat, counter)??;
    }
    let before = keeper.keep().calls();
    let turns = [keeper.turn(), keeper.turn(), keeper.turn()];
    Ok(ManyEdits {
        turns,
        calls: keeper.keep().calls().wrapping_sub(before),
    })
}

#[test]
fn sixty_four_are_committed_by_one_sync(rt: HostRuntime) -> Result<(), Fail> {
    let board = kept_board(rt, rt.alloc(), 1)?;
    let came = many_edits::<Brand, _>(rt, rt.alloc(), board)?;
    let expected = ManyEdits {
        turns: [
            KeeperTurn::Published(64),
            KeeperTurn::Published(2),
            KeeperTurn::Idle,
        ],
        calls: 4,
    };
    assert_eq!(rt; came, expected);
    Ok(())
}

/// What came of an edit whose commit failed.
#[derive(Clone, Copy, Debug, PartialEq, Eq)]
struct Failing {
    turns: [KeeperTurn; 2],
    /// Whether the file is as it was, for who opens it next.
    is_as_before: bool,
    /// How many edits a poll handed out.
    polled: usize,
    /// Its receipt, where one came.
    place: Option<u64>,
}

fn fails<J: Naming, R: Wait + Drop + Copy>(
    rt: R,
    alloc: Global,
    board: Opened<R>,
    call: u64,
) -> Result<Failing, Fail>
    requires origin { board.publisher.origin ≡ J.origin }
    requires inbox { (arc_value board.drain.queue).table.shared.table_id ≡ J.inbox }
    requires some { 0 < board.count }
{
    let empty = document(alloc, &[])?;
    let mut calls = Vec::new(alloc);
    calls.push(call)?;
    let keep = MemoryKeep::new(alloc, &empty)?.failing_at(calls);
    let Kept {
        mut keeper,
        mut seats,
    } = taken_up::<J, R, R>(&rt, alloc, board, keep)?;
    let seat = first(&mut seats.seats)?;
    let pending = submitted(&rt, alloc, seat, 1)??;
    let turns = [keeper.turn(), keeper.turn()];
    let is_as_before = are_same(on_disk(&keeper), &empty);
    keeper.cease();
    Ok(Failing {
        turns,
        is_as_before,
        polled: polled(seat)?,
        place: place_of(&rt, seat, pending),
    })
}

/// The same of a board of its own.
fn failed_at<R: Wait + Drop + Copy>(rt: R, alloc: Global, call: u64) -> Result<Failing, Fail> {
    let board = kept_board(rt, alloc, 1)?;
    fails::<Brand, R>(rt, alloc, board, call)
}

/// How many edits a poll hands out.
fn polled<J: Naming>(seat: &mut Seat<J>) -> Result<usize, Fail> {
    match seat.poll()? {
        News::Edits(edits) => Ok(edits.as_slice().len()),
        News::Whole(_, _) => Err(Fail::from("whole")),
    }
}

/// The call by which the first commit pushes: opening the file made a sync and a read.
const FIRST_PUSH: u64 = 2;

#[test]
fn a_commit_that_fails_publishes_nothing(rt: HostRuntime) -> Result<(), Fail> {
    let expected = Failing {
        turns: [
            KeeperTurn::Failed(KeepFault::Write),
            KeeperTurn::Failed(KeepFault::Write),
        ],
        is_as_before: true,
        polled: 0,
        place: None,
    };
    // its push, and its sync
    assert_eq!(rt; failed_at(rt, rt.alloc(), FIRST_PUSH)?, expected);
    assert_eq!(rt; failed_at(rt, rt.alloc(), FIRST_PUSH + 1)?, expected);
    Ok(())
}
