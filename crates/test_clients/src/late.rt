//! Clients that are sent the whole plane: what each tells of it.

use crate::clients::{dot, told};
use crate::plays::{A, Act, B, Party, Step, play};
use crate::texts::Text;
use client_session::{Outcome, Telling};
use edit_stamps::Rect;
use std::alloc::{AllocError, Global};
use std::process::Abort;
use std::test::Fail;
use std::time::Clock;

/// The place of the client at seat 3.
const THIRD: usize = 2;

const ORIGIN: Rect = Rect {
    x: 0,
    y: 0,
    width: 1,
    height: 1,
};

/// A draws. B, who tells the cells that look different, is sent the plane twice: once where a cell is dead, another
/// one is not, and a third is as it was; and once where all cells are as they were. The third tells edits.
static BEHIND: [Step; 13] = [
    Step::Does(A, Act::Dot(0, 0, 1, Outcome::Drawn)),
    Step::Does(A, Act::Dot(1, 0, 1, Outcome::Drawn)),
    Step::Does(B, Act::Follow),
    Step::Does(B, Act::Told("joined 2 /2/3\nnow 0 0 1 1 0 1\n")),
    Step::HandOut(1),
    Step::Does(A, Act::Clear(ORIGIN, Outcome::Drawn)),
    Step::Does(A, Act::Dot(2, -1, 2, Outcome::Drawn)),
    Step::Does(B, Act::Poll),
    Step::Does(A, Act::Dot(5, 5, 0, Outcome::Drawn)),
    Step::Does(A, Act::Dot(1, 0, 1, Outcome::Drawn)),
    Step::Does(B, Act::Poll),
    Step::Does(B, Act::Told("whole\nnow 2 -1 2 0 0 0\nwhole\n")),
    Step::Does(THIRD, Act::Poll),
];

#[test]
fn a_late_client_sees_the_board(rt: HostRuntime) -> Result<(), Fail> {
    let tellings = [Telling::Edits, Telling::Changes, Telling::Edits];
    let mut party = Party::join(&rt, rt.alloc(), &tellings)?;
    party.play(&rt, &BEHIND)?;
    let c = party.clients.get_mut(THIRD).ok_or("client")?;
    assert_eq!(rt; told(c)?.as_str(), "joined 3 /2/3\nwhole\n");
    Ok(())
}

/// B is sent a row that A drew.
static THREE_LINES: [Step; 3] = [
    Step::HandOut(0),
    Step::Does(
        A,
        Act::Open(Text::Bytes(b"x = 2500, y = 1\n2500A!"), Outcome::Drawn),
    ),
    Step::Does(B, Act::Poll),
];

/// What a client tells that is sent so many cells of row 0, 1,000 in a line.
fn row_told(alloc: Global, width: i32) -> Result<String, AllocError> {
    let mut text = String::from_str(alloc, "joined 2 /2/3\nwhole")?;
    for x in 0..width {
        if x % 1000 == 0 {
            text.push_str("\nnow")?;
        }
        text.push_str(format!(in alloc; " {x} 0 1")?.as_str())?;
    }
    text.push('\n')?;
    Ok(text)
}

/// What B tells behind these steps.
fn told_by_b<R: Abort + Clock>(rt: &R, alloc: Global, steps: &[Step]) -> Result<String, Fail> {
    let mut party = Party::join(rt, alloc, &[Telling::Edits, Telling::Changes])?;
    party.play(rt, steps)?;
    told(party.clients.get_mut(B).ok_or("client")?)
}

#[test]
fn a_thousand_cells_in_a_line(rt: HostRuntime) -> Result<(), Fail> {
    let told = told_by_b(&rt, rt.alloc(), &THREE_LINES)?;
    assert_eq!(rt; told.as_str().split('\n').count(), 6);
    assert_eq!(rt; told.as_str(), row_told(rt.alloc(), 2500)?.as_str());
    Ok(())
}

/// B is sent a row of as many cells as are told.
static AT_THE_LIMIT: [Step; 3] = [
    Step::HandOut(0),
    Step::Does(
        A,
        Act::Open(Text::Bytes(b"x = 100000, y = 1\n100000A!"), Outcome::Drawn),
    ),
    Step::Does(B, Act::Poll),
];

#[test]
fn as_many_cells_as_are_told(rt: HostRuntime) -> Result<(), Fail> {
    let told = told_by_b(&rt, rt.alloc(), &AT_THE_LIMIT)?;
    assert_eq!(rt; told.as_str(), row_told(rt.alloc(), 100_000)?.as_str());
    Ok(())
}

/// B is sent a row of one cell more, and then an edit.
static MANY: [Step; 7] = [
    Step::HandOut(0),
    Step::Does(
        A,
        Act::Open(Text::Bytes(b"x = 100001, y = 1\n100001A!"), Outcome::Drawn),
    ),
    Step::Does(B, Act::Poll),
    Step::HandOut(1024),
    Step::Does(A, Act::Dot(7, 0, 2, Outcome::Drawn)),
    Step::Does(B, Act::Poll),
    Step::Does(
        B,
        Act::Told(
            "joined 2 /2/3\nwhole\nmany 100001 cells look different: export 0 has them\nnow 7 0 2\nedits 1\n",
        ),
    ),
];

#[test]
fn more_cells_than_are_told(rt: HostRuntime) -> Result<(), Fail> {
    play(&rt, rt.alloc(), &[Telling::Edits, Telling::Changes], &MANY)
}

/// Behind a plane: B polls, and is told of two cells more.
static TWO_MORE: [Step; 5] = [
    Step::Does(B, Act::Poll),
    Step::Does(A, Act::Dot(7, 0, 2, Outcome::Drawn)),
    Step::Does(A, Act::Dot(8, 0, 1, Outcome::Drawn)),
    Step::Does(B, Act::Poll),
    Step::Does(B, Act::Told("edits 0\nnow 7 0 2\nedits 2\n")),
];

/// Has A draw so many cells of row 0, each by itself.
fn draw_row<C: Clock>(party: &mut Party<'_, C>, width: i32) -> Result<(), Fail> {
    let a = party.clients.get_mut(A).ok_or("client")?;
    for x in 0..width {
        dot(a, x, 0, 1)?;
    }
    Ok(())
}

/// What B tells behind a poll.
fn polled<C: Clock>(party: &mut Party<'_, C>) -> Result<String, Fail> {
    let b = party.clients.get_mut(B).ok_or("client")?;
    b.poll()?;
    told(b)
}

/// What the client at a place saves.
fn saved_at<C: Clock>(party: &mut Party<'_, C>, place: usize) -> Result<Option<Vec<u8>>, Fail> {
    let client = party.clients.get_mut(place).ok_or("client")?;
    Ok(client.save()?)
}

#[test]
fn behind_1025_edits(rt: HostRuntime) -> Result<(), Fail> {
    let alloc = rt.alloc();
    let mut party = Party::join(&rt, alloc, &[Telling::Edits, Telling::Changes])?;
    draw_row(&mut party, 1025)?;
    let told = polled(&mut party)?;
    assert_eq!(rt; told.as_str(), row_told(alloc, 1025)?.as_str());
    party.play(&rt, &TWO_MORE)?;
    let ours = saved_at(&mut party, A)?;
    assert!(rt; ours.is_some());
    assert_eq!(rt; ours, saved_at(&mut party, B)?);
    Ok(())
}
