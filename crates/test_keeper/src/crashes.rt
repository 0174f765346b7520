//! Crashes at each moment of a keeper's life, whose file fails at each call in turn.

ghost use Rattle.std.specs.Prelude.{◌≡◌, ◌<◌};
ghost use Rattle.std.specs.Arc.{arc_value};

use crate::boards::{Kept, document, kept_board, submitted, taken_up};
use board_keeper::{Keeper, KeeperTurn};
use kept_devices::{Chance, MemoryKeep, Moment};
use kept_log::find;
use relay_board::{Naming, Opened, Seat};
use std::alloc::Global;
use std::marker::Brand;
use std::sync::Wait;
use std::test::Fail;

/// How many edits are put before each turn.
static GROUPS: [u64; 4] = [1, 3, 2, 1];

/// A moment of a file, and how many edits were published and put by then.
#[derive(Clone, Copy)]
struct Stage {
    /// How many moments of the file lie before it.
    moments: usize,
    published: usize,
    put: usize,
}

/// What a keeper came to: its file, and the stages between its turns.
#[derive(Drop)]
struct Life<J: Naming, R: Wait + Drop> {
    keeper: Keeper<J, R, MemoryKeep>,
    stages: Vec<Stage>,
}

/// Puts so many edits more.
fn put<J: Naming, R: Wait>(
    rt: &R,
    alloc: Global,
    seat: &mut Seat<J>,
    stage: Stage,
    count: u64,
) -> Result<Stage, Fail> {
    let mut stage = stage;
    for _ in 0..count {
        stage.put = stage.put.wrapping_add(1);
        let _pending = submitted(rt, alloc, seat, stage.put as u64)??;
    }
    Ok(stage)
}

/// A turn, and what is published behind it.
fn turned<J: Naming, R: Wait + Drop>(keeper: &mut Keeper<J, R, MemoryKeep>, stage: Stage) -> Stage {
    let published = match keeper.turn() {
        KeeperTurn::Published(count) => stage.published.wrapping_add(count),
        KeeperTurn::Idle | KeeperTurn::Failed(_) => stage.published,
    };
    Stage {
        moments: keeper.keep().past().len(),
        published,
        put: stage.put,
    }
}

/// A keeper of a new file, before whose turns edits are put.
fn begun<J: Naming, R: Wait + Drop + Copy>(
    rt: R,
    alloc: Global,
    board: Opened<R>,
    keep: MemoryKeep,
) -> Result<Life<J, R>, Fail>
    requires origin { board.publisher.origin ≡ J.origin }
    requires inbox { (arc_value board.drain.queue).table.shared.table_id ≡ J.inbox }
    requires some { 0 < board.count }
{
    let Kept {
        mut keeper,
        mut seats,
    } = taken_up::<J, R, R>(&rt, alloc, board, keep)?;
    let [seat, ..] = seats.seats.as_mut_slice() else {
        return Err(Fail::from("a seat"));
    };
    let mut stages = Vec::new(alloc);
    let mut stage = Stage {
        moments: keeper.keep().past().len(),
        published: 0,
        put: 0,
    };
    for count in &GROUPS {
        stage = put(&rt, alloc, seat, stage, *count)?;
        stages.push(stage)?;
        stage = turned(&mut keeper, stage);
        stages.push(stage)?;
    }
    Ok(Life { keeper, stages })
}

/// How many edits a file has that a crash left at a moment.
fn left_by(alloc: Global, moment: &Moment, seed: u64) -> Result<usize, Fail> {
    let left = moment.after_crash(alloc, &mut Chance::new(seed))?;
    match find(alloc, MemoryKeep::new(alloc, &left)?) {
        Ok(found) => Ok(found.parts.bodies.len()),
        Err((fault, _keep)) => Err(Fail::from(fault)),
    }
}

/// What was published at a moment, and what was put by then.
fn bounds_at(stages: &[Stage], moment: usize) -> (usize, usize) {
    let mut published = 0;
    let mut put = 0;
    for stage in stages {
        if stage.moments <= moment {
            published = stage.published.max(published);
            put = stage.put.max(put);
        }
    }
    (published, put)
}

/// How many crashes, one for each seed at each moment, left fewer edits than were published, or more than were put.
fn wrong_crashes<J: Naming, R: Wait + Drop>(
    alloc: Global,
    life: &Life<J, R>,
    seeds: u64,
) -> Result<u64, Fail> {
    let mut wrong = 0u64;
    let keep = life.keeper.keep();
    for moment in 0..keep.past().len() {
        let (published, put) = bounds_at(&life.stages, moment);
        for seed in 0..seeds {
            let left = left_by(alloc, &keep.past()[moment], seed)?;
            if left < published || left > put {
                wrong = wrong.wrapping_add(1);
            }
        }
    }
    Ok(wrong)
}

/// What a life came to: how many crashes were wrong, how many edits were published, and how many a process finds that
/// opens the file.
#[derive(Clone, Copy, Debug, PartialEq, Eq)]
struct Course {
    wrong: u64,
    published: usize,
    found: usize,
}

/// The course of a life whose file fails from a call on.
fn lived<J: Naming, R: Wait + Drop + Copy>(
    rt: R,
    alloc: Global,
    board: Opened<R>,
    call: u64,
) -> Result<Course, Fail>
    requires origin { board.publisher.origin ≡ J.origin }
    requires inbox { (arc_value board.drain.queue).table.shared.table_id ≡ J.inbox }
    requires some { 0 < board.count }
{
    let keep = MemoryKeep::new(alloc, &document(alloc, &[])?)?.failing_from(call);
    let life = begun::<J, R>(rt, alloc, board, keep)?;
    let wrong = wrong_crashes(alloc, &life, 20)?;
    let published = match life.stages.last() {
        Some(stage) => stage.published,
        None => 0,
    };
    let seen = life.keeper.keep().now().seen(alloc)?;
    match find(alloc, MemoryKeep::new(alloc, &seen)?) {
        Ok(found) => Ok(Course {
            wrong,
            published,
            found: found.parts.bodies.len(),
        }),
        Err((fault, _keep)) => Err(Fail::from(fault)),
    }
}

/// The same of a board of its own.
fn course_from<R: Wait + Drop + Copy>(rt: R, alloc: Global, call: u64) -> Result<Course, Fail> {
    let board = kept_board(rt, alloc, 1)?;
    lived::<Brand, R>(rt, alloc, board, call)
}

#[test]
fn what_is_published_stays(rt: HostRuntime) -> Result<(), Fail> {
    let expected = Course {
        wrong: 0,
        published: 7,
        found: 7,
    };
    assert_eq!(rt; course_from(rt, rt.alloc(), 100)?, expected);
    Ok(())
}

#[test]
fn where_each_call_from_one_on_fails(rt: HostRuntime) -> Result<(), Fail> {
    // a push and a sync for each of four turns, behind the two calls of the opening
    for call in 2..10 {
        let came = course_from(rt, rt.alloc(), call)?;
        assert_eq!(rt; came.wrong, 0, "call {call}");
        assert!(rt;
            came.published < 7 && came.published <= came.found,
            "call {call}"
        );
    }
    Ok(())
}
