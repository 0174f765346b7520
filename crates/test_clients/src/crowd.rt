//! Eight clients that draw by chance: in the end all hold what the board holds, and what any order of their
//! edits comes to.

use crate::clients::{Guest, join, name, obey, told};
use crate::texts::replica;
use crate::told_cells::Told;
use client_session::Telling;
use memory_board::{MemoryBoard, Shared, line_to};
use rand_core::utils::NextWord;
use rand_pcg::Pcg32;
use replica_core::Replica;
use std::alloc::{AllocError, Global};
use std::test::Fail;

const CLIENTS: u16 = 8;

const ROUNDS: u32 = 200;

/// Two of the clients say nothing to the board from the first of these rounds to the last, in which the others
/// draw more than 1,024 edits.
const QUIET: (u32, u32) = (3, 196);

/// A client, and what it told.
#[derive(Drop)]
struct Member<'a> {
    client: Guest<'a, HostRuntime>,
    told: Told,
    is_quiet: bool,
    tells_changes: bool,
}

/// A number below another.
fn below(random: &mut Pcg32, bound: u32) -> u32 {
    random.next_word() % bound.max(1)
}

/// A coordinate near the origin, seldom far away.
fn coordinate(random: &mut Pcg32) -> i64 {
    let near = i64::from(below(random, 60)) - 30;
    if below(random, 20) == 0 {
        near * 30_000_000
    } else {
        near
    }
}

/// A drawing.
fn drawing(alloc: Global, random: &mut Pcg32) -> Result<String, AllocError> {
    let (x, y) = (coordinate(random), coordinate(random));
    let (state, other) = (below(random, 3), below(random, 3));
    let width = below(random, 9).saturating_add(1);
    let height = below(random, 9).saturating_add(1);
    match below(random, 8) {
        0 => format!(in alloc; "clear {x} {y} {width} {height}"),
        1 => format!(in alloc; "copy p {x} {y}"),
        2 => format!(in alloc; "or p {x} {y}"),
        3 => format!(in alloc; "cells {x} {y} {state} {y} {x} {other} {x} {y} {other}"),
        _ => format!(in alloc; "cells {x} {y} {state}"),
    }
}

/// A command that a client gives in a round: mostly a drawing.
fn command(
    alloc: Global,
    random: &mut Pcg32,
    is_quiet: bool,
    round: u32,
) -> Result<String, AllocError> {
    let (x, y) = (coordinate(random), coordinate(random));
    let (first, last) = QUIET;
    if is_quiet && first <= round && round <= last {
        return format!(in alloc; "show {x} {y}");
    }
    match below(random, 100) {
        0 => format!(in alloc; "show {x} {y}"),
        1 => format!(in alloc; "export {}", below(random, 4)),
        2 => String::from_str(alloc, "poll"),
        3 => String::from_str(alloc, "export 0 picture.rle"),
        _ => drawing(alloc, random),
    }
}

const PATTERN: &str = "rule /2/3\nreplicas 1\npattern p\nx = 4, y = 3\nA.BA$2.A$B2A!\nend\n";

/// Clients at the seats of a board, every other one of which tells the cells that look different.
fn joined<'a>(rt: &'a HostRuntime, board: &Shared) -> Result<Vec<Member<'a>>, Fail> {
    let alloc = rt.alloc();
    let mut members = Vec::new(alloc);
    for seat in 1..=CLIENTS {
        let tells_changes = seat % 2 == 0;
        let telling = if tells_changes {
            Telling::Changes
        } else {
            Telling::Edits
        };
        let mut client = join(rt, alloc, line_to(alloc, board, seat)?, telling)?;
        name(&mut client, PATTERN)?;
        members.push(Member {
            client,
            told: Told::new(alloc),
            is_quiet: seat > 6,
            tells_changes,
        })?;
    }
    Ok(members)
}

impl<'a> Member<'a> {
    /// Gives a command, and hears what is told.
    fn give(&mut self, line: &str) -> Result<(), Fail> {
        obey(&mut self.client, line)?;
        let printed = told(&mut self.client)?;
        self.told.hear(printed.as_str())
    }

    /// Whether what it told is what it holds; of one that tells edits nothing is said.
    fn told_what_it_holds(&self) -> Result<bool, Fail> {
        let held = self.client.replica().plane().walk()?;
        Ok(!self.tells_changes || self.told.cells()? == held)
    }
}

/// A round: a command of each client.
fn round(random: &mut Pcg32, members: &mut [Member<'_>], round: u32) -> Result<(), Fail> {
    for member in members {
        let line = command(member.client.alloc(), random, member.is_quiet, round)?;
        member.give(line.as_str())?;
    }
    Ok(())
}

/// All rounds, and a poll of each client.
fn rounds(random: &mut Pcg32, members: &mut [Member<'_>]) -> Result<(), Fail> {
    for number in 0..ROUNDS {
        round(random, members, number)?;
    }
    for member in members {
        member.give("poll")?;
    }
    Ok(())
}

/// The state of a replica that takes the edits of a board one by one, so many, in an order by chance.
fn shuffled_state(
    alloc: Global,
    random: &mut Pcg32,
    board: &Shared,
    edits: usize,
) -> Result<Vec<u8>, Fail> {
    let mut fresh = replica(alloc, b"/2/3")?;
    for place in shuffled(alloc, random, edits)? {
        take_edit(board, place, &mut fresh)?;
    }
    Ok(fresh.state()?)
}

/// Has a replica take the edit at a place of a board's list.
fn take_edit(board: &Shared, place: u32, replica: &mut Replica) -> Result<(), Fail> {
    let board = board.try_borrow_mut().ok().ok_or("board")?;
    replica.take_bytes(&board.replica().delta(place, 1)?)?;
    Ok(())
}

/// The numbers below a number, in an order by chance.
fn shuffled(alloc: Global, random: &mut Pcg32, count: usize) -> Result<Vec<u32>, AllocError> {
    let mut left = places(alloc, count)?;
    let mut drawn = Vec::new(alloc);
    for _ in 0..count {
        let bound = u32::try_from(left.len()).unwrap_or(1);
        let at = below(random, bound) as usize;
        if at < left.len() {
            drawn.push(left.swap_remove(at))?;
        }
    }
    Ok(drawn)
}

/// The numbers below a number.
fn places(alloc: Global, count: usize) -> Result<Vec<u32>, AllocError> {
    let mut places = Vec::new(alloc);
    for place in 0..u32::try_from(count).unwrap_or(0) {
        places.push(place)?;
    }
    Ok(places)
}

/// How many clients saved another state than this, told other cells than they hold, or were sent a plane and
/// drew behind it.
fn counted(members: &mut [Member<'_>], state: &[u8]) -> Result<(u32, u32, u32), Fail> {
    let (mut others, mut mistold, mut drew_behind) = (0_u32, 0_u32, 0_u32);
    for member in members {
        let saved = member.client.save()?.ok_or("save")?;
        if saved.as_slice() != state {
            others = others.saturating_add(1);
        }
        if !member.told_what_it_holds()? {
            mistold = mistold.saturating_add(1);
        }
        if member.told.planes == 1 && member.told.drawn_behind > 0 {
            drew_behind = drew_behind.saturating_add(1);
        }
    }
    Ok((others, mistold, drew_behind))
}

/// The board's state, how many edits it has, and how many planes it handed out.
fn held(board: &Shared) -> Result<(Vec<u8>, usize, u32), Fail> {
    let board = board.try_borrow_mut().ok().ok_or("board")?;
    let replica = board.replica();
    Ok((replica.state()?, replica.journal().len(), board.planes))
}

#[test]
fn eight_clients_agree(rt: HostRuntime) -> Result<(), Fail> {
    let alloc = rt.alloc();
    let mut random = Pcg32::new(2026, 71);
    let board = MemoryBoard::shared(alloc, CLIENTS)?;
    let mut members = joined(&rt, &board)?;
    rounds(&mut random, &mut members)?;
    let (state, edits, planes) = held(&board)?;
    assert!(rt; edits > 1024, "{edits}");
    assert_eq!(rt; planes, 2);
    assert_eq!(rt; shuffled_state(alloc, &mut random, &board, edits)?, state);
    assert_eq!(rt; counted(&mut members, &state)?, (0, 0, 2));
    Ok(())
}
