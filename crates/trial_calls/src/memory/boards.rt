//! Boards, opened for what is done on them.

ghost use Rattle.std.specs.Prelude.{◌≡◌};
ghost use Rattle.std.specs.Arc.{arc_value};

use crate::memory::relaying::asks;
use crate::memory::tell;
use crate::memory::ways::{Table, Way};
use generations_rule::Rule;
use relay_board::{BoardSize, Naming, Opened, StartFault, start, start_within};
use stamped_tree::Limits;
use std::alloc::Global;
use std::io;
use std::marker::Brand;
use std::sync::Wait;
use std::thread::Threads;

/// Tells of the calls of ways, each at a board of its own.
pub fn tell_ways<R: Threads + Wait + Print + Drop + Copy + Send + Sync + 'static>(
    rt: R,
    alloc: Global,
    part: &str,
    ways: &[Way],
) -> io::Result<()> {
    for way in ways {
        tell_calls(&rt, part, way, tried(rt, alloc, way))?;
    }
    Ok(())
}

fn tell_calls(rt: &impl Print, part: &str, way: &Way, met: usize) -> io::Result<()> {
    for place in 0..way.len() {
        tell(rt, part, way.name(place), place < met)?;
    }
    Ok(())
}

/// A board for a way.
fn opened<R: Wait + Drop + Copy>(
    rt: R,
    alloc: Global,
    rule: Rule,
    way: &Way,
) -> Result<Opened<R>, StartFault> {
    match way.room {
        Some(nodes) if nodes > 0 => {
            let size = BoardSize {
                first: 1,
                sessions: way.seats,
                is_kept: false,
                inbox: 2,
                limits: Limits::of_room(nodes),
            };
            start_within(rt, alloc, rule, size)
        }
        _ => start(rt, alloc, rule, way.seats, 2),
    }
}

/// The same. Where memory is refused it is started once more.
fn started<R: Wait + Drop + Copy>(rt: R, alloc: Global, way: &Way) -> Option<Opened<R>> {
    let rule = Rule::parse(b"/2/3").ok()?;
    again!(StartFault::Memory, opened(rt, alloc, rule, way)).ok()
}

/// How many calls of a way, in order, answer as they are meant to. Where memory is refused before the first
/// can be made, all of it is begun again.
fn tried<R: Threads + Wait + Drop + Copy + Send + Sync + 'static>(
    rt: R,
    alloc: Global,
    way: &Way,
) -> usize {
    let Some(opened) = started(rt, alloc, way) else {
        return 0;
    };
    if let Some(met) = named::<Brand, R>(rt, alloc, opened, way) {
        return met;
    }
    let Some(opened) = started(rt, alloc, way) else {
        return 0;
    };
    named::<Brand, R>(rt, alloc, opened, way).unwrap_or(0)
}

/// The same of a board that was just opened; `None` where there was no memory to begin.
fn named<J: Naming + Send + 'static, R: Threads + Wait + Drop + Copy + Send + Sync + 'static>(
    rt: R,
    alloc: Global,
    opened: Opened<R>,
    way: &Way,
) -> Option<usize>
    requires origin { opened.publisher.origin ≡ J.origin }
    requires inbox { (arc_value opened.drain.queue).table.shared.table_id ≡ J.inbox }
{
    let (relay, seats) = opened.named::<J>().ok()?;
    if way.requests.is_empty() {
        Some(Table::new(rt, alloc, relay, seats).goes(way))
    } else {
        asks(rt, alloc, relay, seats, way)
    }
}
