//! How many cells there are at several generations.

ghost use Rattle.std.specs.Prelude.{◌≡◌, ◌++◌, ◌≤◌, ◌^◌, ℕ, codes, decimal, IfErr, IfOk, IfSome, OnErr, OnOk};
ghost use mathlib.Core.List.{IsPrefix};
ghost use Rattle.edit_stamps.specs.PlaneMap.{HasStatesBelow};
ghost use Rattle.square_store.specs.Limits.{usual_room};
ghost use Rattle.stamped_tree.specs.Plane.{map_of};
ghost use Rattle.generation_engine.specs.Universe.{states_in_writes};
ghost use Rattle.export.specs.Asking.{CountsAt};
ghost use Rattle.export.specs.Export.{IsRoomWanted};
ghost use Rattle.export.specs.Kept.{IsRunOf};
ghost use Rattle.command_words.specs.Ranges.{last_of};
ghost use Rattle.told_generations.specs.Counts.{IsRoomWantedWithin, PrintsCount, PrintsCounts, PrintsEachCount, counted_line};

use crate::lines::push_refusal;
use command_words::GenerationRange;
use export::{Count, ExportFault, LAST_GENERATION, count_on};
use genedit_lib::push_line;
use generation_engine::Engine;
use itoa::Buffer;
use replica_core::{Replica, Reply, Stop};
use std::alloc::{AllocError, Global};

/// Prints how many cells a replica holds at each generation of a range, and in which box, in a line each: `generation G: `,
/// and then as a count of it. Each is made from the one before. Where the last of them is past 2^29 that alone is told, as
/// its count is refused.
pub fn push_counts(
    alloc: Global,
    out: &mut Vec<u8>,
    replica: &Replica,
    range: GenerationRange,
) -> Result<(), Stop>
    ensures told { OnOk result (PrintsCounts replica.now.rule (states_in_writes (map_of replica.now.plane)) range out.old.items out.new.items) }
    ensures kept { OnErr result (IsPrefix out.old.items out.new.items) }
    ensures full { result ≡ Err Stop.StoreFull → IsRoomWantedWithin replica.now.rule replica.now.plane range }
{
    if range.last_generation() > LAST_GENERATION {
        return push_refusal(alloc, out, ExportFault::GenRange);
    }
    push_each(alloc, out, replica, range)
}

/// A line for each generation of a range, the last of which is one.
fn push_each(
    alloc: Global,
    out: &mut Vec<u8>,
    replica: &Replica,
    range: GenerationRange,
) -> Result<(), Stop>
    requires { last_of range ≤ 2 ^ 29 }
    ensures told { OnOk result (PrintsEachCount replica.now.rule (states_in_writes (map_of replica.now.plane)) range out.old.items out.new.items) }
    ensures kept { OnErr result (IsPrefix out.old.items out.new.items) }
    ensures full { result ≡ Err Stop.StoreFull → IsRoomWantedWithin replica.now.rule replica.now.plane range }
{
    let mut kept = None;
    let lines = u64::from(range.steps()) + 1;
    for line in 0..lines {
        push_one(alloc, out, replica, range.at(line as u32), &mut kept)?;
    }
    Ok(())
}

/// The line of a generation, by the universe that the one before left, if there is one.
fn push_one(
    alloc: Global,
    out: &mut Vec<u8>,
    replica: &Replica,
    generation: u32,
    kept: &mut Option<Engine>,
) -> Result<(), Stop>
    requires generation { generation ≤ 2 ^ 29 }
    requires kept { IfSome kept.old (IsRunOf replica.now.rule (states_in_writes (map_of replica.now.plane))) }
    ensures told { OnOk result (PrintsCount replica.now.rule (states_in_writes (map_of replica.now.plane)) generation out.old.items out.new.items) }
    ensures part { OnErr result (IsPrefix out.old.items out.new.items) }
    ensures full { result ≡ Err Stop.StoreFull → IsRoomWanted replica.now.rule replica.now.plane generation usual_room }
    ensures kept { IfSome kept.new (IsRunOf replica.now.rule (states_in_writes (map_of replica.now.plane))) }
{
    let count = count_at(alloc, replica, generation, kept)?;
    push_counted(alloc, out, generation, count)?;
    Ok(())
}

/// How many cells there are at a generation.
fn count_at(
    alloc: Global,
    replica: &Replica,
    generation: u32,
    kept: &mut Option<Engine>,
) -> Result<Count, Stop>
    requires generation { generation ≤ 2 ^ 29 }
    requires kept { IfSome kept.old (IsRunOf replica.now.rule (states_in_writes (map_of replica.now.plane))) }
    ensures count { IfOk result (CountsAt replica.now.rule (states_in_writes (map_of replica.now.plane)) generation) }
    ensures full { result ≡ Err Stop.StoreFull → IsRoomWanted replica.now.rule replica.now.plane generation usual_room }
    ensures kept { IfSome kept.new (IsRunOf replica.now.rule (states_in_writes (map_of replica.now.plane))) }
{
    match count_on(alloc, &replica.rule(), replica.plane(), generation, kept) {
        Ok(count) => Ok(count),
        Err(ExportFault::StoreFull) => Err(Stop::StoreFull),
        Err(ExportFault::Memory) => Err(Stop::Memory),
        Err(ExportFault::GenRange | ExportFault::TooManyCells) => unreachable!(),
    }
}

/// The line of a count.
fn push_counted(
    alloc: Global,
    out: &mut Vec<u8>,
    generation: u32,
    count: Count,
) -> Result<(), AllocError>
    ensures told { OnOk result (out.new.items ≡ out.old.items ++ counted_line generation count) }
    ensures kept { OnErr result (IsPrefix out.old.items out.new.items) }
{
    out.extend_from_slice(b"generation ")?;
    out.extend_from_slice(Buffer::new().format(generation).as_bytes())?;
    out.extend_from_slice(b": ")?;
    push_line(alloc, out, &Reply::Counted(count))?;
    Ok(())
}
