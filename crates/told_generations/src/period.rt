//! The period of what stands at a generation.

ghost use Rattle.std.specs.Prelude.{◌≡◌, ◌++◌, codes, OnErr, OnOk};
ghost use mathlib.Core.List.{IsPrefix};
ghost use Rattle.stamped_tree.specs.Plane.{map_of};
ghost use Rattle.generation_engine.specs.Universe.{states_in_writes};
ghost use Rattle.export.specs.declared.fault.ExportFault.TheVariants as exports;
ghost use Rattle.map_periods.specs.Periods.{IsRefusedWithin};
ghost use Rattle.map_periods.specs.PlanePeriods.{refuses_export};
ghost use Rattle.map_periods.specs.Told.{period_text};
ghost use Rattle.told_generations.specs.Searches.{PrintsPeriod};

use crate::lines::push_refusal;
use map_periods::{ToldPeriod, period_in};
use replica_core::{Replica, Stop};
use std::alloc::{AllocError, Global};

/// Prints in a line the least period from 1 to `most` of what a replica holds `first` generations later, and by what it
/// moves: `period P moves X Y`, or `none to MOST`. Cells that are none have period 1, and move by 0 0. A generation that is
/// refused, where no period is met before, is told as its export is: `GenRange` past 2^29, `TooManyCells` past 2^24 cells.
pub fn push_period(
    alloc: Global,
    out: &mut Vec<u8>,
    replica: &Replica,
    first: u32,
    most: u16,
) -> Result<(), Stop>
    ensures told { OnOk result (PrintsPeriod replica.now.rule (states_in_writes (map_of replica.now.plane)) first most out.old.items out.new.items) }
    ensures kept { OnErr result (IsPrefix out.old.items out.new.items) }
    ensures full { result ≡ Err Stop.StoreFull → (out.new.items ≡ out.old.items)
        × IsRefusedWithin replica.now.rule (states_in_writes (map_of replica.now.plane)) (refuses_export replica.now.rule (states_in_writes (map_of replica.now.plane))) first most exports.StoreFull }
{
    match period_in(alloc, &replica.rule(), replica.plane(), first, most) {
        Ok(period) => Ok(push_answer(alloc, out, ToldPeriod { period, most })?),
        Err(fault) => push_refusal(alloc, out, fault),
    }
}

/// The answer of a search.
fn push_answer(alloc: Global, out: &mut Vec<u8>, told: ToldPeriod) -> Result<(), AllocError>
    ensures told { OnOk result (out.new.items ≡ out.old.items ++ (period_text told.most told.period ++ codes "\n")) }
    ensures kept { OnErr result (IsPrefix out.old.items out.new.items) }
{
    let text = told.to_string(alloc)?;
    out.extend_from_slice(text.as_bytes())?;
    out.push(b'\n')?;
    Ok(())
}
