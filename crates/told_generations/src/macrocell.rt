//! What a replica holds at a later generation, as a macrocell.

ghost use Rattle.std.specs.Prelude.{◌≡◌, ◌≤◌, ◌^◌, IfOk, OnErr};
ghost use mathlib.Core.List.{IsPrefix};
ghost use Rattle.generations_rule.specs.Evolution.{at};
ghost use Rattle.square_store.specs.Limits.{usual_room};
ghost use Rattle.stamped_tree.specs.Plane.{map_of};
ghost use Rattle.generation_engine.specs.Universe.{states_in_writes};
ghost use Rattle.export.specs.Export.{IsRoomWanted};
ghost use Rattle.macrocell_lines.specs.Macrocell.{IsMacrocell};
ghost use Rattle.told_generations.specs.Macrocells.{IsMacrocellGiven};

use crate::lines::push_refusal;
use export::{ExportFault, LAST_GENERATION, engine_at};
use macrocell_lines::write_macrocell;
use replica_core::{Replica, Stop};
use square_store::ROOM;
use std::alloc::Global;

/// The macrocell of what a replica holds so many generations later: Golly's format for maps as distinct squares, of any
/// number of cells. None where the generation is past 2^29, which is printed as its export is refused.
pub fn macrocell_at(
    alloc: Global,
    out: &mut Vec<u8>,
    replica: &Replica,
    generation: u32,
) -> Result<Option<Vec<u8>>, Stop>
    ensures given { IfOk result (IsMacrocellGiven (λ text. text.items) replica.now.rule (states_in_writes (map_of replica.now.plane)) generation out.old.items out.new.items) }
    ensures kept { OnErr result (IsPrefix out.old.items out.new.items) }
    ensures full { result ≡ Err Stop.StoreFull → (out.new.items ≡ out.old.items) × IsRoomWanted replica.now.rule replica.now.plane generation usual_room }
{
    if generation > LAST_GENERATION {
        push_refusal(alloc, out, ExportFault::GenRange)?;
        return Ok(None);
    }
    let text = macrocell_of(alloc, replica, generation)?;
    Ok(Some(text))
}

/// The same of a generation that is one.
fn macrocell_of(alloc: Global, replica: &Replica, generation: u32) -> Result<Vec<u8>, Stop>
    requires { generation ≤ 2 ^ 29 }
    ensures text { IfOk result (λ text. IsMacrocell replica.now.rule generation (at replica.now.rule (states_in_writes (map_of replica.now.plane)) generation) text.items) }
    ensures full { result ≡ Err Stop.StoreFull → IsRoomWanted replica.now.rule replica.now.plane generation usual_room }
{
    let rule = replica.rule();
    match engine_at(alloc, &rule, replica.plane(), generation, ROOM) {
        Ok(engine) => {
            let text = write_macrocell(alloc, &rule, u64::from(generation), &engine)?;
            Ok(text)
        }
        Err(ExportFault::StoreFull) => Err(Stop::StoreFull),
        Err(ExportFault::Memory) => Err(Stop::Memory),
        Err(ExportFault::GenRange | ExportFault::TooManyCells) => unreachable!(),
    }
}
