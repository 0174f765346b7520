//! Cells some generations later.

ghost use Rattle.std.specs.Prelude.{◌≡◌, ◌^◌, ◌<◌, ◌≤◌, Err, IfErr, IfOk, OnOk};
ghost use Rattle.edit_stamps.specs.PlaneMap.{HasStatesBelow};
ghost use Rattle.stamped_tree.specs.Plane.{map_of};
ghost use Rattle.generation_engine.specs.Universe.{states_in_writes};
ghost use Rattle.square_store.specs.Limits.{usual_room};
ghost use Rattle.export.specs.Export.{AreExported, IsExportRefused, IsRoomWanted, most_cells};

use export::ExportFault;
use generations_rule::Rule;
use pattern_cells::Cell;
use stamped_tree::Plane;
use std::alloc::Global;

/// The last generation.
const LAST: u32 = 0x2000_0000;

/// How many cells are listed at most.
const MOST_CELLS: u64 = 0x100_0000;

/// Whether there is such a generation: none is greater than 2^29.
pub fn in_range(generation: u32) -> Result<(), ExportFault>
    ensures ok { OnOk result (generation ≤ 2 ^ 29) }
    ensures err { IfErr result (λ fault. (fault ≡ ExportFault.GenRange) × (2 ^ 29 < generation)) }
{
    if generation > LAST {
        return Err(ExportFault::GenRange);
    }
    Ok(())
}

/// The cells of a plane that are not dead some generations later, by `y`, then `x`; `TooManyCells`, exactly
/// where they are more than 2^24.
pub fn cells_at(
    alloc: Global,
    rule: &Rule,
    plane: &Plane,
    generation: u32,
) -> Result<Vec<Cell>, ExportFault>
    requires states { HasStatesBelow rule.now.states (map_of plane.now) }
    requires generation { generation ≤ 2 ^ 29 }
    ensures cells { IfOk result (λ cells. AreExported rule.now (states_in_writes (map_of plane.now)) generation most_cells cells.items) }
    ensures err { IfErr result (IsExportRefused rule.now (states_in_writes (map_of plane.now)) generation most_cells) }
    ensures full { result ≡ Err ExportFault.StoreFull → IsRoomWanted rule.now plane.now generation usual_room }
{
    export::cells_at(alloc, rule, plane, generation, MOST_CELLS)
}
