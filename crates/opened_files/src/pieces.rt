//! Cells that are drawn in as many edits as they need.

ghost use Rattle.std.specs.Prelude.{◌≡◌, ◌<◌, ◌^◌, ℕ, IfOk, length};
ghost use Rattle.edit_stamps.specs.PlaneMap.{IsGreatestStamp};
ghost use Rattle.replica_events.specs.declared.edit_spec.EditSpec.TheVariants.{Cells};
ghost use Rattle.stamped_tree.specs.Plane.{map_of};
ghost use Rattle.opened_files.specs.Counters.{edits_for, suffice};

use edit_stamps::{MOST_CELLS, Stamp, counter_of};
use pattern_cells::Cell;
use replica_events::{CellList, EditSpec};
use stamped_tree::Plane;
use std::alloc::{AllocError, Global};

/// What is to be drawn where some cells are.
pub fn spec_of(alloc: Global, cells: &[Cell]) -> Result<EditSpec, AllocError>
    ensures { IfOk result (λ spec. spec ≡ Cells cells.now) }
{
    let mut copy = Vec::new(alloc);
    copy.extend_from_slice(cells)?;
    Ok(EditSpec::Cells(CellList::of_vec(copy)))
}

/// Whether counters are left for all edits that draw some cells, above one and above those of a plane.
pub(crate) fn suffice(plane: &Plane, after: u64, cells: &[Cell]) -> bool
    requires { after < 2 ^ 48 }
    ensures { (stamp : ℕ) × IsGreatestStamp stamp (map_of plane.now) × (result ≡ suffice after stamp cells.now) }
{
    let greatest = after.max(counter_of(plane.greatest_stamp()));
    greatest + edits_for(cells) <= Stamp::LAST_COUNTER
}

/// How many edits draw some cells.
fn edits_for(cells: &[Cell]) -> u64
    ensures { result ≡ edits_for (length cells.now) }
{
    let (whole, rest) = (cells.len() / MOST_CELLS, cells.len() % MOST_CELLS);
    whole as u64 + u64::from(rest != 0)
}
