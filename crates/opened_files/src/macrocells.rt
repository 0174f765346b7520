//! The cells of macrocells that are opened, and their refusals.

ghost use Rattle.std.specs.Prelude.{◌≡◌, ◌⊎◌, IfErr, IfOk, OnOk, None, Some};
ghost use Rattle.pattern_cells.specs.Cells.{are_states_below};
ghost use Rattle.edit_stamps.specs.Making.{are_in_plane};
ghost use Rattle.edit_stamps.specs.Plane.{is_coordinate_in_plane};
ghost use Rattle.macrocell_text.specs.Finding.{AreListed};
ghost use Rattle.macrocell_text.specs.Readings.{macrocell_told};
ghost use Rattle.opened_files.specs.Macrocells.{cells_refusal, fault_of_listing, macrocell_refusal, squares_refusal};

use edit_stamps::EditFault;
use export::ExportFault;
use generations_rule::Rule;
use itoa::Buffer;
use macrocell_text::{ListingFault, Macrocell, MacrocellFault};
use pattern_cells::Cell;
use replica_core::Fault;
use std::alloc::{AllocError, Global};

/// The least coordinate of the plane, and one past the greatest.
const LEAST: i32 = -0x4000_0000;

const PAST: i32 = 0x4000_0000;

/// The cells of a macrocell's map, which may all be drawn under a rule; or the first refusal: more than 2^24, which
/// are counted before any is listed (23), one outside the plane (10), one whose state the rule does not have (11).
pub(crate) fn cells_under(
    alloc: Global,
    rule: &Rule,
    macrocell: &Macrocell,
) -> Result<Vec<Cell>, Fault>
    ensures listed { IfOk result (λ cells. AreListed (macrocell_told macrocell.now).squares cells.items) }
    ensures allowed { OnOk result (squares_refusal rule.now.states (macrocell_told macrocell.now).squares ≡ None) }
    ensures fault { IfErr result (λ fault. (fault ≡ Fault.Memory) ⊎ (squares_refusal rule.now.states (macrocell_told macrocell.now).squares ≡ Some fault)) }
{
    let cells = match macrocell.cells(alloc) {
        Ok(cells) => cells,
        Err(fault) => return Err(fault_of_listing(fault)),
    };
    match cells_refusal(rule.states(), &cells) {
        Some(fault) => Err(fault),
        None => Ok(cells),
    }
}

/// Why cells are not listed, as a replica refuses them.
fn fault_of_listing(fault: ListingFault) -> Fault
    ensures { result ≡ fault_of_listing fault }
{
    match fault {
        ListingFault::TooManyCells => Fault::Export(ExportFault::TooManyCells),
        ListingFault::OutOfPlane => Fault::Edit(EditFault::OutOfPlane),
        ListingFault::Memory => Fault::Memory,
    }
}

/// The first refusal of cells that are to be drawn, under a rule of so many states.
fn cells_refusal(states: u16, cells: &[Cell]) -> Option<Fault>
    ensures { result ≡ cells_refusal states cells.now }
{
    if !are_in_plane(cells) {
        Some(Fault::Edit(EditFault::OutOfPlane))
    } else if !are_states_below(states, cells) {
        Some(Fault::Edit(EditFault::StateRange))
    } else {
        None
    }
}

fn are_in_plane(cells: &[Cell]) -> bool
    ensures { result ≡ are_in_plane cells.now }
{
    cells
        .iter()
        .all(|cell| is_in_plane(cell.x) && is_in_plane(cell.y))
}

fn is_in_plane(n: i32) -> bool
    ensures { result ≡ is_coordinate_in_plane n }
{
    LEAST <= n && n < PAST
}

fn are_states_below(states: u16, cells: &[Cell]) -> bool
    ensures { result ≡ are_states_below states cells.now }
{
    cells.iter().all(|cell| u16::from(cell.state) < states)
}

/// The line of the refusal of a text that is no macrocell, as `refused 44 Square 17`.
pub fn macrocell_refusal(alloc: Global, fault: MacrocellFault) -> Result<Vec<u8>, AllocError>
    ensures { IfOk result (λ line. line.items ≡ macrocell_refusal fault) }
{
    let name = fault.to_string(alloc)?;
    let mut line = b"refused ".to_vec(alloc)?;
    line.extend_from_slice(Buffer::new().format(fault.number()).as_bytes())?;
    line.push(b' ')?;
    line.extend_from_slice(name.as_bytes())?;
    line.push(b'\n')?;
    Ok(line)
}
