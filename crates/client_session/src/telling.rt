//! What is told of edits and planes that came.

ghost use Rattle.std.specs.Prelude.{[], ◌≡◌, IfErr, IfOk, OnErr, OnOk};
ghost use mathlib.Core.List.{IsPrefix};
ghost use Rattle.stamped_tree.specs.Plane.{map_of};
ghost use Rattle.stamped_writes.specs.Write.{unwritten};
ghost use Rattle.client_session.specs.Moment.{IsWant};
ghost use Rattle.client_session.specs.Telling.{AllFindsNoRoom, AreEditsAdded, CameFindsNoRoom, ChangesFindNoRoom, FindsNoRoom, MapFindsNoRoom, ShowsAll, ShowsEdits, ShowsMap, ShowsPlane, TellsCame, TellsChanges, want_of};

use crate::fault::CommandFault;
use crate::lines::push_now;
use cell_changes::Watched;
use edit_stamps::Edit;
use held_plane::{Added, HeldPlane};
use keyed_hash::HashKey;
use pattern_cells::Cell;
use stamped_tree::{Limits, Plane, StoreFault};
use std::alloc::{AllocError, Global};

/// Tells the cells that look different by an edit of the client's own, where such cells are told.
pub(crate) fn tell_own(
    alloc: Global,
    shown: &mut Option<HeldPlane>,
    out: &mut Vec<u8>,
    edits: &[Edit],
) -> Result<(), CommandFault>
    ensures told { OnOk result (TellsCame [] edits.now shown.old shown.new out.old.items out.new.items) }
    ensures want { IfErr result (IsWant (CameFindsNoRoom edits.now shown.old shown.new out.old.items out.new.items)) }
    ensures kept { OnErr result (IsPrefix out.old.items out.new.items) }
{
    match shown {
        Some(shown) => tell_changes(alloc, shown, out, edits),
        None => Ok(()),
    }
}

/// Tells the cells that look different once edits are joined into what was told.
pub(crate) fn tell_changes(
    alloc: Global,
    shown: &mut HeldPlane,
    out: &mut Vec<u8>,
    edits: &[Edit],
) -> Result<(), CommandFault>
    ensures told { OnOk result (TellsChanges edits.now shown.old shown.new out.old.items out.new.items) }
    ensures want { IfErr result (IsWant (ChangesFindNoRoom edits.now shown.old shown.new out.old.items out.new.items)) }
    ensures kept { OnErr result (IsPrefix out.old.items out.new.items) }
{
    let cells = changed_cells(alloc, shown, edits)?;
    push_now(out, &cells)?;
    Ok(())
}

/// Joins edits into what was told; the cells that look different then.
fn changed_cells(
    alloc: Global,
    shown: &mut HeldPlane,
    edits: &[Edit],
) -> Result<Vec<Cell>, CommandFault>
    ensures shows { IfOk result (λ cells. ShowsEdits edits.now shown.old shown.new cells.items) }
    ensures want { IfErr result (IsWant (FindsNoRoom (AreEditsAdded edits.now) shown.old shown.new)) }
{
    let watched = Watched::of_edits(alloc, shown.plane(), edits)?;
    match shown.join(Added::Edits(edits)) {
        Ok(()) => {}
        Err(fault) => return Err(want_of(fault)),
    }
    let cells = watched.changes(alloc, shown.plane())?;
    Ok(cells)
}

/// Has a whole plane stand for what was told, where the cells that look different are told; those that do then,
/// or else none.
pub(crate) fn show_all(
    alloc: Global,
    shown: &mut Option<HeldPlane>,
    plane: &Plane,
) -> Result<Vec<Cell>, CommandFault>
    ensures shows { IfOk result (λ cells. ShowsAll plane.now shown.old shown.new cells.items) }
    ensures want { IfErr result (IsWant (AllFindsNoRoom plane.now shown.old)) }
    ensures err { OnErr result (shown.new ≡ shown.old) }
{
    match shown {
        Some(shown) => replaced_cells(alloc, shown, plane),
        None => Ok(Vec::new(alloc)),
    }
}

/// Has a plane stand for what was told; the cells that look different then.
fn replaced_cells(
    alloc: Global,
    shown: &mut HeldPlane,
    plane: &Plane,
) -> Result<Vec<Cell>, CommandFault>
    ensures shows { IfOk result (λ cells. ShowsPlane plane.now shown.old shown.new cells.items) }
    ensures want { IfErr result (IsWant (MapFindsNoRoom plane.now)) }
    ensures err { OnErr result (shown.new ≡ shown.old) }
{
    let watched = Watched::of_planes(shown.plane(), plane)?;
    let copy = held(alloc, plane)?;
    let cells = watched.changes(alloc, plane)?;
    *shown = copy;
    Ok(cells)
}

/// A plane with the same map.
fn held(alloc: Global, plane: &Plane) -> Result<HeldPlane, CommandFault>
    ensures shows { IfOk result (ShowsMap (map_of plane.now)) }
    ensures want { IfErr result (IsWant (MapFindsNoRoom plane.now)) }
{
    let mut copy = blank(alloc, plane.key())?;
    match copy.join(Added::Map(plane)) {
        Ok(()) => Ok(copy),
        Err(fault) => Err(want_of(fault)),
    }
}

/// A plane where nothing was written, with as much room as the replica's own.
pub(crate) fn blank(alloc: Global, key: HashKey) -> Result<HeldPlane, AllocError>
    ensures { IfOk result (ShowsMap (λ _. unwritten)) }
{
    HeldPlane::new(alloc, Limits::of_key(key))
}

/// A plane's want, as the client's.
fn want_of(fault: StoreFault) -> CommandFault
    ensures { result ≡ want_of fault }
{
    match fault {
        StoreFault::Memory => CommandFault::Memory,
        StoreFault::StoreFull => CommandFault::StoreFull,
    }
}
