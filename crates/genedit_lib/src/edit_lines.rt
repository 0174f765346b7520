//! The lines that tell edits.

ghost use Rattle.std.specs.Prelude.{◌≡◌, ◌++◌, OnErr, OnOk};
ghost use mathlib.Core.List.{IsPrefix};
ghost use Rattle.genedit_lib.specs.EditLines.{area_text, cell_text, cells_text, edit_line, edit_lines, place_text, rect_text, size_text};

use crate::output::{push_apart, push_coordinate, push_stamp};
use edit_stamps::{Edit, Rect};
use pattern_cells::Cell;
use std::alloc::AllocError;

/// A line for each edit.
pub fn push_edits(out: &mut Vec<u8>, edits: &[Edit]) -> Result<(), AllocError>
    ensures told { OnOk result (out.new.items ≡ out.old.items ++ edit_lines edits.now) }
    ensures kept { OnErr result (IsPrefix out.old.items out.new.items) }
{
    for edit in edits {
        push_edit(out, edit)?;
    }
    Ok(())
}

/// Counter and replica of an edit's stamp, its area where it has one, and its cells in their order.
pub fn push_edit(out: &mut Vec<u8>, edit: &Edit) -> Result<(), AllocError>
    ensures told { OnOk result (out.new.items ≡ out.old.items ++ edit_line edit.now) }
    ensures kept { OnErr result (IsPrefix out.old.items out.new.items) }
{
    out.extend_from_slice(b"edit ")?;
    push_stamp(out, edit.stamp().number())?;
    push_area(out, edit.area())?;
    out.extend_from_slice(b" cells")?;
    push_cells(out, edit.listed_cells())?;
    out.push(b'\n')?;
    Ok(())
}

/// The area of an edit, where it has one.
fn push_area(out: &mut Vec<u8>, area: Option<Rect>) -> Result<(), AllocError>
    ensures told { OnOk result (out.new.items ≡ out.old.items ++ area_text area) }
    ensures kept { OnErr result (IsPrefix out.old.items out.new.items) }
{
    match area {
        Some(area) => push_rect(out, area),
        None => Ok(()),
    }
}

fn push_rect(out: &mut Vec<u8>, area: Rect) -> Result<(), AllocError>
    ensures told { OnOk result (out.new.items ≡ out.old.items ++ rect_text area) }
    ensures kept { OnErr result (IsPrefix out.old.items out.new.items) }
{
    out.extend_from_slice(b" area")?;
    push_place(out, area.x, area.y)?;
    push_size(out, area)
}

/// Width and height, each behind a blank.
fn push_size(out: &mut Vec<u8>, area: Rect) -> Result<(), AllocError>
    ensures told { OnOk result (out.new.items ≡ out.old.items ++ size_text area) }
    ensures kept { OnErr result (IsPrefix out.old.items out.new.items) }
{
    push_apart(out, u64::from(area.width))?;
    push_apart(out, u64::from(area.height))
}

/// Column, row and state of each cell, each number behind a blank.
pub fn push_cells(out: &mut Vec<u8>, cells: &[Cell]) -> Result<(), AllocError>
    ensures told { OnOk result (out.new.items ≡ out.old.items ++ cells_text cells.now) }
    ensures kept { OnErr result (IsPrefix out.old.items out.new.items) }
{
    for cell in cells {
        push_cell(out, *cell)?;
    }
    Ok(())
}

fn push_cell(out: &mut Vec<u8>, cell: Cell) -> Result<(), AllocError>
    ensures told { OnOk result (out.new.items ≡ out.old.items ++ cell_text cell) }
    ensures kept { OnErr result (IsPrefix out.old.items out.new.items) }
{
    push_place(out, cell.x, cell.y)?;
    push_apart(out, u64::from(cell.state))
}

/// A column and a row, each behind a blank.
fn push_place(out: &mut Vec<u8>, x: i32, y: i32) -> Result<(), AllocError>
    ensures told { OnOk result (out.new.items ≡ out.old.items ++ place_text x y) }
    ensures kept { OnErr result (IsPrefix out.old.items out.new.items) }
{
    push_coordinate(out, x)?;
    push_coordinate(out, y)
}
