//! Edits as texts.

use edit_stamps::{Edit, EditFault};
use std::alloc::{AllocError, Global};

/// Its stamp, and its area where it has one.
fn head(alloc: Global, edit: &Edit) -> Result<String, AllocError> {
    let (counter, replica) = (edit.stamp().counter(), edit.stamp().replica());
    match edit.area() {
        Some(area) => format!(in alloc;
            "{counter} {replica} area {} {} {} {}",
            area.x, area.y, area.width, area.height
        ),
        None => format!(in alloc; "{counter} {replica}"),
    }
}

/// An edit: its stamp, its area where it has one, and its cells.
fn edit(alloc: Global, edit: &Edit) -> Result<String, AllocError> {
    let mut text = head(alloc, edit)?;
    for cell in edit.listed_cells() {
        text = format!(in alloc; "{text}, {} {} {}", cell.x, cell.y, cell.state)?;
    }
    Ok(text)
}

/// What a maker of edits answers: the edit, or the name of its refusal.
fn made(alloc: Global, made: Result<Edit, EditFault>) -> Result<String, AllocError> {
    match made {
        Ok(made) => edit(alloc, &made),
        Err(fault) => fault.to_string(alloc),
    }
}

/// Whether that is this text.
pub fn is(alloc: Global, answer: Result<Edit, EditFault>, text: &str) -> Result<bool, AllocError> {
    Ok(made(alloc, answer)?.as_str() == text)
}

/// How many cells an edit has.
pub fn count(made: Result<Edit, EditFault>) -> Result<usize, EditFault> {
    Ok(made?.listed_cells().len())
}

/// Puts an edit behind others.
pub fn push(edits: &mut Vec<Edit>, edit: Edit) -> Result<(), AllocError> {
    edits.push(edit)?;
    Ok(())
}
