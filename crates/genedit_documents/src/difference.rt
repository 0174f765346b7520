//! How two documents differ.

ghost use Rattle.std.specs.Prelude.{◌≡◌, ◌++◌, OnOk};
ghost use Rattle.genedit_documents.specs.Differing.{IsDifference, difference_line};

use documents::{Document, DocumentFault};
use edit_stamps::Edit;
use genedit_lib::push_edit;
use std::alloc::{AllocError, Global};

/// A line for each edit that only one of two documents has, in the order of the stamps: `- edit C R ..` of the
/// first, `+ edit C R ..` of the second. Refused is what `Document::merge` refuses.
pub fn difference_text(
    alloc: Global,
    first: &Document,
    second: &Document,
) -> Result<Vec<u8>, DocumentFault>
    ensures { IsDifference first.now second.now result }
{
    let all = first.merge(alloc, second)?;
    let mut text = Vec::new(alloc);
    for edit in all.edits() {
        push_difference(&mut text, first, second, edit)?;
    }
    Ok(text)
}

/// The line of an edit, where only one of two documents has it.
fn push_difference(
    text: &mut Vec<u8>,
    first: &Document,
    second: &Document,
    edit: &Edit,
) -> Result<(), AllocError>
    ensures { OnOk result (text.new.items ≡ text.old.items ++ difference_line first.now.edits second.now.edits edit.now) }
{
    if !first.has(edit) {
        text.extend_from_slice(b"+ ")?;
    } else if !second.has(edit) {
        text.extend_from_slice(b"- ")?;
    } else {
        return Ok(());
    }
    push_edit(text, edit)
}
