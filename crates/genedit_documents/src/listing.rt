//! The edits of a document's file, listed.

ghost use Rattle.std.specs.Prelude.{◌≡◌, ◌++◌, IfOk, OnOk, decimal};
ghost use Rattle.genedit_documents.specs.Listing.{clock_of, counts_text, first_of, log_text, summary_line};

use edit_stamps::Edit;
use genedit_lib::push_edits;
use generations_rule::Rule;
use itoa::Buffer;
use std::alloc::{AllocError, Global};

/// The first edits of a list: so many at most, or all of them where no number is given.
pub fn first_edits(edits: &[Edit], most: Option<u64>) -> &[Edit]
    ensures { result.now ≡ first_of most edits.now }
{
    match most {
        Some(most) if most < edits.len() as u64 => &edits[..most as usize],
        _ => edits,
    }
}

/// A line for each edit, `edit C R cells x y s ..`, in their order; and behind them `N edits RULE clock C lost B`:
/// how many they are, their rule, their greatest counter, 0 without an edit, and how many bytes of the file
/// are lost.
pub fn log_text(
    alloc: Global,
    rule: &Rule,
    edits: &[Edit],
    lost: usize,
) -> Result<Vec<u8>, AllocError>
    ensures { IfOk result (λ text. text.items ≡ log_text rule.now edits.now lost) }
{
    let mut text = Vec::new(alloc);
    push_edits(&mut text, edits)?;
    push_number(&mut text, edits.len() as u64)?;
    push_summary(alloc, &mut text, rule, edits, lost)?;
    Ok(text)
}

/// What stands in the last line behind the number of edits.
fn push_summary(
    alloc: Global,
    text: &mut Vec<u8>,
    rule: &Rule,
    edits: &[Edit],
    lost: usize,
) -> Result<(), AllocError>
    ensures { OnOk result (text.new.items ≡ text.old.items ++ summary_line rule.now (clock_of edits.now) lost) }
{
    let rule = rule.write_text(alloc)?;
    text.extend_from_slice(b" edits ")?;
    text.extend_from_slice(&rule)?;
    push_counts(text, clock_of(edits), lost as u64)
}

/// The greatest counter, how many bytes are lost, and the end of the line.
fn push_counts(text: &mut Vec<u8>, clock: u64, lost: u64) -> Result<(), AllocError>
    ensures { OnOk result (text.new.items ≡ text.old.items ++ counts_text clock lost) }
{
    text.extend_from_slice(b" clock ")?;
    push_number(text, clock)?;
    text.extend_from_slice(b" lost ")?;
    push_number(text, lost)?;
    text.push(b'\n')?;
    Ok(())
}

/// The greatest counter of some edits, 0 where there is none.
fn clock_of(edits: &[Edit]) -> u64
    ensures { result ≡ clock_of edits.now }
{
    let mut clock = 0;
    for edit in edits {
        clock = edit.stamp().counter().max(clock);
    }
    clock
}

fn push_number(text: &mut Vec<u8>, number: u64) -> Result<(), AllocError>
    ensures { OnOk result (text.new.items ≡ text.old.items ++ decimal number) }
{
    text.extend_from_slice(Buffer::new().format(number).as_bytes())
}
