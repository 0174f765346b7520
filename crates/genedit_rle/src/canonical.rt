//! The canonical form of a text.

ghost use Rattle.std.specs.Prelude.{◌≡◌, IfOk, IfErr, IfSome, IfNone, Ok, Err, Some, None, option_map};
ghost use Rattle.multistate_rle.specs.Writing.{text_of_cells};
ghost use Rattle.genedit_rle.specs.Canonical.{canonical, cells_in_plane, pattern_refusal, form_written};
ghost use Rattle.genedit_rle.specs.Fault.{refusal_of};

use crate::fault::CanonicalFault;
use edit_stamps::{Corner, are_placeable, have_states_below, placed_cells};
use generations_rule::Rule;
use multistate_rle::{parse, write};
use pattern_cells::Pattern;
use std::alloc::{AllocError, Global};

/// The canonical form of an RLE text under a rule, or its first refusal; the fault is `Memory` only
/// where memory was refused.
pub fn canonical_form(alloc: Global, rule: &Rule, text: &[u8]) -> Result<Vec<u8>, CanonicalFault>
    ensures form { IfOk result (λ form. canonical rule.now text.now ≡ Ok form.items) }
    ensures fault { IfErr result (λ fault. IfSome (refusal_of fault) (λ refusal. canonical rule.now text.now ≡ Err refusal)) }
{
    let pattern = parse(alloc, text)?;
    form_of(alloc, rule, &pattern)
}

/// The text of a pattern that was read; it is looked at for refusals before memory is taken.
fn form_of(alloc: Global, rule: &Rule, pattern: &Pattern) -> Result<Vec<u8>, CanonicalFault>
    ensures form { IfOk result (λ form. form_written rule.now pattern.now ≡ Ok form.items) }
    ensures fault { IfErr result (λ fault. IfSome (refusal_of fault) (λ refusal. form_written rule.now pattern.now ≡ Err refusal)) }
    ensures want_last { IfErr result (λ fault. IfNone (refusal_of fault) (pattern_refusal rule.now.states pattern.now ≡ None)) }
{
    if let Some(fault) = fault_of(rule, pattern) {
        return Err(fault);
    }
    let form = text_of(alloc, rule, pattern)?;
    Ok(form)
}

/// The first refusal of a pattern that was read.
fn fault_of(rule: &Rule, pattern: &Pattern) -> Option<CanonicalFault>
    ensures { option_map refusal_of result ≡ option_map Some (pattern_refusal rule.now.states pattern.now) }
{
    let cells = pattern.cells();
    if !are_placeable(cells, position_of(pattern)) {
        Some(CanonicalFault::OutOfPlane)
    } else if !have_states_below(rule.states(), cells) {
        Some(CanonicalFault::StateRange)
    } else {
        None
    }
}

/// The text of a pattern that is refused nothing.
fn text_of(alloc: Global, rule: &Rule, pattern: &Pattern) -> Result<Vec<u8>, AllocError>
    requires { pattern_refusal rule.now.states pattern.now ≡ None }
    ensures { IfOk result (λ text. text.items ≡ text_of_cells rule.now pattern.now.generation (cells_in_plane pattern.now)) }
{
    let cells = placed_cells(alloc, pattern.cells(), position_of(pattern))?;
    write(alloc, rule, pattern.generation(), &cells)
}

/// Where the text says that its box's upper left corner was.
fn position_of(pattern: &Pattern) -> Corner
    ensures { result ≡ record { x = pattern.now.pos.0; y = pattern.now.pos.1 } }
{
    let (x, y) = pattern.pos();
    Corner::at(x, y)
}
