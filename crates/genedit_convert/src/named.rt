//! The RLE text of cells, with the rule as Golly spells it.

ghost use Rattle.std.specs.Prelude.{◌≡◌, ◌+◌, ◌≤◌, ◌++◌, OnOk, length, true};
ghost use Rattle.std.specs.List.{position_or_len};
ghost use Rattle.generations_rule.specs.RuleText.{text_of};
ghost use Rattle.pattern_cells.specs.Cells.{are_nonzero, is_sorted, are_states_below};
ghost use Rattle.genedit_convert.specs.Names.{is_rule_letter, name_place, renamed, text_named};
ghost use Rattle.macrocell_lines.specs.Macrocell.{rule_name};

use generations_rule::Rule;
use macrocell_lines::rule_name;
use multistate_rle::write;
use pattern_cells::Cell;
use std::alloc::{AllocError, Global};

/// Puts the RLE text of cells at a generation behind what stands there.
pub fn push_text(
    alloc: Global,
    out: &mut Vec<u8>,
    rule: &Rule,
    generation: u64,
    cells: &[Cell],
) -> Result<(), AllocError>
    requires sorted { is_sorted cells.now ≡ true }
    requires nonzero { are_nonzero cells.now ≡ true }
    requires below { are_states_below rule.now.states cells.now ≡ true }
    ensures { OnOk result (out.new.items ≡ out.old.items ++ text_named (rule_name rule.now) rule.now generation cells.now) }
{
    let old = rule.write_text(alloc)?;
    let text = write(alloc, rule, generation, cells)?;
    let name = rule_name(alloc, rule)?;
    push_renamed(out, old.len(), &name, &text)
}

/// A written text with another name for its rule, which has so many bytes.
fn push_renamed(out: &mut Vec<u8>, count: usize, name: &[u8], text: &[u8]) -> Result<(), AllocError>
    requires { name_place text.now + count ≤ length text.now }
    ensures { OnOk result (out.new.items ≡ out.old.items ++ renamed count name.now text.now) }
{
    let place = rule_letter_at(text) + 7;
    out.extend_from_slice(&text[..place])?;
    out.extend_from_slice(name)?;
    out.extend_from_slice(&text[place + count..])
}

/// Where the first letter `r` stands.
fn rule_letter_at(text: &[u8]) -> usize
    ensures count { result ≡ position_or_len is_rule_letter text.now }
    ensures within { result ≤ length text.now }
{
    text.iter().take_while(|byte| **byte != b'r').count()
}
