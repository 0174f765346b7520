//! The rule under which a text is shown.

ghost use Rattle.std.specs.Prelude.{◌≡◌, slice_index_or};
ghost use Rattle.genedit_view.specs.Reading.{begins_as_state, own_rule, pattern_rule, state_rule};
ghost use Rattle.genedit_view.specs.Rules.{given_or_told, rule_told};

use crate::fault::ViewFault;
use cell_files::file_rule;
use generations_rule::Rule;
use header_rules::{HeaderRule, part_at};

/// What the text of a state begins with.
const STATE_MAGIC: &[u8] = b"GLWS";

/// Whether a text is taken for a state.
pub fn begins_as_state(text: &[u8]) -> bool
    ensures { result ≡ begins_as_state text.now }
{
    text.starts_with(STATE_MAGIC)
}

/// The rule of a pattern's file: the one that is given, else the one that it tells.
pub fn pattern_rule(given: Option<Rule>, text: &[u8]) -> Result<Rule, ViewFault>
    ensures { result ≡ pattern_rule given text.now }
{
    given_or_told(given, file_rule(text))
}

/// The rule that is given, else the one that is told.
pub fn given_or_told(given: Option<Rule>, told: Option<HeaderRule>) -> Result<Rule, ViewFault>
    ensures { result ≡ given_or_told given told }
{
    match given {
        Some(rule) => Ok(rule),
        None => rule_told(told),
    }
}

/// The rule that is told.
fn rule_told(told: Option<HeaderRule>) -> Result<Rule, ViewFault>
    ensures { result ≡ rule_told told }
{
    let Some(told) = told else {
        return Err(ViewFault::NoRule);
    };
    match told.rule {
        Ok(rule) => Ok(rule),
        Err(why) => Err(ViewFault::HeaderRule(told.place as u64, why)),
    }
}

/// The rule of a state's text: the one that is given, else its own.
pub fn state_rule(given: Option<Rule>, text: &[u8]) -> Option<Rule>
    ensures { result ≡ state_rule given text.now }
{
    match given {
        Some(rule) => Some(rule),
        None => own_rule(text),
    }
}

/// The rule that a state's text tells.
fn own_rule(text: &[u8]) -> Option<Rule>
    ensures { result ≡ own_rule text.now }
{
    Rule::parse(part_at(text, 6, length_told(text))).ok()
}

/// How long a state's text says that its rule is; 0 where it ends before.
fn length_told(text: &[u8]) -> usize
    ensures { result ≡ slice_index_or text.now 5 0 }
{
    match text.get(5) {
        Some(length) => usize::from(*length),
        None => 0,
    }
}
