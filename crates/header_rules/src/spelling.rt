//! The rule that a text spells.

ghost use Rattle.std.specs.Prelude.{◌≡◌};
ghost use Rattle.header_rules.specs.SpelledRule.{misspelling, or_misspelled, rule_spelled};
ghost use Rattle.header_rules.specs.Families.{rule_written, other_family};

use crate::family::OtherFamily;
use crate::family_forms::other_family;
use crate::in_family::rule_written;
use generations_rule::{Rule, RuleFault};

/// Why a text spells no rule here.
#[derive(Clone, Copy, Debug, PartialEq, Eq)]
pub enum Misspelling {
    /// It spells a rule of another family, or has its form.
    Other(OtherFamily),
    /// It spells none; what is wrong with it as `S/B/C`.
    Fault(RuleFault),
}

/// The rule that a text spells: `S/B/C`, or in one of Golly's spellings, or by one of Golly's names.
///
/// Beside `S/B/C`, which comes first, these are read, capital and small letters alike. Survival counts
/// are 0 to 8 and birth counts 1 to 8, in any order and any number of times, and there may be none:
///
/// - two states: `B3/S23` or `S23/B3`, the slash there or not, and the older `23/3` (Golly's help,
///   "Algorithm: QuickLife");
/// - 2 to 256 states: `B2/S345/C4`, `B2/S345/G4` or `B2/S345/4`, also with the survival counts first;
///   and `C4/B2/S345` or `G4/B2/S345`, as catalogues of rules have it. Slashes may be left out where a
///   letter follows;
/// - a name of Golly's 3.3: of its list of named rules, its help and its folders of rules and patterns.
///
/// A text that spells none is told as one of another family where it has that family's form.
pub fn spelled_rule(text: &[u8]) -> Result<Rule, Misspelling>
    ensures { result ≡ rule_spelled text.now }
{
    match Rule::parse(text) {
        Ok(rule) => Ok(rule),
        Err(fault) => written_rule(fault, text),
    }
}

fn written_rule(fault: RuleFault, text: &[u8]) -> Result<Rule, Misspelling>
    ensures { result ≡ or_misspelled (rule_written text.now) (misspelling (other_family text.now) fault) }
{
    match rule_written(text) {
        Some(rule) => Ok(rule),
        None => Err(why_misspelled(fault, text)),
    }
}

fn why_misspelled(fault: RuleFault, text: &[u8]) -> Misspelling
    ensures { result ≡ misspelling (other_family text.now) fault }
{
    match other_family(text) {
        Some(other) => Misspelling::Other(other),
        None => Misspelling::Fault(fault),
    }
}
