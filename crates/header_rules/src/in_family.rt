//! The rule of this family that a text spells.

ghost use Rattle.std.specs.Prelude.{◌≡◌};
ghost use Rattle.std.specs.Option.{is_some};
ghost use Rattle.text_scan.specs.Bytes.{◌>=>◌};
ghost use Rattle.header_rules.specs.declared.notation.Notation.TheVariants.{Totalistic};
ghost use Rattle.header_rules.specs.Spellings.{parts_spelled, rule_of_parts};
ghost use Rattle.header_rules.specs.Families.{rule_written, rule_in_family};

use crate::forms::parts_spelled;
use crate::names::rule_named;
use crate::notation::Notation;
use generations_rule::Rule;

/// The rule that a text spells by its parts or by its name.
pub fn rule_written(text: &[u8]) -> Option<Rule>
    ensures { result ≡ rule_written text.now }
{
    rule_by_parts(text).or(rule_named(text))
}

fn rule_by_parts(text: &[u8]) -> Option<Rule>
    ensures { result ≡ (parts_spelled Totalistic text.now >=> rule_of_parts) }
{
    parts_spelled(Notation::Totalistic, text)?.rule()
}

/// Whether a text spells one, as `S/B/C` or otherwise.
pub fn is_in_family(text: &[u8]) -> bool
    ensures { result ≡ is_some (rule_in_family text.now) }
{
    Rule::parse(text).is_ok() || rule_written(text).is_some()
}
