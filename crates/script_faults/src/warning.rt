//! Headers that tell another rule than that of the script or of the board.

ghost use Rattle.std.specs.Prelude.{◌≡◌, [], ◌∷◌, ◌+◌, ◌<◌, ◌≤◌, length, IfSome};
ghost use Rattle.std.specs.Option.{option_to_list};
ghost use Rattle.header_rules.specs.HeaderRule.{header_rule_told};
ghost use Rattle.script_faults.specs.Faults.{fault_lines};
ghost use Rattle.script_faults.specs.Warnings.{IsOtherRule, IsWarnedOf, bounds_warned};

use crate::note::{Note, Place};
use crate::reason::Warning;
use genedit_script::Lines;
use generations_rule::Rule;
use header_rules::{HeaderBounds, Misspelling, header_rule};

/// Where a header's rule is warned of.
#[derive(Clone, Copy, Debug, PartialEq, Eq)]
pub struct RuleWarning {
    pub warning: Warning,
    /// The index of the first byte of the rule, or of the bounds, in the whole text and from 0.
    pub place: usize,
    /// How many bytes it has: 1 at least.
    pub length: usize,
}

/// The warning that the header of an RLE text tells another rule than this one, compared as rules and
/// with Golly's spellings read too, or one that cannot be read; and where it tells this one, that it tells
/// bounds too. `None` where it tells no rule, or this one without bounds.
pub fn rule_warning(rule: &Rule, text: &[u8]) -> Option<RuleWarning>
    ensures warned { IsWarnedOf rule.now (header_rule_told text.now) result }
    ensures within { IfSome result (λ told. (0 < told.length) × (told.place + told.length ≤ length text.now)) }
{
    let told = header_rule(text)?;
    match other_rule(rule, &told.rule) {
        Some(warning) => Some(RuleWarning {
            warning,
            place: told.place,
            length: told.length,
        }),
        None => bounds_warning(told.bounds),
    }
}

/// The warning that a pattern tells another rule than this one, compared as rules, or one that cannot be read.
pub fn other_rule(rule: &Rule, told: &Result<Rule, Misspelling>) -> Option<Warning>
    ensures { IsOtherRule rule.now told.now result }
{
    match told {
        Err(misspelling) => Some(Warning::UnreadRule(*misspelling)),
        Ok(other) if !other.same(rule) => Some(Warning::OtherRule),
        Ok(_) => None,
    }
}

fn bounds_warning(bounds: Option<HeaderBounds>) -> Option<RuleWarning>
    ensures { result ≡ bounds_warned bounds }
{
    let bounds = bounds?;
    Some(RuleWarning {
        warning: Warning::Bounds,
        place: bounds.place,
        length: bounds.length,
    })
}

/// The warning that the header of the block which these lines begin with tells another rule.
pub fn header_warning(rule: Rule, lines: Lines<'_>) -> Option<Note>
    ensures { fault_lines (option_to_list result) ≡ [] }
{
    let told = rule_warning(&rule, lines.rest)?;
    let (line, column) = place_in(lines, told.place);
    let place = Place {
        line,
        column,
        width: told.length,
    };
    Some(Note::Warning(place, told.warning))
}

/// The line of a place behind these lines' beginning, and its column.
pub fn place_in(lines: Lines<'_>, place: usize) -> (u64, usize) {
    let before = match lines.rest.get(..place) {
        Some(before) => before,
        None => lines.rest,
    };
    let mut line = lines.number;
    let mut column = 1usize;
    for byte in before {
        if *byte == b'\n' {
            line = line.saturating_add(1);
            column = 1;
        } else {
            column = column.saturating_add(1);
        }
    }
    (line, column)
}
