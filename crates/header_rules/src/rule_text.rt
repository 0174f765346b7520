//! The rule whose parts are spelled.

ghost use Rattle.std.specs.Prelude.{◌≡◌, ◌++◌, ◌≤◌, ◌+◌, ◌<◌, not, IfSome};
ghost use Rattle.std.specs.List.{list_any};
ghost use Rattle.arrayvec.specs.ArrayVec.{array_vec_len};
ghost use Rattle.generations_rule.specs.RuleText.{is_misfit, set_of, text_of_set};
ghost use Rattle.header_rules.specs.Spellings.{is_hensel_letter, are_counts, states_spelled};
ghost use Rattle.header_rules.specs.Families.{begins_with_count};

use crate::notation::{is_count, is_hensel_letter};
use arrayvec::ArrayVec;
use generations_rule::Rule;
use itoa::Buffer;
use text_scan::number;

/// A rule's text `S/B/C`.
type RuleText = ArrayVec<u8, 23>;

/// The digits of a rule's parts.
#[derive(Clone, Copy, Drop)]
pub struct RuleParts<'a> {
    pub survival: &'a [u8],
    pub birth: &'a [u8],
    pub states: &'a [u8],
}

impl RuleParts<'_> {
    ghost use Rattle.std.specs.Prelude.{◌≡◌};
    ghost use Rattle.header_rules.specs.Spellings.{rule_of_parts};
    ghost use Rattle.header_rules.specs.Families.{is_fit, is_born_on_none, has_letters};

    /// The rule with these parts: survival counts are 0 to 8, birth counts 1 to 8, in any order and
    /// any number of times, and the states are 2 to 256.
    pub fn rule(&self) -> Option<Rule>
        ensures { result ≡ rule_of_parts (record { survival = self.now.survival.now; birth = self.now.birth.now; states = self.now.states.now }) }
    {
        let states = states_spelled(self.states)?;
        if !are_counts(0, self.survival) || !are_counts(1, self.birth) {
            return None;
        }
        let mut text = RuleText::new();
        push_counts(&mut text, self.survival);
        text.push(b'/');
        push_counts(&mut text, self.birth);
        text.push(b'/');
        text.try_extend_from_slice(Buffer::new().format(states).as_bytes())
            .ok()?;
        Rule::parse(&text).ok()
    }

    /// Whether the counts are 0 to 8 and the states 2 to 256.
    pub fn is_fit(&self) -> bool
        ensures { result ≡ is_fit (record { survival = self.now.survival.now; birth = self.now.birth.now; states = self.now.states.now }) }
    {
        are_counts(0, self.survival)
            && are_counts(0, self.birth)
            && states_spelled(self.states).is_some()
    }

    /// Whether 0 is among the births besides.
    pub fn is_born_on_none(&self) -> bool
        ensures { result ≡ is_born_on_none (record { survival = self.now.survival.now; birth = self.now.birth.now; states = self.now.states.now }) }
    {
        self.is_fit() && self.birth.contains(&b'0')
    }

    /// Whether letters stand behind counts.
    pub fn has_letters(&self) -> bool
        ensures { result ≡ has_letters (record { survival = self.now.survival.now; birth = self.now.birth.now; states = self.now.states.now }) }
    {
        begins_with_count(self.survival)
            && begins_with_count(self.birth)
            && states_spelled(self.states).is_some()
            && (has_hensel_letter(self.survival) || has_hensel_letter(self.birth))
    }
}

/// The number of states that a part spells: 2 to 256, in one to three digits.
fn states_spelled(digits: &[u8]) -> Option<u64>
    ensures value { result ≡ states_spelled digits.now }
    ensures bounds { IfSome result (λ states. (2 ≤ states) × (states ≤ 256)) }
{
    if digits.len() > 3 {
        return None;
    }
    let states = number(256, digits)?;
    if states < 2 { None } else { Some(states) }
}

/// Whether every byte of a part is the digit of a count, from the least on to 8.
fn are_counts(least: u8, part: &[u8]) -> bool
    requires { least ≤ 8 }
    ensures { result ≡ are_counts least part.now }
{
    !has_misfit(least, part)
}

/// Whether some byte is no digit of a count, from the least on to 8.
fn has_misfit(least: u8, part: &[u8]) -> bool
    requires { least ≤ 8 }
    ensures { result ≡ list_any (is_misfit least 8) part.now }
{
    part.iter()
        .any(|byte| !(b'0' + least <= *byte && *byte <= b'8'))
}

/// Whether a part does not begin with a letter.
fn begins_with_count(part: &[u8]) -> bool
    ensures { result ≡ begins_with_count part.now }
{
    match part.split_first() {
        Some((byte, _)) => is_count(*byte),
        None => true,
    }
}

fn has_hensel_letter(part: &[u8]) -> bool
    ensures { result ≡ list_any is_hensel_letter part.now }
{
    part.iter().any(|byte| is_hensel_letter(*byte))
}

/// Each of these counts once, ascending.
fn push_counts(text: &mut RuleText, digits: &[u8])
    requires { array_vec_len text.old ≤ 13 }
    ensures pushed { text.new.items ≡ text.old.items ++ text_of_set (set_of digits.now) }
    ensures few { array_vec_len text.new ≤ array_vec_len text.old + 9 }
{
    for count in 0..9u8 {
        let digit = b'0' + count;
        if digits.contains(&digit) {
            text.push(digit);
        }
    }
}
