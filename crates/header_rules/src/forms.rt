//! The forms of a rule's text, and where in it the parts stand.

ghost use Rattle.std.specs.Prelude.{◌≡◌, option_map};
ghost use Rattle.std.specs.Option.{option_or};
ghost use Rattle.header_rules.specs.Spellings.{CountsRead, part_of_letter, behind_states_letter, births_first, survivals_first, no_letters, states_of_slash, states_behind, states_first, states_last, lettered, unlettered, parts_spelled};

use crate::letters::behind_letter;
use crate::notation::Notation;
use crate::rule_text::RuleParts;
use text_scan::{behind, split_digits};

/// How a rule has its states that does not tell them.
const TWO_STATES: &[u8] = b"2";

/// What stands where the digits of the counts are due, and what stands behind them.
#[derive(Clone, Copy, Drop)]
struct CountsRead<'a> {
    survival: &'a [u8],
    birth: &'a [u8],
    rest: &'a [u8],
}

/// The parts of a rule that a text spells: by the letters `B` and `S`, or by slashes alone.
pub fn parts_spelled(notation: Notation, text: &[u8]) -> Option<RuleParts<'_>>
    ensures { option_map (λ parts. record { survival = parts.survival.now; birth = parts.birth.now; states = parts.states.now }) result ≡ parts_spelled notation text.now }
{
    lettered(notation, text).or(unlettered(notation, text))
}

/// `B2/S345/C4`, `S345/B2/C4` or `C4/B2/S345`, or without states, which are two then.
pub fn lettered(notation: Notation, text: &[u8]) -> Option<RuleParts<'_>>
    ensures { option_map (λ parts. record { survival = parts.survival.now; birth = parts.birth.now; states = parts.states.now }) result ≡ lettered notation text.now }
{
    states_last(notation, text).or(states_first(notation, text))
}

/// `345/2/4`, or `23/3`
fn unlettered(notation: Notation, text: &[u8]) -> Option<RuleParts<'_>>
    ensures { option_map (λ parts. record { survival = parts.survival.now; birth = parts.birth.now; states = parts.states.now }) result ≡ unlettered notation text.now }
{
    let counts = no_letters(notation, text)?;
    let states = states_of_slash(counts.rest)?;
    Some(counts.with_states(states))
}

/// `B2/S345/C4` or `S345/B2/C4`, or without states
fn states_last(notation: Notation, text: &[u8]) -> Option<RuleParts<'_>>
    ensures { option_map (λ parts. record { survival = parts.survival.now; birth = parts.birth.now; states = parts.states.now }) result ≡ states_last notation text.now }
{
    let counts = births_first(notation, text).or(survivals_first(notation, text))?;
    let states = states_behind(notation, counts.rest)?;
    Some(counts.with_states(states))
}

/// `C4/B2/S345`
fn states_first(notation: Notation, text: &[u8]) -> Option<RuleParts<'_>>
    ensures { option_map (λ parts. record { survival = parts.survival.now; birth = parts.birth.now; states = parts.states.now }) result ≡ states_first notation text.now }
{
    let (states, rest) = split_digits(behind_states_letter(text)?);
    let counts = births_first(notation, notation.past_slash(rest))?;
    if counts.rest.is_empty() {
        Some(counts.with_states(states))
    } else {
        None
    }
}

impl<'a> CountsRead<'a> {
    ghost use Rattle.std.specs.Prelude.{◌≡◌};

    fn with_states(self, states: &'a [u8]) -> RuleParts<'a>
        ensures survival { result.survival.now ≡ self.entry.survival.now }
        ensures birth { result.birth.now ≡ self.entry.birth.now }
        ensures states { result.states.now ≡ states.entry.now }
    {
        RuleParts {
            survival: self.survival,
            birth: self.birth,
            states,
        }
    }
}

/// `B3/S23`
fn births_first(notation: Notation, text: &[u8]) -> Option<CountsRead<'_>>
    ensures { option_map (λ counts. record { survival = counts.survival.now; birth = counts.birth.now; rest = counts.rest.now }) result ≡ births_first notation text.now }
{
    let (birth, rest) = part_of_letter(notation, b'B', text)?;
    let (survival, rest) = part_of_letter(notation, b'S', notation.past_slash(rest))?;
    Some(CountsRead {
        survival,
        birth,
        rest,
    })
}

/// `S23/B3`
fn survivals_first(notation: Notation, text: &[u8]) -> Option<CountsRead<'_>>
    ensures { option_map (λ counts. record { survival = counts.survival.now; birth = counts.birth.now; rest = counts.rest.now }) result ≡ survivals_first notation text.now }
{
    let (survival, rest) = part_of_letter(notation, b'S', text)?;
    let (birth, rest) = part_of_letter(notation, b'B', notation.past_slash(rest))?;
    Some(CountsRead {
        survival,
        birth,
        rest,
    })
}

/// `23/3`
fn no_letters(notation: Notation, text: &[u8]) -> Option<CountsRead<'_>>
    ensures { option_map (λ counts. record { survival = counts.survival.now; birth = counts.birth.now; rest = counts.rest.now }) result ≡ no_letters notation text.now }
{
    let (survival, rest) = notation.split_part(text);
    let (birth, rest) = notation.split_part(notation.behind_slash(rest)?);
    Some(CountsRead {
        survival,
        birth,
        rest,
    })
}

/// A letter's part, and what stands behind it.
fn part_of_letter(notation: Notation, letter: u8, text: &[u8]) -> Option<(&[u8], &[u8])>
    ensures { option_map (λ part. (part.0.now, part.1.now)) result ≡ part_of_letter notation letter text.now }
{
    Some(notation.split_part(behind_letter(letter, text)?))
}

/// `C4`, `G4` or `/4`, or nothing, which is two states.
fn states_behind(notation: Notation, rest: &[u8]) -> Option<&[u8]>
    ensures { option_map (λ states. states.now) result ≡ states_behind notation rest.now }
{
    behind_states_letter(notation.past_slash(rest)).or(states_of_slash(rest))
}

/// `/4`, or nothing, which is two states.
fn states_of_slash(rest: &[u8]) -> Option<&[u8]>
    ensures { option_map (λ states. states.now) result ≡ states_of_slash rest.now }
{
    if rest.is_empty() {
        return Some(TWO_STATES);
    }
    behind(b'/', rest)
}

fn behind_states_letter(text: &[u8]) -> Option<&[u8]>
    ensures { option_map (λ rest. rest.now) result ≡ behind_states_letter text.now }
{
    behind_letter(b'C', text).or(behind_letter(b'G', text))
}
