//! What a line tells that begins with `#`.

ghost use Rattle.std.specs.Prelude.{◌≡◌, ◌≤◌, ◌<◌, ◌+◌, ◌^◌, length, option_map, IfSome};
ghost use Rattle.macrocell_text.specs.Heads.{first_word, generation_in_line, rule_in_line, value_behind};

use crate::numbers::ends_word;
use text_scan::{number, without_blanks, word_len};

/// Where a text tells a rule.
#[derive(Clone, Copy, Debug, PartialEq, Eq)]
pub struct RulePlace {
    /// The index, in the whole text and from 0, of the first byte of the rule's text.
    pub place: usize,
    /// How many bytes the rule's text has, its bounds behind a colon too: 1 at least.
    pub length: usize,
}

/// What stands behind a word with which a line begins, without the blanks in front.
fn value_behind<'a>(word: &[u8], line: &'a [u8]) -> Option<&'a [u8]>
    ensures rest { option_map (λ rest. rest.now) result ≡ value_behind word.now line.now }
    ensures within { IfSome result (λ rest. length rest.now ≤ length line.now) }
{
    let rest = line.strip_prefix(word)?;
    if ends_word(rest) {
        Some(without_blanks(rest))
    } else {
        None
    }
}

/// The word with which a text begins.
pub(crate) fn first_word(text: &[u8]) -> &[u8]
    ensures word { result.now ≡ first_word text.now }
    ensures within { length result.now ≤ length text.now }
{
    &text[..word_len(text)]
}

/// The rule's text behind `#R` of a line that begins at this place.
pub(crate) fn rule_in_line(start: usize, line: &[u8]) -> Option<RulePlace>
    requires { start + length line.now < 2 ^ 64 }
    ensures rule { result ≡ rule_in_line start line.now }
{
    let rest = value_behind(b"#R", line)?;
    let word = first_word(rest);
    if word.is_empty() {
        return None;
    }
    Some(RulePlace {
        place: start + (line.len() - rest.len()),
        length: word.len(),
    })
}

/// The generation behind `#G`, a number of 64 bits.
pub(crate) fn generation_in_line(line: &[u8]) -> Option<u64>
    ensures { result ≡ generation_in_line line.now }
{
    number(u64::MAX, first_word(value_behind(b"#G", line)?))
}
