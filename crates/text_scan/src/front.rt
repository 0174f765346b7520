//! What stands in front of a text, or behind it.

ghost use Rattle.std.specs.Prelude.{◌≡◌, ◌≤◌, length, option_map, reverse, IfSome};
ghost use Rattle.std.specs.List.{prefix_len, position_or_len};
ghost use Rattle.text_scan.specs.Bytes.{behind_symbol, ends_line, front, is_decimal_digit, is_space_or_tab, past_prefix, text_behind, without_blanks_behind};

use crate::bytes::{is_blank, is_line_end};

/// How many decimal digits a text begins with.
pub fn digits_in_front(text: &[u8]) -> usize
    ensures count { result ≡ prefix_len is_decimal_digit text.now }
    ensures within { result ≤ length text.now }
{
    text.iter().take_while(|byte| byte.is_ascii_digit()).count()
}

/// The digits in front of a text, and what stands behind them.
pub fn split_digits(text: &[u8]) -> (&[u8], &[u8])
    ensures digits { result.0.now ≡ front is_decimal_digit text.now }
    ensures rest { result.1.now ≡ past_prefix is_decimal_digit text.now }
    ensures within { length result.1.now ≤ length text.now }
{
    text.split_at(digits_in_front(text))
}

/// The text without the blanks in front of it.
pub fn without_blanks(text: &[u8]) -> &[u8]
    ensures rest { result.now ≡ past_prefix is_space_or_tab text.now }
    ensures within { length result.now ≤ length text.now }
{
    &text[blanks_in_front(text)..]
}

fn blanks_in_front(text: &[u8]) -> usize
    ensures count { result ≡ prefix_len is_space_or_tab text.now }
    ensures within { result ≤ length text.now }
{
    text.iter().take_while(|byte| is_blank(**byte)).count()
}

/// The text without the blanks behind it.
pub fn without_blanks_behind(text: &[u8]) -> &[u8]
    ensures rest { result.now ≡ without_blanks_behind text.now }
    ensures within { length result.now ≤ length text.now }
{
    &text[..text.len() - blanks_behind(text)]
}

fn blanks_behind(text: &[u8]) -> usize
    ensures count { result ≡ prefix_len is_space_or_tab (reverse text.now) }
    ensures within { result ≤ length text.now }
{
    text.iter()
        .rev()
        .take_while(|byte| is_blank(**byte))
        .count()
}

/// How long the first line of a text is, without its end.
pub fn line_len(text: &[u8]) -> usize
    ensures count { result ≡ position_or_len ends_line text.now }
    ensures within { result ≤ length text.now }
{
    text.iter().take_while(|byte| !is_line_end(**byte)).count()
}

/// How many bytes stand before the first blank.
pub fn word_len(text: &[u8]) -> usize
    ensures count { result ≡ position_or_len is_space_or_tab text.now }
    ensures within { result ≤ length text.now }
{
    text.iter().take_while(|byte| !is_blank(**byte)).count()
}

/// What stands behind a byte, if the text begins with it.
pub fn behind(byte: u8, text: &[u8]) -> Option<&[u8]>
    ensures rest { option_map (λ rest. rest.now) result ≡ text_behind byte text.now }
    ensures within { IfSome result (λ rest. length rest.now ≤ length text.now) }
{
    match text.split_first() {
        Some((first, rest)) if *first == byte => Some(rest),
        _ => None,
    }
}

/// What stands behind a byte, if the text begins with it, blanks before it passed over.
pub fn behind_symbol(byte: u8, text: &[u8]) -> Option<&[u8]>
    ensures rest { option_map (λ rest. rest.now) result ≡ behind_symbol byte text.now }
    ensures within { IfSome result (λ rest. length rest.now ≤ length text.now) }
{
    behind(byte, without_blanks(text))
}
