//! Decimal numbers in a line, each with its place.

ghost use Rattle.std.specs.Prelude.{◌≡◌, ◌≤◌, ◌<◌, ◌^◌, length, MatchResult, IfOk, Ok, Err, Option, Some, None, option_map};
ghost use Rattle.text_scan.specs.Bytes.{decimal_number};
ghost use Rattle.macrocell_text.specs.Numbers.{ends_word, number_in_front, number_told};

use crate::fault::MacrocellFault;
use text_scan::{is_blank, number, split_digits, without_blanks};

/// A number in a line, none where it has more than 32 bits; the place of its first digit; and what stands behind it.
#[derive(Clone, Copy)]
pub struct NumberAt<'a> {
    pub value: Option<u32>,
    pub place: u64,
    pub rest: &'a [u8],
}

/// The first number of what is left of a line that ends at a place, behind blanks; or the first byte that is no digit, or
/// the line's end.
pub(crate) fn number_told(line_end: usize, rest: &[u8]) -> Result<NumberAt<'_>, MacrocellFault>
    requires { length rest.now ≤ line_end }
    ensures told { MatchResult result (λ n. number_told line_end rest.now ≡ Ok (record { value = n.value; place = n.place; rest = n.rest.now })) (λ fault. number_told line_end rest.now ≡ Err fault) }
    ensures within { IfOk result (λ n. length n.rest.now ≤ length rest.now) }
{
    number_in_front(line_end, without_blanks(rest))
}

fn number_in_front(line_end: usize, rest: &[u8]) -> Result<NumberAt<'_>, MacrocellFault>
    requires { length rest.now ≤ line_end }
    ensures told { MatchResult result (λ n. number_in_front line_end rest.now ≡ Ok (record { value = n.value; place = n.place; rest = n.rest.now })) (λ fault. number_in_front line_end rest.now ≡ Err fault) }
    ensures within { IfOk result (λ n. length n.rest.now ≤ length rest.now) }
{
    if rest.is_empty() {
        return Err(MacrocellFault::Tag(line_end as u64));
    }
    let (digits, behind) = split_digits(rest);
    if !ends_word(behind) {
        return Err(MacrocellFault::Tag((line_end - behind.len()) as u64));
    }
    Ok(NumberAt {
        value: value_of(digits),
        place: (line_end - rest.len()) as u64,
        rest: behind,
    })
}

/// The number of 32 bits that digits spell.
fn value_of(digits: &[u8]) -> Option<u32>
    ensures { result ≡ decimal_number 4294967295 digits.now }
{
    let value = number(u64::from(u32::MAX), digits)?;
    Some(value as u32)
}

/// Whether a word ends in front of this: it is nothing, or begins with a blank.
pub(crate) fn ends_word(rest: &[u8]) -> bool
    ensures { result ≡ ends_word rest.now }
{
    match rest.first() {
        Some(byte) => is_blank(*byte),
        None => true,
    }
}
