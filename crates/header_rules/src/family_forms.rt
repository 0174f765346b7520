//! Rules of other families, by the form of their texts.

ghost use Rattle.std.specs.Prelude.{◌≡◌, ◌≤◌, ◌-◌, length, take};
ghost use Rattle.std.specs.List.{position_or_len};
ghost use Rattle.header_rules.specs.declared.notation.Notation.TheVariants.{Totalistic};
ghost use Rattle.header_rules.specs.Spellings.{parts_spelled};
ghost use Rattle.header_rules.specs.Families.{is_fit, has_birth_on_none, has_other_neighbours, is_non_totalistic, begins_with_digit, is_letter_with_number, is_colon, unbounded, family_by_spelling, family_by_front, is_read, other_family};

use crate::family::OtherFamily;
use crate::family_names::family_by_name;
use crate::forms::{lettered, parts_spelled};
use crate::in_family::is_in_family;
use crate::letters::{begins_with, behind_letter, ends_with};
use crate::notation::Notation;

/// The family of a text that spells no rule of this one.
pub fn other_family(text: &[u8]) -> Option<OtherFamily>
    ensures { result ≡ other_family text.now }
{
    let text = unbounded(text);
    if is_in_family(text) {
        return Some(OtherFamily::Bounded);
    }
    family_by_spelling(text)
        .or(family_by_front(text))
        .or(family_by_name(text))
}

/// By a spelling that is one of this family but for its births, a letter behind it or letters within.
fn family_by_spelling(text: &[u8]) -> Option<OtherFamily>
    ensures { result ≡ family_by_spelling text.now }
{
    if has_birth_on_none(text) {
        Some(OtherFamily::BirthOnNone)
    } else if has_other_neighbours(text) {
        Some(OtherFamily::Neighbours)
    } else if is_non_totalistic(text) {
        Some(OtherFamily::NonTotalistic)
    } else {
        None
    }
}

/// By what a text begins with.
fn family_by_front(text: &[u8]) -> Option<OtherFamily>
    ensures { result ≡ family_by_front text.now }
{
    if begins_with(b"MAP", text) {
        Some(OtherFamily::Map)
    } else if is_letter_with_number(b'R', text) {
        Some(OtherFamily::LargerThanLife)
    } else if is_letter_with_number(b'W', text) {
        Some(OtherFamily::Wolfram)
    } else {
        None
    }
}

fn has_birth_on_none(text: &[u8]) -> bool
    ensures { result ≡ has_birth_on_none text.now }
{
    match lettered(Notation::Totalistic, text) {
        Some(parts) => parts.is_born_on_none(),
        None => false,
    }
}

fn has_other_neighbours(text: &[u8]) -> bool
    ensures { result ≡ has_other_neighbours text.now }
{
    (ends_with(b"V", text) || ends_with(b"H", text)) && is_spelling(without_last(text))
}

fn without_last(text: &[u8]) -> &[u8]
    ensures { result.now ≡ take (length text.now - 1) text.now }
{
    &text[..text.len().saturating_sub(1)]
}

/// Whether a text spells a rule for eight neighbours, with births on none or not.
fn is_spelling(text: &[u8]) -> bool
    ensures { result ≡ is_read is_fit (parts_spelled Totalistic text.now) }
{
    match parts_spelled(Notation::Totalistic, text) {
        Some(parts) => parts.is_fit(),
        None => false,
    }
}

fn is_non_totalistic(text: &[u8]) -> bool
    ensures { result ≡ is_non_totalistic text.now }
{
    match parts_spelled(Notation::Hensel, text) {
        Some(parts) => parts.has_letters(),
        None => false,
    }
}

fn is_letter_with_number(letter: u8, text: &[u8]) -> bool
    ensures { result ≡ is_letter_with_number letter text.now }
{
    match behind_letter(letter, text) {
        Some(rest) => begins_with_digit(rest),
        None => false,
    }
}

fn begins_with_digit(text: &[u8]) -> bool
    ensures { result ≡ begins_with_digit text.now }
{
    match text.split_first() {
        Some((byte, _)) => byte.is_ascii_digit(),
        None => false,
    }
}

/// The text in front of a colon, behind which a bounded grid is told.
pub fn unbounded(text: &[u8]) -> &[u8]
    ensures front { result.now ≡ unbounded text.now }
    ensures within { length result.now ≤ length text.now }
{
    &text[..colon_at(text)]
}

fn colon_at(text: &[u8]) -> usize
    ensures count { result ≡ position_or_len is_colon text.now }
    ensures within { result ≤ length text.now }
{
    text.iter().take_while(|byte| **byte != b':').count()
}
