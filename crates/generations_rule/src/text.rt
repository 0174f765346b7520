//! The parts of a rule text, read and written.

ghost use Rattle.std.specs.Prelude.{◌≡◌, ◌+◌, ◌^◌, ◌<◌, ◌≤◌, ◌++◌, ◌∷◌, [], not, length, count_by, IfOk, OnOk, IfSome, All, None, position, decimal};
ghost use Rattle.std.specs.List.{before_first, after_first};
ghost use Rattle.std.specs.Str.Parse.{digits_value};
ghost use Rattle.generations_rule.specs.Refusal.{when, first_of, unless};
ghost use Rattle.generations_rule.specs.RuleText.{is_slash, slash, survival_part, birth_part, states_part, misfit_at, is_misfit, set_of, text_of_set, is_number_of_states};

use crate::fault::RuleFault;
use itoa::Buffer;
use std::alloc::{AllocError, Global};

/// A rule text, cut at its first two slashes.
#[derive(Clone, Copy)]
pub struct Parts<'a> {
    pub survival: &'a [u8],
    pub birth: &'a [u8],
    pub states: &'a [u8],
}

pub fn parts_of(text: &[u8]) -> Parts<'_>
    ensures survival { result.survival.now ≡ survival_part text.now }
    ensures birth { result.birth.now ≡ birth_part text.now }
    ensures states { result.states.now ≡ states_part text.now }
    ensures shorter { length (survival_part text.now) + length (birth_part text.now) ≤ length text.now }
{
    let (survival, rest) = cut(text);
    let (birth, states) = cut(rest);
    Parts {
        survival,
        birth,
        states,
    }
}

pub fn slashes_in(text: &[u8]) -> usize
    ensures { result ≡ count_by is_slash text.now }
{
    text.iter().filter(|byte| **byte == b'/').count()
}

/// The counts whose digits stand in a part, which begins at this place of the text.
pub fn counts_in(part: &[u8], start: u64, least: u8) -> Result<[bool; 9], RuleFault>
    requires least { least ≤ 8 }
    requires start { start + length part.now < 2 ^ 64 }
    ensures { result ≡ unless (misfit_at start least 8 part.now) (set_of part.now) }
{
    if let Some(fault) = misfit(part, start, least, 8) {
        return Err(fault);
    }
    Ok(set_in(part))
}

/// The number of states that a part spells, which begins at this place of the text.
pub fn states_in(part: &[u8], start: u64) -> Result<u16, RuleFault>
    requires { start + length part.now < 2 ^ 64 }
    ensures { result ≡ unless
        (first_of (misfit_at start 0 9 part.now ∷ when (not (is_number_of_states part.now)) RuleFault.States ∷ []))
        (digits_value 10 part.now) }
{
    if let Some(fault) = misfit(part, start, 0, 9) {
        return Err(fault);
    }
    if part.is_empty() || part.len() > 3 {
        return Err(RuleFault::States);
    }
    match number_in(part) {
        states @ 2..=256 => Ok(states),
        _ => Err(RuleFault::States),
    }
}

pub fn text_of_parts(
    alloc: Global,
    survival: &[bool; 9],
    birth: &[bool; 9],
    states: u16,
) -> Result<Vec<u8>, AllocError>
    ensures { IfOk result (λ text. text.items ≡
        text_of_set survival.now ++ slash ∷ [] ++ text_of_set birth.now ++ slash ∷ [] ++ decimal states) }
{
    let mut text = Vec::with_capacity(alloc, 22)?;
    push_set(&mut text, survival)?;
    text.push(b'/')?;
    push_set(&mut text, birth)?;
    text.push(b'/')?;
    text.extend_from_slice(Buffer::new().format(states).as_bytes())?;
    Ok(text)
}

/// What stands before the first slash, and what behind it.
fn cut(text: &[u8]) -> (&[u8], &[u8])
    ensures front { result.0.now ≡ before_first is_slash text.now }
    ensures back { result.1.now ≡ after_first is_slash text.now }
{
    match first_slash(text) {
        Some(at) => (&text[..at], &text[at + 1..]),
        None => (text, &[]),
    }
}

fn first_slash(text: &[u8]) -> Option<usize>
    ensures { result ≡ position is_slash text.now }
{
    text.iter().position(|byte| *byte == b'/')
}

/// The fault of the first byte that is no digit from the least to the greatest.
fn misfit(part: &[u8], start: u64, least: u8, greatest: u8) -> Option<RuleFault>
    requires digits { (least ≤ 9) × (greatest ≤ 9) }
    requires start { start + length part.now < 2 ^ 64 }
    ensures { result ≡ misfit_at start least greatest part.now }
{
    let at = first_misfit(part, least, greatest)?;
    Some(RuleFault::Digit(start + at as u64))
}

fn first_misfit(part: &[u8], least: u8, greatest: u8) -> Option<usize>
    requires digits { (least ≤ 9) × (greatest ≤ 9) }
    ensures found { result ≡ position (is_misfit least greatest) part.now }
    ensures within { IfSome result (λ at. at < length part.now) }
{
    part.iter().position(|byte| !(b'0' + least <= *byte && *byte <= b'0' + greatest))
}

fn set_in(digits: &[u8]) -> [bool; 9]
    requires { All (λ byte. (48 ≤ byte) × (byte ≤ 56)) digits.now }
    ensures { result ≡ set_of digits.now }
{
    let mut set = [false; 9];
    for digit in digits {
        set[usize::from(*digit - b'0')] = true;
    }
    set
}

fn number_in(digits: &[u8]) -> u16
    requires few { length digits.now ≤ 3 }
    requires digits { All (λ byte. (48 ≤ byte) × (byte ≤ 57)) digits.now }
    ensures { result ≡ digits_value 10 digits.now }
{
    let mut number = 0;
    for digit in digits {
        number = number * 10 + u16::from(*digit - b'0');
    }
    number
}

fn push_set(text: &mut Vec<u8>, set: &[bool; 9]) -> Result<(), AllocError>
    ensures { OnOk result (text.new.items ≡ text.old.items ++ text_of_set set.now) }
{
    for n in 0..9u8 {
        if set[usize::from(n)] {
            text.push(b'0' + n)?;
        }
    }
    Ok(())
}
