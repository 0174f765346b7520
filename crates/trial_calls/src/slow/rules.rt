//! Rules of scripts, brought into their printed form.

use std::alloc::{AllocError, Global};

/// The printed form of a rule's text, if it is one: counts once each and rising, no zeros in front.
pub fn printed(alloc: Global, text: &[u8]) -> Result<Option<Vec<u8>>, AllocError> {
    let mut parts = text.split(|byte| *byte == b'/');
    let (Some(survival), Some(birth), Some(states), None) = (
        parts.next(),
        parts.next(),
        parts.next(),
        parts.next(),
    ) else {
        return Ok(None);
    };
    if !are_all(survival, b'0', b'8') || !are_all(birth, b'1', b'8') {
        return Ok(None);
    }
    let Some(states) = states_of(states) else {
        return Ok(None);
    };
    let mut form = Vec::new(alloc);
    push_counts(&mut form, survival)?;
    form.push(b'/')?;
    push_counts(&mut form, birth)?;
    form.push(b'/')?;
    form.extend_from_slice(format!(in alloc; "{states}")?.as_bytes())?;
    Ok(Some(form))
}

/// Whether all digits lie between two.
fn are_all(digits: &[u8], least: u8, most: u8) -> bool {
    digits.iter().all(|digit| least <= *digit && *digit <= most)
}

/// Each digit that stands there, once, rising.
fn push_counts(form: &mut Vec<u8>, digits: &[u8]) -> Result<(), AllocError> {
    for digit in b'0'..=b'8' {
        if digits.contains(&digit) {
            form.push(digit)?;
        }
    }
    Ok(())
}

/// A number of states: one to three digits, from 2 to 256.
fn states_of(digits: &[u8]) -> Option<u64> {
    if digits.len() > 3 {
        return None;
    }
    let states = number(digits, 256)?;
    if states < 2 { None } else { Some(states) }
}

/// A decimal number of at most so much, with any zeros in front.
pub fn number(digits: &[u8], most: u64) -> Option<u64> {
    if digits.is_empty() {
        return None;
    }
    let mut number = 0_u64;
    for digit in digits {
        if !digit.is_ascii_digit() {
            return None;
        }
        let units = u64::from(digit.wrapping_sub(b'0'));
        number = number.checked_mul(10)?.checked_add(units)?;
    }
    if number <= most { Some(number) } else { None }
}

/// A decimal number of 32 bits with a sign.
pub fn signed(word: &[u8]) -> Option<i64> {
    match word.split_first() {
        Some((b'-', digits)) => {
            let size = number(digits, 1 << 31)?;
            Some(0_i64.wrapping_sub_unsigned(size))
        }
        _ => {
            let size = number(word, (1 << 31) - 1)?;
            Some(0_i64.wrapping_add_unsigned(size))
        }
    }
}
