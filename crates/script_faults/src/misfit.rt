//! Why a word cannot stand for an argument.

use crate::reason::Reason;
use command_words::Argument;
use header_rules::{Misspelling, spelled_rule};

/// Why a word, which does not fit, cannot stand for the argument.
pub fn misfit(argument: Argument, word: &[u8]) -> Reason {
    match argument {
        Argument::Rule => rule_misfit(word),
        Argument::Name | Argument::NewName => Reason::NoName,
        Argument::Turn => Reason::NoTurn,
        Argument::Generations if has_dots(word) => Reason::NoRange,
        _ if word.first() == Some(&b'#') => Reason::Remark,
        _ if is_whole_number(word) => Reason::OutOfRange(argument),
        _ => Reason::NoNumber(argument),
    }
}

/// Digits, behind a `-` or nothing.
fn is_whole_number(word: &[u8]) -> bool {
    let digits = match word.split_first() {
        Some((b'-', digits)) => digits,
        _ => word,
    };
    !digits.is_empty() && digits.iter().all(|byte| byte.is_ascii_digit())
}

/// Whether two dots stand in a word one behind the other, as in a range.
fn has_dots(word: &[u8]) -> bool {
    word.windows(2).any(|pair| pair == b"..".as_slice())
}

fn rule_misfit(word: &[u8]) -> Reason {
    match spelled_rule(word) {
        Ok(_) => Reason::OtherSpelling,
        Err(Misspelling::Other(family)) => Reason::OtherFamily(family),
        Err(Misspelling::Fault(fault)) => Reason::NoRule(fault),
    }
}
