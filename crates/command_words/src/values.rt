//! What single words say.

ghost use Rattle.std.specs.Prelude.{◌≡◌, ◌∷◌, [], ◌≤◌, IfOk, IfSome, MatchOption, None, length, option_map};
ghost use Rattle.std.specs.Char.{is_ascii_alphanumeric, is_ascii_digit};
ghost use Rattle.std.specs.List.{list_all};
ghost use Rattle.text_scan.specs.Words.{words};
ghost use Rattle.command_words.specs.Values.{cell_spelled, cells_spelled, file_spelled, is_pattern_name, most_spelled, name_spelled, new_name_spelled, number_spelled, replicas_spelled, rule_text_spelled, state_spelled};

use crate::quotes::name_in_quotes;
use generations_rule::Rule;
use pattern_cells::Cell;
use std::alloc::{AllocError, Global};
use text_scan::{number, signed, split_word};

/// A number of 32 bits, in decimal digits.
pub fn unsigned(word: &[u8]) -> Option<u32>
    ensures { result ≡ number_spelled word.now }
{
    let size = number(u64::from(u32::MAX), word)?;
    Some(size as u32)
}

/// The word, if it is the text of a rule: survival/birth/states.
pub fn rule_in(word: &[u8]) -> Option<&[u8]>
    ensures { option_map (λ text. text.now) result ≡ rule_text_spelled word.now }
{
    if Rule::parse(word).is_ok() {
        Some(word)
    } else {
        None
    }
}

/// How many replicas there are: 0 to 64.
pub fn replicas_in(word: &[u8]) -> Option<u16>
    ensures { result ≡ replicas_spelled word.now }
{
    let replicas = number(64, word)?;
    Some(replicas as u16)
}

/// A cell's state: 0 to 255.
pub fn state_in(word: &[u8]) -> Option<u8>
    ensures { result ≡ state_spelled word.now }
{
    let state = number(255, word)?;
    Some(state as u8)
}

/// How many generations are looked at for a period, at most: 1 to 65535.
pub fn most_in(word: &[u8]) -> Option<u16>
    ensures { result ≡ most_spelled word.now }
{
    match number(65_535, word)? {
        0 => None,
        most => Some(most as u16),
    }
}

/// The word, if it is a pattern's name: 1 to 16 ASCII letters and digits.
pub fn name_in(word: &[u8]) -> Option<&[u8]>
    ensures { option_map (λ name. name.now) result ≡ name_spelled word.now }
{
    if is_name(word) { Some(word) } else { None }
}

/// 1 to 16 ASCII letters and digits.
fn is_name(word: &[u8]) -> bool
    ensures { result ≡ is_pattern_name word.now }
{
    1 <= word.len() && word.len() <= 16 && are_letters_or_digits(word)
}

fn are_letters_or_digits(word: &[u8]) -> bool
    ensures { result ≡ list_all is_ascii_alphanumeric word.now }
{
    word.iter().all(|byte| byte.is_ascii_alphanumeric())
}

/// The name of a file: the word, or what stands between its quotes.
pub fn file_in(word: &[u8]) -> &[u8]
    ensures { result.now ≡ file_spelled word.now }
{
    match name_in_quotes(word) {
        Some(name) => name,
        None => word,
    }
}

/// The name of a file that is written. Digits alone are one only in quotes, since a script's line that
/// exports has such a word there.
pub fn new_name_in(word: &[u8]) -> Option<&[u8]>
    ensures { option_map (λ name. name.now) result ≡ new_name_spelled word.now }
{
    match name_in_quotes(word) {
        Some(name) => Some(name),
        None if are_digits(word) => None,
        None => Some(word),
    }
}

fn are_digits(word: &[u8]) -> bool
    ensures { result ≡ list_all is_ascii_digit word.now }
{
    word.iter().all(|byte| byte.is_ascii_digit())
}

/// The cells of a line's words, unless they are not three for each cell: two coordinates of 32 bits
/// with a sign, and a state up to 255. A line without a word has no cells.
pub fn cells_in(alloc: Global, line: &[u8]) -> Result<Option<Vec<Cell>>, AllocError>
    ensures { IfOk result (λ cells. option_map (λ v. v.items) cells ≡ cells_spelled (words line.now)) }
{
    let mut cells = Vec::new(alloc);
    let mut rest = line;
    while let Some((x, behind)) = split_word(rest) {
        let Some((cell, behind)) = split_cell(x, behind) else {
            return Ok(None);
        };
        cells.push(cell)?;
        rest = behind;
    }
    Ok(Some(cells))
}

/// The cell of a word and the next two, and what stands behind them.
fn split_cell<'a>(x: &[u8], rest: &'a [u8]) -> Option<(Cell, &'a [u8])>
    ensures cell { MatchOption result (cells_spelled (x.now ∷ words rest.now) ≡ None)
        (λ p. cells_spelled (x.now ∷ words rest.now) ≡ option_map (λ cells. p.0 ∷ cells) (cells_spelled (words p.1.now))) }
    ensures within { IfSome result (λ p. length p.1.now ≤ length rest.now) }
{
    let (y, rest) = split_word(rest)?;
    let (state, rest) = split_word(rest)?;
    Some((cell_in(x, y, state)?, rest))
}

fn cell_in(x: &[u8], y: &[u8], state: &[u8]) -> Option<Cell>
    ensures { result ≡ cell_spelled x.now y.now state.now }
{
    let x = signed(x)?;
    let y = signed(y)?;
    let state = state_in(state)?;
    Some(Cell { x, y, state })
}
