//! Numbers below 0 that stand behind their options.

ghost use Rattle.std.specs.Prelude.{◌≡◌, ◌++◌, ◌∷◌, [], IfOk, map, string_bytes};
ghost use Rattle.genedit_words.specs.Bound.{bound_values, bound_words, is_below_zero, is_bound, is_view, takes_numbers, with_value};

use std::alloc::{AllocError, Global};

/// The words as `clap` reads them. Behind `view` a number below 0 is put together with the option `--at` or
/// `--gen` in front of it, as `--at=-3,4`, where it would be taken for an option itself; but not behind `--`.
pub fn bound(alloc: Global, words: Vec<String>) -> Result<Vec<String>, AllocError>
    ensures { IfOk result (λ bound. map string_bytes bound.items ≡ bound_words (map string_bytes words.items)) }
{
    if is_view(&words) {
        bound_values(alloc, &words)
    } else {
        Ok(words)
    }
}

/// Whether the first word behind the program's name is `view`.
fn is_view(words: &[String]) -> bool
    ensures { result ≡ is_view (map string_bytes words.now) }
{
    match words.get(1) {
        Some(name) => name.as_str() == "view",
        None => false,
    }
}

/// The words, each number below 0 put together with its option.
fn bound_values(alloc: Global, words: &[String]) -> Result<Vec<String>, AllocError>
    ensures { IfOk result (λ bound. map string_bytes bound.items ≡ bound_values (map string_bytes words.now)) }
{
    let mut bound = Vec::new(alloc);
    let mut rest = words;
    while let Some((word, behind)) = rest.split_first() {
        let Some((value, others)) = behind.split_first() else {
            bound.push(word.clone()?)?;
            return Ok(bound);
        };
        if word.as_str() == "--" {
            push_all(&mut bound, rest)?;
            return Ok(bound);
        }
        if is_bound(word, value) {
            bound.push(with_value(word, value)?)?;
            rest = others;
        } else {
            bound.push(word.clone()?)?;
            rest = behind;
        }
    }
    Ok(bound)
}

/// Puts the words last, as they are.
fn push_all(bound: &mut Vec<String>, words: &[String]) -> Result<(), AllocError>
    ensures { IfOk result (λ _. map string_bytes bound.new.items ≡ map string_bytes bound.old.items ++ map string_bytes words.now) }
{
    for word in words {
        bound.push(word.clone()?)?;
    }
    Ok(())
}

/// Whether a word is put together with the one behind it.
fn is_bound(option: &String, value: &String) -> bool
    ensures { result ≡ is_bound (string_bytes option.now) (string_bytes value.now) }
{
    takes_numbers(option.as_str()) && is_below_zero(value.as_bytes())
}

/// Whether a word is an option whose numbers may be below 0.
fn takes_numbers(word: &str) -> bool
    ensures { result ≡ takes_numbers word.now }
{
    word == "--at" || word == "--gen"
}

/// Whether a word begins with `-` and a digit.
fn is_below_zero(word: &[u8]) -> bool
    ensures { result ≡ is_below_zero word.now }
{
    match word {
        [b'-', digit, ..] => digit.is_ascii_digit(),
        _ => false,
    }
}

/// An option and its value as one word.
fn with_value(option: &String, value: &String) -> Result<String, AllocError>
    ensures { IfOk result (λ word. string_bytes word ≡ with_value (string_bytes option.now) (string_bytes value.now)) }
{
    let mut word = option.clone()?;
    word.push_str("=")?;
    word.push_str(value.as_str())?;
    Ok(word)
}
