//! The keyword that a misspelt word may mean.

ghost use Rattle.std.specs.Prelude.{◌≡◌, IfOk, IfSome, true, length};
ghost use Rattle.command_words.specs.Keywords.{keyword_name};
ghost use Rattle.script_faults.specs.Findings.{are_near};

use command_words::{Dialect, Keyword};
use std::alloc::{AllocError, Global};
use strsim::jaro;

/// Longer words are not compared.
const MOST_BYTES: usize = 32;

/// From here on two words are alike, by Jaro.
const ALIKE: f64 = 0.8;

/// The dialect's keyword nearest to a word, capital letters or small, if one is alike and about as long.
pub fn nearest(alloc: Global, dialect: Dialect, word: &[u8]) -> Result<Option<Keyword>, AllocError>
    ensures near { IfOk result (λ found. IfSome found (λ keyword. are_near (length word.now) (length (keyword_name keyword)) ≡ true)) }
{
    if word.len() > MOST_BYTES {
        return Ok(None);
    }
    let Ok(text) = std::str::from_utf8(word) else {
        return Ok(None);
    };
    let small = text.to_ascii_lowercase(alloc)?;
    let mut nearest = None;
    let mut most = ALIKE;
    for keyword in dialect.keywords() {
        let name = keyword.name();
        if !are_near(word.len(), name.len()) {
            continue;
        }
        let alike = jaro(alloc, small.as_str(), name)?;
        if alike > most {
            most = alike;
            nearest = Some(*keyword);
        }
    }
    Ok(nearest)
}

/// Whether two words are about as long: one letter more or less is a slip, two make another word (`exit` is
/// no `export`).
fn are_near(length: usize, other: usize) -> bool
    ensures { result ≡ are_near length other }
{
    length.abs_diff(other) <= 1
}
