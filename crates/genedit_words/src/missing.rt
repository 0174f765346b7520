//! Options that are missing.

ghost use Rattle.std.specs.Prelude.{◌≡◌, IfSome};
ghost use Rattle.clap.specs.Words.{kind_of};
ghost use Rattle.clap.specs.declared.error.kind.ErrorKind.TheVariants.{MissingRequiredArgument};

use crate::commands::command;
use crate::needs::Needs;
use clap::Error;
use clap::error::ErrorKind;
use std::alloc::Global;

/// The error to tell: where options are missing, what a server needs beside these words is among those that
/// have to be given.
pub fn with_needs(alloc: Global, words: &[String], error: Error) -> Error
    ensures { kind_of result ≡ kind_of error }
{
    if error.kind() != ErrorKind::MissingRequiredArgument {
        return error;
    }
    match missing_of(alloc, words) {
        Some(missing) => missing,
        None => error,
    }
}

/// What a server needs by these words, as they stand. The options themselves are not looked for: one that is
/// given has to be, too.
fn needs_beside(words: &[String]) -> Needs {
    Needs {
        rule: !names(words, "--keep"),
        port: !names(words, "--web"),
        web: names(words, "--url"),
    }
}

/// Whether a word is this option, or the option with its value.
fn names(words: &[String], option: &str) -> bool {
    words.iter().any(|word| is_option(word.as_str(), option))
}

fn is_option(word: &str, option: &str) -> bool {
    match word.strip_prefix(option) {
        Some(behind) => behind.is_empty() || behind.starts_with('='),
        None => false,
    }
}

/// The error that tells which options are missing where a server has to have what it needs; none if memory is
/// refused.
fn missing_of(alloc: Global, words: &[String]) -> Option<Error>
    ensures { IfSome result (λ missing. kind_of missing ≡ MissingRequiredArgument) }
{
    let command = command(alloc, needs_beside(words)).ok()?;
    match command.try_get_matches_from(words) {
        Ok(_matches) => None,
        Err(missing) => {
            if missing.kind() == ErrorKind::MissingRequiredArgument {
                Some(missing)
            } else {
                None
            }
        }
    }
}
