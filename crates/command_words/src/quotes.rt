//! Words in double quotes.

ghost use Rattle.std.specs.Prelude.{◌≡◌, ◌+◌, ◌<◌, ◌≤◌, IfSome, length, option_map};
ghost use Rattle.std.specs.List.{position_or_len};
ghost use Rattle.command_words.specs.Quotes.{client_word_len, closes_quote, is_quote, name_in_quotes, opens_quote};

use text_scan::{behind, is_all_blank, word_len};

/// The name, where a text is a name in quotes, blanks behind it aside. A name has one byte at least, and
/// no quote.
pub(crate) fn name_in_quotes(text: &[u8]) -> Option<&[u8]>
    ensures name { option_map (λ name. name.now) result ≡ name_in_quotes text.now }
    ensures within { IfSome result (λ name. length name.now + 2 ≤ length text.now) }
{
    let rest = behind(b'"', text)?;
    let (name, closing) = rest.split_at(quote_place(rest));
    if !name.is_empty() && closes_quote(closing) {
        Some(name)
    } else {
        None
    }
}

/// How many bytes stand before the first quote.
fn quote_place(text: &[u8]) -> usize
    ensures count { result ≡ position_or_len is_quote text.now }
    ensures within { result ≤ length text.now }
{
    text.iter().take_while(|byte| **byte != b'"').count()
}

/// A quote, and behind it blanks alone.
fn closes_quote(text: &[u8]) -> bool
    ensures { result ≡ closes_quote text.now }
{
    match behind(b'"', text) {
        Some(rest) => is_all_blank(rest),
        None => false,
    }
}

/// Whether a word begins with a quote.
pub(crate) fn opens_quote(word: &[u8]) -> bool
    ensures { result ≡ opens_quote word.now }
{
    word.first() == Some(&b'"')
}

/// How many bytes the word has with which a client's text begins.
pub(crate) fn client_word_len(text: &[u8]) -> usize
    ensures count { result ≡ client_word_len text.now }
    ensures within { result ≤ length text.now }
{
    match name_in_quotes(text) {
        Some(name) => name.len() + 2,
        None => word_len(text),
    }
}
