//! The token of a board.

ghost use Rattle.std.specs.Prelude.{◌≡◌, ◌↔◌, ℕ, List, IfNone, IfOk, IfSome, IsTrue};
ghost use Rattle.std.specs.List.{list_all};
ghost use Rattle.hex.specs.Hex.{encode_lower};
ghost use Rattle.board_links.specs.Tokens.{IsLineEnd, IsTokenText, is_digit, token_line};

use std::alloc::{AllocError, Global};
use web_requests::{DIGITS, Token};

/// How many bytes a token is made of: 128 bits, which nobody guesses.
pub const TOKEN_BYTES: usize = 16;

/// The token of bytes by chance: their hexadecimal digits.
pub fn token_of(bytes: &[u8; TOKEN_BYTES]) -> Token
    ensures { result ≡ encode_lower bytes.now }
{
    let mut token = [0; DIGITS];
    match hex::encode_to_slice(bytes.as_slice(), &mut token) {
        Ok(()) => token,
        Err(_) => unreachable!(),
    }
}

/// The line of a token, as a file has it.
pub fn token_text(alloc: Global, token: &Token) -> Result<Vec<u8>, AllocError>
    ensures { IfOk result (λ text. text.items ≡ token_line token.now) }
{
    let mut text = Vec::from_slice(alloc, token.as_slice())?;
    text.push(b'\n')?;
    Ok(text)
}

/// The token that a file has: 32 hexadecimal digits in lower case, and perhaps the end of the line. None where it has
/// anything else.
pub fn token_in(text: &[u8]) -> Option<Token>
    ensures some { IfSome result (λ token. IsTokenText token text.now) }
    ensures none { IfNone result ((token : List ℕ) → ¬ IsTokenText token text.now) }
{
    let (token, rest) = text.split_first_chunk::<DIGITS>()?;
    if are_digits(token) && is_line_end(rest) {
        Some(*token)
    } else {
        None
    }
}

/// Whether a text is such digits alone.
fn are_digits(text: &[u8]) -> bool
    ensures { result ≡ list_all is_digit text.now }
{
    text.iter().all(|byte| is_digit(*byte))
}

fn is_digit(byte: u8) -> bool
    ensures { result ≡ is_digit byte }
{
    matches!(byte, b'0'..=b'9' | b'a'..=b'f')
}

/// Whether nothing is left but the end of a line.
fn is_line_end(rest: &[u8]) -> bool
    ensures { IsTrue result ↔ IsLineEnd rest.now }
{
    match rest {
        [] => true,
        [byte] => *byte == b'\n',
        _ => false,
    }
}
