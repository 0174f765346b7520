//! What a whole request asks for, before it is seen whether it would upgrade.

ghost use Rattle.std.specs.Prelude.{◌≡◌, length, All};
ghost use Rattle.std.specs.Char.{is_ascii_hexdigit};
ghost use Rattle.std.specs.List.{list_all};
ghost use Rattle.httparse.specs.Spans.{IsHeaderWithin};
ghost use Rattle.websocket.specs.Headers.{fields_of};
ghost use Rattle.web_requests.specs.Routes.{asked_at, asked_board, asked_key, asked_seat};

use crate::house::{DIGITS, House, SeatKey};
use crate::lines::has_only;
use crate::refusal::Refusal;
use crate::token::is_token;
use httparse::spans::HeaderSpan;

/// Where the page is.
const PAGE: &[u8] = b"/";

/// Where the socket of a board is; behind it the token, a dot and the seat's key.
const BOARD: &[u8] = b"/board?";

/// What somebody asks for who may have it.
#[derive(Clone, Copy, Debug, PartialEq, Eq)]
pub(crate) enum Wish {
    Page,
    /// The seat of a key.
    Seat(SeatKey),
}

/// What is asked for at a path, by who came to the right host.
pub(crate) fn asked_at(
    head: &[u8],
    lines: &[HeaderSpan],
    path: &[u8],
    house: &House,
) -> Result<Wish, Refusal>
    requires { All (IsHeaderWithin (length head.now)) lines.now }
    ensures { result ≡ asked_at house.now (fields_of head.now lines.now) path.now }
{
    if path == PAGE {
        return Ok(Wish::Page);
    }
    if !path.starts_with(BOARD) {
        return Err(Refusal::NotFound);
    }
    asked_board(head, lines, &path[BOARD.len()..], house)
}

/// What is asked for at the board, by what stands behind `?`.
fn asked_board(
    head: &[u8],
    lines: &[HeaderSpan],
    words: &[u8],
    house: &House,
) -> Result<Wish, Refusal>
    requires { All (IsHeaderWithin (length head.now)) lines.now }
    ensures { result ≡ asked_board house.now (fields_of head.now lines.now) words.now }
{
    if has_only(head, lines, b"Origin", &house.origin) {
        asked_seat(words, house)
    } else {
        Err(Refusal::Forbidden)
    }
}

/// The seat of a key, for who knows the token.
fn asked_seat(words: &[u8], house: &House) -> Result<Wish, Refusal>
    ensures { result ≡ asked_seat house.now words.now }
{
    match words.split_first_chunk::<DIGITS>() {
        Some((given, rest)) if is_token(given, &house.token) => asked_key(rest),
        _ => Err(Refusal::Forbidden),
    }
}

/// The seat of a key behind a dot.
fn asked_key(words: &[u8]) -> Result<Wish, Refusal>
    ensures { result ≡ asked_key words.now }
{
    let Some((b'.', digits)) = words.split_first() else {
        return Err(Refusal::Malformed);
    };
    if digits.len() != DIGITS || !are_digits(digits) {
        return Err(Refusal::Malformed);
    }
    let mut key = [0; DIGITS];
    key.copy_from_slice(digits);
    Ok(Wish::Seat(key))
}

/// Whether a text is hexadecimal digits alone.
fn are_digits(text: &[u8]) -> bool
    ensures { result ≡ list_all is_ascii_hexdigit text.now }
{
    text.iter().all(|byte| byte.is_ascii_hexdigit())
}
