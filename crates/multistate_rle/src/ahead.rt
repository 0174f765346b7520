//! Tokens whose bytes stand together, as nearly all do: what stands before the byte that ends one is
//! read at once.

ghost use Rattle.std.specs.Prelude.{◌≡◌, ◌≤◌, ◌<◌, None, length, true, get_or, IfSome};
ghost use Rattle.multistate_rle.specs.Reading.{is_prefix_byte};
ghost use Rattle.multistate_rle.specs.Steps.{IsTokenFront};
ghost use Rattle.text_scan.specs.Bytes.{is_decimal_digit};

use crate::numbers::{COUNT_LIMIT, longer_count};

/// The count of a token, its prefix, and the place of the byte that ends it.
#[derive(Clone, Copy)]
pub struct TokenFront {
    pub count: u64,
    pub prefix: Option<u8>,
    pub place: usize,
}

/// What stands in front of the byte that ends a token, which begins at this place of a line.
pub fn token_at(text: &[u8], start: usize) -> TokenFront
    requires { start ≤ length text.now }
    ensures front { IsTokenFront text.now start result.place result.count result.prefix }
    ensures count { result.count ≤ COUNT_LIMIT }
    ensures prefix { IfSome result.prefix (λ k. k ≤ 10) }
{
    let ahead = count_at(text, start);
    let place = ahead.place;
    if place < text.len() && is_prefix(text[place]) {
        return TokenFront {
            count: ahead.count,
            prefix: Some(text[place] - b'o'),
            place: place + 1,
        };
    }
    ahead
}

fn is_prefix(byte: u8) -> bool
    ensures { result ≡ is_prefix_byte byte }
{
    byte >= b'p' && byte <= b'y'
}

/// The count in front, which is 1 where there is none.
fn count_at(text: &[u8], start: usize) -> TokenFront
    requires { start ≤ length text.now }
    ensures front { IsTokenFront text.now start result.place result.count None }
    ensures count { result.count ≤ COUNT_LIMIT }
    ensures prefix { result.prefix ≡ None }
{
    if start < text.len() && text[start].is_ascii_digit() {
        return digits_from(text, start);
    }
    TokenFront {
        count: 1,
        prefix: None,
        place: start,
    }
}

fn digits_from(text: &[u8], start: usize) -> TokenFront
    requires within { start < length text.now }
    requires digit { is_decimal_digit (get_or text.now start 0) ≡ true }
    ensures front { IsTokenFront text.now start result.place result.count None }
    ensures count { result.count ≤ COUNT_LIMIT }
    ensures prefix { result.prefix ≡ None }
{
    let mut count = u64::from(text[start] - b'0');
    for place in start + 1..text.len() {
        let byte = text[place];
        if !byte.is_ascii_digit() {
            return TokenFront {
                count,
                prefix: None,
                place,
            };
        }
        count = longer_count(count, byte - b'0');
    }
    TokenFront {
        count,
        prefix: None,
        place: text.len(),
    }
}
