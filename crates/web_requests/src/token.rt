//! The token.

ghost use Rattle.std.specs.Prelude.{◌≡◌, bytes_eq};

use crate::house::{DIGITS, Token};

/// Whether what was given is the token. The time that it takes does not tell up to which place it is: each place
/// is looked at, the difference there is added whatever it is, and the sum is looked at once.
pub(crate) fn is_token(given: &[u8; DIGITS], token: &Token) -> bool
    ensures { result ≡ bytes_eq given.now token.now }
{
    let mut difference: u32 = 0;
    for place in 0..DIGITS {
        difference += u32::from(given[place].wrapping_sub(token[place]));
    }
    difference == 0
}
