//! How a token's tag is spelt.

ghost use Rattle.std.specs.Prelude.{◌≡◌, length};
ghost use Rattle.multistate_rle.specs.Letters.{letters_of, letters_text, plain};

use std::marker::Model;

/// The letters of a tag: a prefix or none, and the byte that ends it.
#[derive(Clone, Copy, Debug, PartialEq, Eq)]
pub struct Letters {
    pub prefix: Option<u8>,
    pub last: u8,
}

impl Model for Letters {
    ghost use Rattle.multistate_rle.specs.Letters.{LettersValue};

    ghost Value = { LettersValue };

    ghost view = { λ v. record { prefix = v.prefix; last = v.last } };

    ghost inverse = { λ v. record { prefix = v.prefix; last = v.last } };
}

impl Letters {
    /// A tag of one byte.
    pub fn plain(last: u8) -> Letters
        ensures { result ≡ plain last }
    {
        Letters { prefix: None, last }
    }

    /// A state: `b` and `o` where there are only two, otherwise `.`, `A` to `X`, and `p` to `y`
    /// before a letter.
    pub fn of_state(two_states: bool, state: u8) -> Letters
        ensures { result ≡ letters_of two_states state }
    {
        if two_states {
            return Letters::plain(if state == 0 { b'b' } else { b'o' });
        }
        match state {
            0 => Letters::plain(b'.'),
            1..=24 => Letters::plain(b'A' + (state - 1)),
            _ => Letters {
                prefix: Some(b'o' + (state - 1) / 24),
                last: b'A' + (state - 1) % 24,
            },
        }
    }

    /// How many bytes they are.
    pub fn len(self) -> usize
        ensures { result ≡ length (letters_text self) }
    {
        match self.prefix {
            Some(_) => 2,
            None => 1,
        }
    }
}
