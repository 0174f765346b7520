//! What a byte is in a row of tokens.

ghost use Rattle.std.specs.Prelude.{◌≡◌, ◌<◌, ◌≤◌, IfSome};

/// What a byte is in a row of tokens.
#[derive(Clone, Copy, Debug, PartialEq, Eq)]
pub enum Role {
    /// `!`, behind which nothing is read.
    EndMark,
    /// A digit of a count.
    Digit(u8),
    /// `p` to `y`, 1 to 10, before a letter.
    Prefix(u8),
    /// The end of a run of a state. A letter behind a prefix may name one above 255.
    State(u16),
    /// The end of a run of row ends.
    RowEnd,
    /// It cannot stand there.
    Stray,
}

impl Role {
    ghost use Rattle.multistate_rle.specs.Reading.{role_of, bare_role};
    ghost use Rattle.multistate_rle.specs.Steps.{role_meant};

    /// What a byte is, behind a prefix or none.
    pub fn of(prefix: Option<u8>, byte: u8) -> Role
        requires { IfSome prefix (λ k. k ≤ 10) }
        ensures { role_meant result ≡ role_of prefix byte }
    {
        match byte {
            b'!' => Role::EndMark,
            b'A'..=b'X' => Role::State(
                24 * u16::from(prefix.unwrap_or(0)) + u16::from(byte - b'A') + 1,
            ),
            _ => match prefix {
                None => Role::bare(byte),
                Some(_) => Role::Stray,
            },
        }
    }

    fn bare(byte: u8) -> Role
        ensures { role_meant result ≡ bare_role byte }
    {
        match byte {
            b'0'..=b'9' => Role::Digit(byte - b'0'),
            b'p'..=b'y' => Role::Prefix(byte - b'o'),
            b'.' | b'b' => Role::State(0),
            b'o' => Role::State(1),
            b'$' => Role::RowEnd,
            _ => Role::Stray,
        }
    }
}
