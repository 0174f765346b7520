//! The first frame of the reply to a poll.

ghost use Rattle.std.specs.Prelude.{◌≡◌, length};
ghost use Rattle.client_protocol.specs.Spelling.{SpellsCount, SpellsPolled};

/// What the first frame of the reply to a poll says.
#[derive(Clone, Copy, Debug, PartialEq, Eq)]
pub enum Polled {
    /// So many frames follow, each the text of one edit: at most 2^32 - 2.
    Edits(u32),
    /// One frame follows, the text of a whole plane.
    Whole,
    /// The poll was refused, by a number of the table of faults that is not 0.
    Refused(u8),
    /// The bytes are no such frame.
    Faulty,
}

/// What the first frame of the reply to a poll says: behind a 0 a number of four bytes, whose greatest is
/// the mark of a whole plane.
pub fn polled_in(body: &[u8]) -> Polled
    ensures { SpellsPolled body.now result }
{
    match body {
        [number] if *number != 0 => Polled::Refused(*number),
        [zero, count @ ..] if *zero == 0 && count.len() == 4 => announced_in(count),
        _ => Polled::Faulty,
    }
}

/// What a number in four bytes announces.
fn announced_in(count: &[u8]) -> Polled
    requires { length count.now ≡ 4 }
    ensures { SpellsCount count.now result }
{
    let number = u32::from_be_bytes([count[0], count[1], count[2], count[3]]);
    if number == u32::MAX {
        Polled::Whole
    } else {
        Polled::Edits(number)
    }
}
