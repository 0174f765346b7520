//! Replies that say that something was done.

ghost use Rattle.client_protocol.specs.Spelling.{SpellsAnswer};

/// What the reply to a push, or to a farewell, says.
#[derive(Clone, Copy, Debug, PartialEq, Eq)]
pub enum Answer {
    /// It was done.
    Done,
    /// It was refused, by a number of the table of faults that is not 0.
    Refused(u8),
    /// The bytes are no such reply.
    Faulty,
}

/// What a reply of one byte says: 0 that it was done.
pub fn answer_in(body: &[u8]) -> Answer
    ensures { SpellsAnswer body.now result }
{
    match body {
        [number] if *number == 0 => Answer::Done,
        [number] => Answer::Refused(*number),
        _ => Answer::Faulty,
    }
}
