//! Answers to edits that come late.

ghost use Rattle.std.specs.Prelude.{◌≡◌, IfOk};
ghost use Rattle.client_session.specs.Lines.{drawn_line, refusal_line};
ghost use Rattle.genedit_join.specs.Commands.{late_outcome};

use client_session::Outcome;
use edit_stamps::{Edit, Stamp};
use genedit_io::RunFault;
use itoa::Buffer;
use std::alloc::{AllocError, Global};

/// The refusal behind which a board may have an edit or not.
const CLOSED: u8 = 30;

/// What came of an edit, by the number with which it was answered.
pub(crate) fn late_outcome(number: u8) -> Outcome
    ensures { result ≡ late_outcome number }
{
    match number {
        0 => Outcome::Drawn,
        CLOSED => Outcome::InDoubt,
        _ => Outcome::Refused,
    }
}

/// The stamp of a seat's last edit behind the first ones, which were known before, if there is one.
pub(crate) fn drawn_behind(edits: &[Edit], known: usize, seat: u16) -> Option<Stamp> {
    for edit in edits.get(known..)?.iter().rev() {
        if edit.stamp().replica() == seat {
            return Some(edit.stamp());
        }
    }
    None
}

/// The line of an edit that was drawn, by its counter and the seat's number.
pub(crate) fn drawn_text(alloc: Global, counter: u64, seat: u16) -> Result<Vec<u8>, AllocError>
    ensures { IfOk result (λ text. text.items ≡ drawn_line counter seat) }
{
    let mut text = Vec::new(alloc);
    text.extend_from_slice(b"drawn ")?;
    text.extend_from_slice(Buffer::new().format(counter).as_bytes())?;
    text.push(b' ')?;
    text.extend_from_slice(Buffer::new().format(u64::from(seat)).as_bytes())?;
    text.push(b'\n')?;
    Ok(text)
}

/// The line of a refusal, by its number.
pub(crate) fn refusal_text(alloc: Global, number: u8) -> Result<Vec<u8>, AllocError>
    ensures { IfOk result (λ text. text.items ≡ refusal_line number) }
{
    let mut text = Vec::new(alloc);
    text.extend_from_slice(RunFault::Refused(number, None).to_string(alloc)?.as_bytes())?;
    text.push(b'\n')?;
    Ok(text)
}
