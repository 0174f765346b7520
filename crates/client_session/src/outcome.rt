//! What came of a drawing.

ghost use Rattle.std.specs.Prelude.{◌≡◌};
ghost use Rattle.client_session.specs.Drawing.{outcome_of};

use board_client::Drawing;

/// The refusal behind which a board may have an edit or not.
pub(crate) const CLOSED: u8 = 30;

/// What came of a drawing, beside what was printed.
#[derive(Clone, Copy, Debug, PartialEq, Eq)]
pub enum Outcome {
    /// The board has the edit.
    Drawn,
    /// It was refused, which is printed: the board does not have it.
    Refused,
    /// The push was refused by 30: the board may have the edit or not. Nothing is pushed any more.
    InDoubt,
}

/// Whether the board has the edit, by what came of a drawing.
pub(crate) fn outcome_of(drawing: Drawing) -> Outcome
    ensures { result ≡ outcome_of drawing }
{
    match drawing {
        Drawing::Drawn(_) => Outcome::Drawn,
        Drawing::Unpublished(CLOSED) => Outcome::InDoubt,
        Drawing::Refused(_) | Drawing::Unpublished(_) => Outcome::Refused,
    }
}
