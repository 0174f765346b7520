//! What a client works with.

ghost use Rattle.std.specs.Prelude.{◌≡◌, drop};

use board_client::Pushed;
use drawing_history::{Making, Way};
use edit_stamps::Edit;
use genedit_lib::Patterns;
use held_plane::HeldPlane;
use replica_core::Replica;

/// What a client works with at its seat: its replica, what pattern each name stands for, and what was told of
/// the board by now.
#[derive(Drop)]
pub struct Workspace {
    /// What the client was handed, and what it drew.
    pub replica: Replica,
    /// Which pattern each name stands for.
    pub patterns: Patterns,
    /// What was told of the board, where the cells that look different are told and not each edit.
    pub shown: Option<HeldPlane>,
    /// How many edits of the replica's journal are counted off: those that stood there when a number of edits, or a
    /// whole plane, was last told, and those that the client drew since.
    pub counted: usize,
    /// For how many milliseconds the poll waits that was said and is not answered yet, if there is one.
    pub awaited: Option<u32>,
    /// Whether a push was refused by 30. Then nothing is pushed any more.
    pub closed: bool,
    /// Whether edits that come are not told.
    pub quiet: bool,
    /// The edit whose push was said, and of which no answer came before the line ended, if there is one. Whether the
    /// board has it is told behind the first poll of the next connection; a drawing that is told then is this one anew.
    pub doubt: Option<Pushed>,
    /// What was drawn, of which the last can be taken back, and the drawing that is being made.
    pub making: Making,
    /// Which way something is being taken back, if it is.
    pub way: Option<Way>,
}

impl Workspace {
    ghost use Rattle.client_session.specs.Moment.{counted_behind, others};

    /// How many edits of others came since a number of edits, or a whole plane, was last told; one of the client's own
    /// that was in doubt is among them as it comes.
    pub(crate) fn others(&self) -> usize
        ensures { result ≡ others self.now }
    {
        self.replica.journal().len().saturating_sub(self.counted)
    }

    /// How many edits are counted off, where the journal had so many before the client drew.
    pub(crate) fn counted_behind(&self, known: usize) -> usize
        ensures { result ≡ counted_behind known self.now }
    {
        let others = known.saturating_sub(self.counted);
        self.replica.journal().len().saturating_sub(others)
    }
}

/// The edits of a list from a place on.
pub(crate) fn behind(edits: &[Edit], place: usize) -> &[Edit]
    ensures { result.now ≡ drop place edits.now }
{
    if place <= edits.len() {
        &edits[place..]
    } else {
        &[]
    }
}
