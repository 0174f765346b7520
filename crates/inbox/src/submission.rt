//! What goes through the inbox.

ghost use Rattle.std.specs.Prelude.{◌≡◌, true};
ghost use Rattle.crossbeam_channel.specs.Claims.{view};
ghost use Rattle.edit_stamps.specs.Edit.{has_states_below};

use board::Entry;
use edit_stamps::Edit;
use receipts::Answering;

/// An entry to be published, and the end at which it is answered. The entry is the one that is answered there,
/// and its edit's states are below the board's number of states.
#[derive(Drop)]
pub struct Submission {
    pub entry: Entry,
    pub answering: Answering,
    pub ghost of: { (view answering.pass).entry ≡ entry },
    pub ghost below: { has_states_below (view answering.pass).label.states entry.edit ≡ true },
}

impl Submission {
    /// The edit alone, of a submission that nobody will answer.
    pub fn into_edit(self) -> Edit
        ensures { result ≡ self.entry.edit }
    {
        self.entry.edit
    }
}
