//! What a poll hands out.

use edit_stamps::EditList;
use stamped_tree::Plane;

/// What a poll hands out of a published list of edits.
#[derive(Drop)]
pub enum News {
    /// The edits that follow what was handed out, in order.
    Edits(EditList),
    /// The plane of the whole list, and how many edits the list has: those that were not handed out are
    /// more than are kept.
    Whole(Plane, u64),
}
