//! The law, as the contract of a function that does nothing.

ghost use Rattle.board_laws.specs.Ties.{IsTied};

/// A board's plane shows what a replica shows that was new and took the published edits one by one, each in a
/// delta of its own: at each place the same write. In a world of replicas one publication is one delivery, one
/// view is one show, and an export of a seat's plane is the export of a replica that took the same edits.
pub fn board_laws()
    ensures { IsTied }
{}
