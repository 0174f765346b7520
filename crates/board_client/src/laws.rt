//! What holds of clients: the contract of a function that does nothing.

ghost use Rattle.board_client.specs.Laws.{DrawsAbove, HoldsWhatItHeard};

/// What a client shows is what its replica holds: the edits that it was handed, whether one by one or as a
/// whole plane, and those of its own that the board has; and each drawing's counter is above those of all
/// edits that are held.
pub fn client_laws()
    ensures heard { HoldsWhatItHeard }
    ensures above { DrawsAbove }
{}
