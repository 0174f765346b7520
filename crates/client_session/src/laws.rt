//! What holds of clients: the contract of a function that does nothing.

ghost use Rattle.client_session.specs.Laws.{OfEach, ShowsWhatItHeard, ShowsWhatItHolds, TellsWhatChanged, TellsWhatTookItsPlace};

/// What a client told of the board, where it tells the cells that look different, is what its replica holds;
/// and behind each poll, also one that waits, and behind a plane in pieces, whether edits came or a whole plane,
/// it tells just the cells whose state is another one there than before, where these are not too many.
pub fn session_laws()
    ensures holds { ShowsWhatItHolds }
    ensures heard { OfEach ShowsWhatItHeard }
    ensures changed { OfEach TellsWhatChanged }
    ensures replaced { OfEach TellsWhatTookItsPlace }
{}
