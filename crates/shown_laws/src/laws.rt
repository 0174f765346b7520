//! The law, as the contract of a function that does nothing.

ghost use Rattle.shown_laws.specs.Shown.{AreTurnsOfClients, ShowsOfOneList};

/// What a client shows, writes and exports over the line of a served seat is of edits of the board's one
/// list, which are those that it was told and its own that are done. It does nothing: its contract is the law.
pub fn shown_laws()
    ensures turns { AreTurnsOfClients }
    ensures shown { ShowsOfOneList }
{}
