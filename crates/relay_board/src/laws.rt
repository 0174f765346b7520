//! What seats whose stamps rise keep: the contract of a function that does nothing.

ghost use Rattle.relay_board.specs.Rising.{KeepsStamps};

/// No stamp stands for two entries of a list that has just what seats and a file put, where the file has none
/// twice, and each seat's counters rise from one that none of its replica in the file exceeds.
pub fn seat_laws()
    ensures stamps { KeepsStamps }
{}
