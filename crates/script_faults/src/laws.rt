//! What the definitions obey, for all texts: the contract of a function that does nothing.

ghost use Rattle.script_faults.specs.Laws.{AreAsMany, AreInOrder, BeginWithFirstFault};

/// A script has a faulty line exactly where `read_script` finds a fault, and the first of them is the
/// line that it tells; they stand in the order of lines, at most one a line. A script that was read has
/// as many lines of commands as commands.
pub fn fault_laws()
    ensures first { BeginWithFirstFault }
    ensures order { AreInOrder }
    ensures commands { AreAsMany }
{}
