//! What macrocells obey, for all rules, generations and maps: the contract of a function that does nothing.

ghost use Rattle.macrocell_lines.specs.Macrocell.{HasOneMacrocell};

/// A rule, a generation and a map of states have one macrocell.
pub fn macrocell_laws()
    ensures one { HasOneMacrocell }
{}
