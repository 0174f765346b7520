//! What the definitions obey, for all samples: the contract of a function that does nothing.

ghost use Rattle.population_charts.specs.Laws.{HasOneReading, HasRoundTicks};

/// Two charts with one text have the same generations, and of each state the same numbers of cells, whatever
/// their rules. An axis has ten ticks at most: all the multiples on it of the least round number with which
/// ten reach beyond it.
pub fn chart_laws()
    ensures reading { HasOneReading }
    ensures ticks { HasRoundTicks }
{}
