//! What moves and periods obey, for all maps and rules: the contract of a function that does nothing.

ghost use Rattle.map_periods.specs.Laws.{HasOneMove, HasOnePeriod, PeriodsRepeat};

/// Between two maps there is one answer of a move, and to a search one answer. What has a period has it again and again:
/// so many periods later the cells stand moved so many times as far, under every rule.
pub fn period_laws()
    ensures one_move { HasOneMove }
    ensures one_period { HasOnePeriod }
    ensures repeat { PeriodsRepeat }
{}
