//! What turns obey, for all patterns, maps, rules and generations: the contract of a function that does nothing.

ghost use Rattle.pattern_turns.specs.Laws.{AreAGroup, AreTurnsOfThePlane, HasOneTurn, IsTurnedPattern, MovesCommute, PatternsTurn, TurnsCommute};

/// The eight ways are a group, and each is two turns; what a turn does to a pattern's box is one of them about the
/// origin, and then a move; a pattern has one turned pattern, which its parts tell. The evolution of a turned map is the turned evolution,
/// and that of a moved map the moved one, since a rule counts neighbours; so what becomes of a turned pattern is what
/// becomes of the pattern, turned.
pub fn turn_laws()
    ensures group { AreAGroup }
    ensures plane { AreTurnsOfThePlane }
    ensures one { HasOneTurn }
    ensures told { IsTurnedPattern }
    ensures evolution { TurnsCommute }
    ensures moves { MovesCommute }
    ensures patterns { PatternsTurn }
{}
