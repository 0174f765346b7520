//! What HashLife stands on, for all rules, maps and squares: the contract of a function that does
//! nothing.

ghost use Rattle.generations_rule.specs.Evolution.{IsLocal, RunsCompose};
ghost use Rattle.generation_engine.specs.Results.{CentreIsResult, HasOneResult, IsComputedInTwoPasses, MovesAlong};

use generations_rule::evolution_laws;

/// Runs compose, a state depends on what lies near alone, and so a square has one result, wherever and
/// in whatever map it lies: its middle, up to a quarter of its side generations later. A square's result
/// is computed from those of nine overlapping squares of half its side, and then of four (Gosper, Physica
/// D 10, 1984); where the nine give their middles as they are, the four alone make the generations.
pub fn engine_laws()
    ensures compose { RunsCompose }
    ensures local { IsLocal }
    ensures moves { MovesAlong }
    ensures result { HasOneResult }
    ensures centre { CentreIsResult }
    ensures nine_and_four { IsComputedInTwoPasses }
{
    evolution_laws();
}
