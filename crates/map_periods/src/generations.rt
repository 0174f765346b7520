//! What tells the generations of a map.

ghost use Rattle.std.specs.Prelude.{◌≡◌, ℕ, IfErr, IfOk};
ghost use Rattle.generations_rule.specs.Place.{Place};
ghost use Rattle.generations_rule.specs.Rule.{GenerationsRule};
ghost use Rattle.generations_rule.specs.Evolution.{at};
ghost use Rattle.generation_engine.specs.Walk.{AreCellsOf};
ghost use Rattle.map_periods.specs.Periods.{RefusesNoMore};

use pattern_cells::Cell;

/// The generations of one map under one rule, which stay what they are.
pub trait Generations {
    /// Why the cells of a generation are not told.
    type Fault;

    /// The rule.
    ghost rule_of: { Self → GenerationsRule };

    /// The map, as it stands at generation 0.
    ghost map_of: { Self → Place → ℕ };

    /// Whether a generation may be refused so.
    ghost refuses: { Self → ℕ → Self.Fault → Type 0 };

    /// The cells that are not dead at a generation, sorted by `y`, then `x`.
    fn cells(&mut self, generation: u32) -> Result<Vec<Cell>, Self::Fault>
        ensures cells { IfOk result (λ cells. AreCellsOf (at (rule_of self.old) (map_of self.old) generation) cells.items) }
        ensures refused { IfErr result (refuses self.old generation) }
        ensures same_rule { rule_of self.new ≡ rule_of self.old }
        ensures same_map { map_of self.new ≡ map_of self.old }
        ensures refusals { RefusesNoMore (refuses self.old) (refuses self.new) };
}
