//! The generations of a list of cells, by tiles.

ghost use Rattle.std.specs.Prelude.{⊤};
ghost use Rattle.tile_cells.specs.Listing.{states_in};

use generations_rule::Rule;
use keyed_hash::HashKey;
use map_periods::Generations;
use pattern_cells::{Cell, are_below};
use std::alloc::Global;
use tile_cells::{CellsFault, Means, cells_later};

/// More windows than any test makes.
const MANY: u64 = 0x100_0000;

/// Cells at generation 0; each generation is run from there. Where a state is not the rule's none is told.
#[derive(Drop)]
pub struct LaterCells {
    pub alloc: Global,
    pub rule: Rule,
    pub cells: Vec<Cell>,
}

impl Generations for LaterCells {
    type Fault = CellsFault;

    ghost rule_of = { λ s. s.rule };

    ghost map_of = { λ s. states_in s.cells.items };

    ghost refuses = { λ s g fault. ⊤ };

    fn cells(&mut self, generation: u32) -> Result<Vec<Cell>, CellsFault> {
        if !are_below(self.rule.states(), &self.cells) {
            return Err(CellsFault::Unsorted);
        }
        let means = Means {
            key: HashKey::fixed(),
            windows: MANY,
        };
        let cells = cells_later(self.alloc, &self.rule, &self.cells, generation, means)?;
        Ok(cells)
    }
}
