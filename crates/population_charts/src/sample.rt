//! How many cells of each state there are at a generation.

ghost use Rattle.std.specs.Prelude.{◌≡◌, ℕ, ◌+◌, ◌<◌, ◌==◌, count_by, length, slice_index};

use pattern_cells::Cell;
use std::alloc::{AllocError, Global};
use std::marker::Model;

/// A generation, and how many cells of each state from 1 on there are.
#[derive(Debug, Drop)]
pub struct Sample {
    generation: u64,
    counts: Vec<u64>,
}

impl Model for Sample {
    ghost use Rattle.population_charts.specs.Sample.{SampleValue};

    ghost Value = { SampleValue };

    ghost view = { λ s. record { generation = s.generation; counts = s.counts.items } };
}

impl Sample {
    ghost use Rattle.std.specs.Prelude.{◌≡◌, IfOk};
    ghost use Rattle.population_charts.specs.Sample.{IsSampleOf, count_of, greatest};

    /// The numbers of cells are those of the states 1, 2, .. in turn.
    pub fn new(generation: u64, counts: Vec<u64>) -> Sample
        ensures { result ≡ record { generation = generation; counts = counts.items } }
    {
        Sample { generation, counts }
    }

    /// How many of the cells at a generation have each state of a rule of so many. The only error is want of
    /// memory.
    pub fn of_cells(
        alloc: Global,
        states: u16,
        generation: u64,
        cells: &[Cell],
    ) -> Result<Sample, AllocError>
        ensures { IfOk result (IsSampleOf states generation cells.now) }
    {
        let mut counts = vec![in alloc; 0; usize::from(states.saturating_sub(1))]?;
        count_states(&mut counts, cells);
        Ok(Sample { generation, counts })
    }

    pub fn generation(&self) -> u64
        ensures { result ≡ self.now.generation }
    {
        self.generation
    }

    /// How many cells of a state there are: 0 for dead cells, which are not counted, and for a state
    /// behind the last that was.
    pub fn count_of(&self, state: u8) -> u64
        ensures { result ≡ count_of state self.now }
    {
        if state == 0 {
            return 0;
        }
        match self.counts.get(usize::from(state) - 1) {
            Some(count) => *count,
            None => 0,
        }
    }

    /// The greatest of its numbers of cells; 0 where it has none.
    pub fn greatest(&self) -> u64
        ensures { result ≡ greatest self.now.counts }
    {
        let mut most = 0;
        for count in &self.counts {
            most = most.max(*count);
        }
        most
    }
}

/// Counts each cell for its state, where numbers of the states 1, 2, .. stand in turn, each 0 before.
fn count_states(counts: &mut [u64], cells: &[Cell])
    requires { (n : ℕ) → n < length counts.old → slice_index counts.old n ≡ 0 }
    ensures { (n : ℕ) → n < length counts.new → slice_index counts.new n ≡ count_by (λ c. c.state == n + 1) cells.now }
{
    for cell in cells {
        let state = usize::from(cell.state);
        if 0 < state && state <= counts.len() {
            counts[state - 1] += 1;
        }
    }
}
