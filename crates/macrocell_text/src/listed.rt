//! The live cells of a macrocell, counted and listed.

ghost use Rattle.std.specs.Prelude.{◌≡◌, ◌⊎◌, ◌≤◌, ◌<◌, ◌-◌, ◌^◌, IfErr, IfOk, length, min, slice_get, unwrap_or, Some};
ghost use Rattle.macrocell_text.specs.LiveCells.{listing_refusal, population_of};
ghost use Rattle.macrocell_text.specs.Maps.{root_of_squares};
ghost use Rattle.macrocell_text.specs.Finding.{AreListed};
ghost use Rattle.macrocell_text.specs.Readings.{macrocell_told};

use crate::cells::cells_found;
use crate::counts::counts_of;
use crate::listing_fault::ListingFault;
use crate::macrocell::Macrocell;
use pattern_cells::Cell;
use std::alloc::{AllocError, Global};

/// The most cells that are listed.
const MOST_LISTED: u32 = 0x100_0000;

impl Macrocell {
    /// How many cells of its map are not dead, 2^24 + 1 where there are more. Time goes by square lines. The only
    /// error is want of memory.
    pub fn capped_population(&self, alloc: Global) -> Result<u32, AllocError>
        ensures { IfOk result (λ n. n ≡ min 16777217 (population_of (root_of_squares (macrocell_told self.now).squares))) }
    {
        let counts = counts_of(alloc, &self.entries)?;
        Ok(last_count(&counts))
    }

    /// The cells of its map that are not dead, by row and then by column. Refused are more than 2^24, which are
    /// counted before any is listed, and else a cell outside the plane of coordinates of 32 bits.
    pub fn cells(&self, alloc: Global) -> Result<Vec<Cell>, ListingFault>
        ensures cells { IfOk result (λ cells. AreListed (macrocell_told self.now).squares cells.items) }
        ensures refused { IfErr result (λ fault. (fault ≡ ListingFault.Memory) ⊎ (listing_refusal (macrocell_told self.now).squares ≡ Some fault)) }
    {
        let counts = counts_of(alloc, &self.entries)?;
        if last_count(&counts) > MOST_LISTED {
            return Err(ListingFault::TooManyCells);
        }
        cells_found(alloc, &self.entries, &counts)
    }
}

/// The last count, 0 where there is none.
fn last_count(counts: &[u32]) -> u32
    ensures { result ≡ unwrap_or (slice_get counts.now (length counts.now - 1)) 0 }
{
    match counts.last() {
        Some(count) => *count,
        None => 0,
    }
}
