//! How many live cells the squares of a macrocell have.

ghost use Rattle.std.specs.Prelude.{◌≡◌, ℕ, ◌-◌, ◌<◌, ◌^◌, List, IfOk, map, slice_get, unwrap_or};
ghost use Rattle.macrocell_lines.specs.Squares.{StateSquare};
ghost use Rattle.macrocell_text.specs.Macrocells.{entry_square, square_standing, squares_of};
ghost use Rattle.macrocell_text.specs.LiveCells.{capped_count};

use crate::block::{Block, block_count};
use crate::entry::Entry;
use std::alloc::{AllocError, Global};

/// Counts stop here: one more than are listed.
const BEYOND: u64 = 0x100_0001;

/// How many live cells the square of each entry has, 2^24 + 1 where there are more.
pub(crate) fn counts_of(alloc: Global, entries: &[Entry]) -> Result<Vec<u32>, AllocError>
    ensures { IfOk result (λ counts. counts.items ≡ map capped_count (squares_of entries.now)) }
{
    let mut counts = Vec::new(alloc);
    for entry in entries {
        let count = entry_count(&counts, *entry);
        counts.push(count)?;
    }
    Ok(counts)
}

/// The count of an entry's square, from those of earlier squares.
fn entry_count(counts: &[u32], entry: Entry) -> u32
    ensures { (squares : List StateSquare) → counts.now ≡ map capped_count squares → result ≡ capped_count (entry_square squares entry) }
{
    match entry {
        Entry::Rows(rows) => block_count(rows, Block::WHOLE),
        Entry::Four {
            level,
            nw,
            ne,
            sw,
            se,
        } => {
            let below = level.saturating_sub(1);
            let north = quarter_count(counts, below, nw) + quarter_count(counts, below, ne);
            let south = quarter_count(counts, below, sw) + quarter_count(counts, below, se);
            (north + south).min(BEYOND) as u32
        }
    }
}

/// The count of the square of a level that a number stands for.
fn quarter_count(counts: &[u32], level: u8, number: u32) -> u64
    ensures count { (squares : List StateSquare) → counts.now ≡ map capped_count squares → result ≡ capped_count (square_standing level squares number) }
    ensures few { result < 2 ^ 32 }
{
    if level == 0 {
        return u64::from(number != 0);
    }
    if number == 0 {
        return 0;
    }
    count_at(counts, (number - 1) as usize)
}

/// The count at an index, 0 where there is none.
fn count_at(counts: &[u32], index: usize) -> u64
    ensures count { result ≡ unwrap_or (slice_get counts.now index) 0 }
    ensures few { result < 2 ^ 32 }
{
    match counts.get(index) {
        Some(count) => u64::from(*count),
        None => 0,
    }
}
