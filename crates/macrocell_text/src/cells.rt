//! The live cells of a macrocell.

ghost use Rattle.std.specs.Prelude.{◌≡◌, ◌⊎◌, ◌≤◌, ◌<◌, ◌+◌, ◌-◌, ◌^◌, Bool, true, IfErr, IfOk, OnOk, length, map, Some, slice_index_or};
ghost use Rattle.macrocell_lines.specs.Squares.{seen_from, square_of};
ghost use Rattle.macrocell_text.specs.declared.entry.Entry.{Entry as AnyEntry};
ghost use Rattle.macrocell_text.specs.Macrocells.{AreLevelled, are_entries, entry_level, squares_of};
ghost use Rattle.macrocell_text.specs.LiveCells.{bits_of, capped_count, listing_refusal, live_cells, most_listed, population_of};
ghost use Rattle.macrocell_text.specs.Maps.{root_of_squares};
ghost use Rattle.macrocell_text.specs.Standings.{standing_square};
ghost use Rattle.macrocell_text.specs.Finding.{AreListed, HasFound, IsRefusedAt};

use crate::area::Area;
use crate::block::{Block, state_of_bit};
use crate::counts::counts_of;
use crate::entry::Entry;
use crate::found::FoundCells;
use crate::listing_fault::ListingFault;
use crate::standing::{Shown, Standing, shown_by};
use pattern_cells::Cell;
use std::alloc::Global;

/// Entries, and how many live cells the square of each has.
#[derive(Clone, Copy)]
struct Counted<'a> {
    entries: &'a [Entry],
    counts: &'a [u32],
}

/// Finds the cell of a block of level 0 that stands there, if it is live.
fn find_bit(rows: u64, block: Block, area: Area, found: &mut FoundCells) -> Result<(), ListingFault>
    requires level { block.level ≡ 0 }
    requires block_column { block.column + 1 ≤ 8 }
    requires block_row { block.row + 1 ≤ 8 }
    requires row { area.row ≤ 2 ^ 63 }
    ensures found { OnOk result (HasFound found.old found.new (live_cells area.side (square_of block.level (seen_from block.column block.row (bits_of rows))) area.column area.row)) }
    ensures refused { IfErr result (IsRefusedAt found.old.half (live_cells area.side (square_of block.level (seen_from block.column block.row (bits_of rows))) area.column area.row)) }
{
    let state = state_of_bit(rows, block.column, block.row);
    if state == 0 {
        return Ok(());
    }
    found.put(area, state)
}

/// Finds the live cells of a block of a square of level 3 that stands there.
fn find_in_block(
    rows: u64,
    block: Block,
    area: Area,
    found: &mut FoundCells,
) -> Result<(), ListingFault>
    requires level { block.level ≤ 3 }
    requires block_column { block.column + 2 ^ block.level ≤ 8 }
    requires block_row { block.row + 2 ^ block.level ≤ 8 }
    requires column { area.column + area.side ≤ 2 ^ 63 }
    requires row { area.row + area.side ≤ 2 ^ 63 }
    ensures found { OnOk result (HasFound found.old found.new (live_cells area.side (square_of block.level (seen_from block.column block.row (bits_of rows))) area.column area.row)) }
    ensures refused { IfErr result (IsRefusedAt found.old.half (live_cells area.side (square_of block.level (seen_from block.column block.row (bits_of rows))) area.column area.row)) }
{
    if block.level == 0 {
        return find_bit(rows, block, area, found);
    }
    let half = block.half();
    let side = area.side / 2;
    find_in_block(rows, block.quarter(0, 0), area.quarter(0, 0), found)?;
    find_in_block(rows, block.quarter(half, 0), area.quarter(side, 0), found)?;
    find_in_block(rows, block.quarter(0, half), area.quarter(0, side), found)?;
    find_in_block(
        rows,
        block.quarter(half, half),
        area.quarter(side, side),
        found,
    )
}

/// Finds the live cells of a square that stands there.
fn find(
    told: Counted,
    standing: Standing,
    area: Area,
    found: &mut FoundCells,
) -> Result<(), ListingFault>
    requires entries { are_entries told.entries.now ≡ true }
    requires counts { told.counts.now ≡ map capped_count (squares_of told.entries.now) }
    requires before { standing.before ≤ length told.entries.now }
    requires state { standing.level ≡ 0 → standing.number ≤ 255 }
    requires column { area.column + area.side ≤ 2 ^ 63 }
    requires row { area.row + area.side ≤ 2 ^ 63 }
    ensures found { OnOk result (HasFound found.old found.new (live_cells area.side (standing_square told.entry.entries.now standing) area.column area.row)) }
    ensures refused { IfErr result (IsRefusedAt found.old.half (live_cells area.side (standing_square told.entry.entries.now standing) area.column area.row)) }
{
    match shown_by(told.entries, told.counts, standing) {
        Shown::Nothing => Ok(()),
        Shown::Cell(state) => found.put(area, state),
        Shown::Rows(rows) => find_in_block(rows, Block::WHOLE, area, found),
        Shown::Four { nw, ne, sw, se } => {
            let side = area.side / 2;
            find(told, nw, area.quarter(0, 0), found)?;
            find(told, ne, area.quarter(side, 0), found)?;
            find(told, sw, area.quarter(0, side), found)?;
            find(told, se, area.quarter(side, side), found)
        }
    }
}

/// The cells of the map of entries whose squares' live cells are counted: not more than are listed.
pub(crate) fn cells_found(
    alloc: Global,
    entries: &[Entry],
    counts: &[u32],
) -> Result<Vec<Cell>, ListingFault>
    requires entries { are_entries entries.now ≡ true }
    requires levels { AreLevelled entries.now }
    requires counts { counts.now ≡ map capped_count (squares_of entries.now) }
    requires few { population_of (root_of_squares (squares_of entries.now)) ≤ most_listed }
    ensures cells { IfOk result (λ cells. AreListed (squares_of entries.now) cells.items) }
    ensures refused { IfErr result (λ fault. (fault ≡ ListingFault.Memory) ⊎ (listing_refusal (squares_of entries.now) ≡ Some fault)) }
{
    if entries.is_empty() {
        return Ok(Vec::new(alloc));
    }
    let level = root_level(entries);
    let half = half_side(level);
    let mut found = FoundCells::new(alloc, half);
    let area = Area {
        column: 0,
        row: 0,
        side: half + half,
    };
    let standing = Standing {
        before: entries.len(),
        level,
        number: entries.len(),
    };
    find(Counted { entries, counts }, standing, area, &mut found)?;
    Ok(found.into_sorted())
}

/// The level of the last entry.
fn root_level(entries: &[Entry]) -> u8
    requires entries { are_entries entries.now ≡ true }
    requires some { 0 < length entries.now }
    ensures level { (d : AnyEntry) → result ≡ entry_level (slice_index_or entries.now (length entries.now - 1) d) }
    ensures least { 1 ≤ result }
    ensures most { result ≤ 63 }
{
    entries[entries.len() - 1].level()
}

/// Half the side of a square of a level.
fn half_side(level: u8) -> u64
    requires some { 1 ≤ level }
    requires few { level ≤ 63 }
    ensures half { result ≡ 2 ^ (level - 1) }
    ensures most { result ≤ 2 ^ 62 }
{
    1 << (level - 1)
}
