//! What stands for a square, and what that is.

ghost use Rattle.std.specs.Prelude.{◌≡◌, ℕ, ◌≤◌, ◌<◌, ◌-◌, length, map, take, true, slice_index_or};
ghost use Rattle.macrocell_text.specs.declared.entry.Entry.{Entry as AnyEntry};
ghost use Rattle.macrocell_text.specs.LiveCells.{capped_count, population};
ghost use Rattle.macrocell_text.specs.Macrocells.{are_entries, entry_square, squares_of};
ghost use Rattle.macrocell_text.specs.Standings.{IsShown, standing_square};

use crate::entry::Entry;

/// What stands for a square of a level behind so many entries: at level 0 a state, else 0 or the number of an entry.
#[derive(Clone, Copy)]
pub struct Standing {
    pub before: usize,
    pub level: u8,
    pub number: usize,
}

/// A square that something stands for.
#[derive(Clone, Copy)]
pub enum Shown {
    /// One without a live cell.
    Nothing,
    /// A live cell, by its state.
    Cell(u8),
    /// A square of level 3, a bit for each state.
    Rows(u64),
    /// Four squares, by what stands for them.
    Four {
        nw: Standing,
        ne: Standing,
        sw: Standing,
        se: Standing,
    },
}

/// The square that something stands for, of entries of whose squares the live cells are counted.
pub(crate) fn shown_by(entries: &[Entry], counts: &[u32], standing: Standing) -> Shown
    requires entries { are_entries entries.now ≡ true }
    requires counts { counts.now ≡ map capped_count (squares_of entries.now) }
    requires before { standing.before ≤ length entries.now }
    requires state { standing.level ≡ 0 → standing.number ≤ 255 }
    ensures { IsShown entries.now standing.before (standing_square entries.now standing) result }
{
    if standing.number == 0 {
        return Shown::Nothing;
    }
    if standing.level == 0 {
        return Shown::Cell(standing.number as u8);
    }
    if standing.number > standing.before {
        return Shown::Nothing;
    }
    let index = standing.number - 1;
    if count_is_0(entries, counts, index) {
        return Shown::Nothing;
    }
    shown_entry(entries, index)
}

/// Whether the square of an entry has no live cell. The entries are named in the contract alone.
fn count_is_0(entries: &[Entry], counts: &[u32], index: usize) -> bool
    requires counts { counts.now ≡ map capped_count (squares_of entries.now) }
    requires within { index < length entries.now }
    ensures { result ≡ true → (d : AnyEntry) → population (entry_square (squares_of (take index entries.now)) (slice_index_or entries.now index d)) ≡ 0 }
{
    let _ = entries;
    counts[index] == 0
}

/// The square of an entry.
fn shown_entry(entries: &[Entry], index: usize) -> Shown
    requires entries { are_entries entries.now ≡ true }
    requires within { index < length entries.now }
    ensures { (d : AnyEntry) → (before : ℕ) → index < before → IsShown entries.now before (entry_square (squares_of (take index entries.now)) (slice_index_or entries.now index d)) result }
{
    match entries[index] {
        Entry::Rows(rows) => Shown::Rows(rows),
        Entry::Four {
            level,
            nw,
            ne,
            sw,
            se,
        } => Shown::Four {
            nw: behind(index, level, nw),
            ne: behind(index, level, ne),
            sw: behind(index, level, sw),
            se: behind(index, level, se),
        },
    }
}

/// What stands for a quarter of an entry of a level, which has so many before it.
fn behind(before: usize, level: u8, number: u32) -> Standing
    requires { 1 ≤ level }
    ensures { result ≡ record { before = before; level = level - 1; number = number } }
{
    Standing {
        before,
        level: level - 1,
        number: number as usize,
    }
}
