//! How far the live cells of the squares of a macrocell reach.

ghost use Rattle.std.specs.Prelude.{◌≡◌, ◌≤◌, ◌<◌, ◌+◌, ◌++◌, ◌∷◌, [], List, length, true, IfOk, slice_get};
ghost use Rattle.macrocell_text.specs.declared.entry.Entry.{Entry as AnyEntry};
ghost use Rattle.macrocell_text.specs.Macrocells.{AreLevelled, AreSquares, are_entries, squares_of};
ghost use Rattle.macrocell_universes.specs.Numbered.{IsNumbered, square_of};
ghost use Rattle.macrocell_universes.specs.Reaches.{AreReached, IsReach};

use crate::block::{Block, block_reach};
use crate::quarters::{Cut, Numbered, entry_at, one_step};
use crate::reach::{Reach, half_side};
use macrocell_text::Entry;
use std::alloc::{AllocError, Global};

/// That of the square of each entry. Each is made of those of earlier entries, so time goes by their number.
pub(crate) fn reaches_of(alloc: Global, entries: &[Entry]) -> Result<Vec<Reach>, AllocError>
    requires squares { AreSquares (squares_of entries.now) }
    requires levels { AreLevelled entries.now }
    requires entries { are_entries entries.now ≡ true }
    ensures count { IfOk result (λ reaches. length reaches.items ≡ length entries.now) }
    ensures reaches { IfOk result (λ reaches. AreReached entries.now reaches.items) }
{
    let mut reaches = Vec::with_capacity(alloc, entries.len())?;
    while reaches.len() < entries.len() {
        let reach = next_reach(entries, &reaches);
        reaches.push(reach)?;
    }
    Ok(reaches)
}

/// That of the square of the entry behind those of which it is known.
fn next_reach(entries: &[Entry], reaches: &[Reach]) -> Reach
    requires squares { AreSquares (squares_of entries.now) }
    requires levels { AreLevelled entries.now }
    requires entries { are_entries entries.now ≡ true }
    requires reaches { AreReached entries.now reaches.now }
    requires more { length reaches.now < length entries.now }
    ensures { AreReached entries.now (reaches.now ++ result ∷ []) }
{
    let index = reaches.len();
    match entry_at(entries, index) {
        Some(entry) => {
            let square = Numbered {
                level: entry.level(),
                number: index + 1,
            };
            square_reach(entries, reaches, square)
        }
        None => unreachable!(),
    }
}

/// That of a square above level 0, of those of the entries before its own.
fn square_reach(entries: &[Entry], reaches: &[Reach], square: Numbered) -> Reach
    requires squares { AreSquares (squares_of entries.now) }
    requires levels { AreLevelled entries.now }
    requires entries { are_entries entries.now ≡ true }
    requires above { 1 ≤ square.level }
    requires most { square.level ≤ 63 }
    requires is { IsNumbered entries.now square }
    requires reaches { AreReached entries.now reaches.now }
    requires count { square.number ≤ length reaches.now + 1 }
    requires few { length reaches.now ≤ length entries.now }
    ensures { IsReach square.level (square_of entries.now square) result }
{
    match one_step(entries, square) {
        Cut::Rows(rows) => block_reach(rows, Block::WHOLE),
        Cut::Four(four) => {
            let nw = reach_numbered(reaches, square.quarter(four.nw));
            let ne = reach_numbered(reaches, square.quarter(four.ne));
            let sw = reach_numbered(reaches, square.quarter(four.sw));
            let se = reach_numbered(reaches, square.quarter(four.se));
            Reach::joined(half_side(square.level), nw, ne, sw, se)
        }
    }
}

/// That of a square that something stands for.
pub(crate) fn reach_numbered(reaches: &[Reach], square: Numbered) -> Reach
    requires state { square.level ≡ 0 → square.number ≤ 255 }
    ensures { (es : List AnyEntry) → AreReached es reaches.now → length reaches.now ≤ length es → IsNumbered es square → (1 ≤ square.level → square.number ≤ length reaches.now) → IsReach square.level (square_of es square) result }
{
    if square.number == 0 {
        return Reach::NOTHING;
    }
    if square.level == 0 {
        return Reach::of_cell(square.number as u8);
    }
    match reach_at(reaches, square.number - 1) {
        Some(reach) => reach,
        None => Reach::NOTHING,
    }
}

/// That at an index, if there is one.
fn reach_at(reaches: &[Reach], index: usize) -> Option<Reach>
    ensures { result ≡ slice_get reaches.now index }
{
    match reaches.get(index) {
        Some(reach) => Some(*reach),
        None => None,
    }
}
