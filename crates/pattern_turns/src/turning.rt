//! Patterns turned.

ghost use Rattle.std.specs.Prelude.{◌≡◌, ◌≤◌, ◌^◌, IfOk, map};
ghost use Rattle.std.specs.List.Sorted.{IsPermutation, IsSortedBy};
ghost use Rattle.pattern_cells.specs.Pattern.{precedes};
ghost use Rattle.pattern_turns.specs.Turning.{IsTurned, turned_cell, turned_pattern};

use crate::turn::{Sides, Turn};
use pattern_cells::{Pattern, PatternCell};
use std::alloc::{AllocError, Global};

/// A pattern turned: its box with all that is in it. The corner of the box stays where it was, and so does the
/// generation.
pub fn turned(alloc: Global, pattern: &Pattern, turn: Turn) -> Result<Pattern, AllocError>
    ensures turned { IfOk result (λ new. IsTurned turn pattern.now new) }
    ensures one { IfOk result (λ new. new ≡ turned_pattern turn pattern.now) }
{
    let before = sides_of(pattern);
    let cells = turned_cells(alloc, pattern.cells(), before, turn)?;
    let after = before.turned(turn);
    Ok(Pattern::new(
        after.width,
        after.height,
        pattern.pos(),
        pattern.generation(),
        cells,
    ))
}

fn sides_of(pattern: &Pattern) -> Sides
    ensures width { result.width ≡ pattern.now.width }
    ensures height { result.height ≡ pattern.now.height }
{
    Sides {
        width: pattern.width(),
        height: pattern.height(),
    }
}

/// The cells of a box where a turn puts them, by row, then column.
fn turned_cells(
    alloc: Global,
    cells: &[PatternCell],
    sides: Sides,
    turn: Turn,
) -> Result<Vec<PatternCell>, AllocError>
    requires width { sides.width ≤ 2 ^ 32 }
    requires height { sides.height ≤ 2 ^ 32 }
    ensures moved { IfOk result (λ turned. IsPermutation (map (turned_cell turn sides.width sides.height) cells.now) turned.items) }
    ensures sorted { IfOk result (λ turned. IsSortedBy precedes turned.items) }
{
    let mut turned = Vec::with_capacity(alloc, cells.len())?;
    for cell in cells {
        turned.push(sides.turned_cell(turn, *cell))?;
    }
    Ok(sorted(turned))
}

/// By row, then column.
fn sorted(mut cells: Vec<PatternCell>) -> Vec<PatternCell>
    ensures moved { IsPermutation cells.items result.items }
    ensures sorted { IsSortedBy precedes result.items }
{
    cells.sort_unstable_by_key(|cell| (cell.row, cell.column));
    cells
}
