//! Planes that are set where the number of live neighbours is one of a set.

ghost use Rattle.std.specs.Prelude.{◌≡◌, ℕ, ◌+◌, ◌*◌, ◌≤◌, ◌<◌, if◌then◌else◌};
ghost use Rattle.generations_rule.specs.Rule.{has};
ghost use Rattle.bitplane_kernel.specs.Planes.{bit};
ghost use Rattle.bitplane_kernel.specs.Count.{total, MarksAt};

use crate::adders::Count;
use crate::bits::{and, none, not, or};
use generations_rule::Rule;
use std::simd::prelude::*;

/// For each n from 0 to 8, the cells whose count is n.
#[inline(always)]
pub(crate) fn exact_counts(count: &Count) -> [u16x16; 9]
    ensures { (x y : ℕ) → x < 16 → y < 16 → MarksAt 9 result x y (total count.now x y) }
{
    let low = pairs(count.ones, count.twos);
    let high = pairs(count.fours, count.eights);
    [
        and(low[0], high[0]),
        and(low[1], high[0]),
        and(low[2], high[0]),
        and(low[3], high[0]),
        and(low[0], high[1]),
        and(low[1], high[1]),
        and(low[2], high[1]),
        and(low[3], high[1]),
        and(low[0], high[2]),
    ]
}

/// For each n from 0 to 3, the cells whose two bits are the number n.
#[inline(always)]
fn pairs(ones: u16x16, twos: u16x16) -> [u16x16; 4]
    ensures { (x y : ℕ) → x < 16 → y < 16 → MarksAt 4 result x y (bit ones x y + 2 * bit twos x y) }
{
    let no_ones = not(ones);
    let no_twos = not(twos);
    [
        and(no_ones, no_twos),
        and(ones, no_twos),
        and(no_ones, twos),
        and(ones, twos),
    ]
}

/// The cells at whose count a live cell survives.
#[inline(always)]
pub(crate) fn where_surviving(exact: &[u16x16; 9], rule: &Rule) -> u16x16
    ensures { (x y n : ℕ) → x < 16 → y < 16 → n ≤ 8 → MarksAt 9 exact.now x y n → bit result x y ≡ (if has rule.now.survival n then 1 else 0) }
{
    let mut cells = none();
    for n in 0..9u8 {
        if rule.survives(n) {
            cells = or(cells, exact[usize::from(n)]);
        }
    }
    cells
}

/// The cells at whose count a cell is born.
#[inline(always)]
pub(crate) fn where_born(exact: &[u16x16; 9], rule: &Rule) -> u16x16
    ensures { (x y n : ℕ) → x < 16 → y < 16 → n ≤ 8 → MarksAt 9 exact.now x y n → bit result x y ≡ (if has rule.now.birth n then 1 else 0) }
{
    let mut cells = none();
    for n in 0..9u8 {
        if rule.born(n) {
            cells = or(cells, exact[usize::from(n)]);
        }
    }
    cells
}
