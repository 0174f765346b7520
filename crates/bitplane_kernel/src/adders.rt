//! Carry-save adders on planes, and how many neighbours of each cell are live.

ghost use Rattle.std.specs.Prelude.{◌≡◌, ℕ, ◌+◌, ◌*◌, ◌<◌};
ghost use Rattle.bitplane_kernel.specs.Planes.{bit, IsSum, IsHalfSum};
ghost use Rattle.bitplane_kernel.specs.Count.{total, around_in};

use crate::bits::{and, from_above, from_below, from_left, from_right, or, xor};
use std::simd::prelude::*;

/// The two binary digits of a sum of bits.
#[derive(Clone, Copy)]
pub(crate) struct Sum {
    pub(crate) low: u16x16,
    pub(crate) high: u16x16,
}

/// The four binary digits of a number from 0 to 8.
#[derive(Clone, Copy)]
pub(crate) struct Count {
    pub(crate) ones: u16x16,
    pub(crate) twos: u16x16,
    pub(crate) fours: u16x16,
    pub(crate) eights: u16x16,
}

#[inline(always)]
pub(crate) fn sum_of_two(a: u16x16, b: u16x16) -> Sum
    ensures { IsHalfSum result.low result.high a b }
{
    Sum {
        low: xor(a, b),
        high: and(a, b),
    }
}

#[inline(always)]
pub(crate) fn sum_of_three(a: u16x16, b: u16x16, c: u16x16) -> Sum
    ensures { IsSum result.low result.high a b c }
{
    let two = sum_of_two(a, b);
    let three = sum_of_two(two.low, c);
    Sum {
        low: three.low,
        high: or(two.high, three.high),
    }
}

/// How many of the eight neighbours of each cell are set, for the cells that are not on the edge.
#[inline(always)]
pub(crate) fn neighbours(live: u16x16) -> Count
    ensures { (x y : ℕ) → x < 14 → y < 14 → total result (x + 1) (y + 1) ≡ around_in live x y }
{
    let above = from_above(live);
    let below = from_below(live);
    // the column above and below each cell, and the three cells of each column
    let two = sum_of_two(above, below);
    let three = sum_of_three(above, below, live);
    let ones = sum_of_three(from_left(three.low), from_right(three.low), two.low);
    let twos = sum_of_three(from_left(three.high), from_right(three.high), two.high);
    let carried = sum_of_two(twos.low, ones.high);
    let fours = sum_of_two(twos.high, carried.high);
    Count {
        ones: ones.low,
        twos: carried.low,
        fours: fours.low,
        eights: fours.high,
    }
}
