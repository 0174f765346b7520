//! The planes of a block, and operations on the lowest N of them.

ghost use Rattle.std.specs.Prelude.{◌≡◌, ℕ, ◌+◌, ◌-◌, ◌*◌, ◌%◌, ◌^◌, ◌<◌, ◌≤◌, ◌==◌, if◌then◌else◌};
ghost use Rattle.std.specs.Int.{bit_at};
ghost use Rattle.bitplane_kernel.specs.Planes.{bit, state_in, HasBits, IsSumOfStates, IsCleared};

use crate::adders::sum_of_two;
use crate::bits::{all, and, not};
use std::simd::prelude::*;

/// One binary digit of the state of each cell of a block: a lane is a row, a bit a column.
#[derive(Clone, Copy)]
pub(crate) struct BitPlane {
    pub(crate) rows: u16x16,
}

/// The cells whose state is the number, both cut down to N digits.
#[inline(always)]
pub(crate) fn where_equal<const N: usize>(planes: &[BitPlane; 8], number: u16) -> u16x16
    requires { N ≤ 8 }
    ensures { HasBits result (λ x y. if state_in N planes.now x y == number % 2 ^ N then 1 else 0) }
{
    let mut cells = all();
    for p in 0..N {
        cells = and(cells, where_digit(planes[p].rows, number, p as u32));
    }
    cells
}

/// The cells whose digit is that of the number.
#[inline(always)]
fn where_digit(plane: u16x16, number: u16, p: u32) -> u16x16
    requires { p < 16 }
    ensures { HasBits result (λ x y. if bit plane x y == bit_at number p then 1 else 0) }
{
    if number >> p & 1 == 1 {
        plane
    } else {
        not(plane)
    }
}

/// Adds one to the state of these cells, and drops what N digits do not hold.
#[inline(always)]
pub(crate) fn add_one<const N: usize>(planes: &mut [BitPlane; 8], cells: u16x16)
    requires { N ≤ 8 }
    ensures { IsSumOfStates N planes.old cells planes.new }
{
    let mut carry = cells;
    for p in 0..N {
        let sum = sum_of_two(planes[p].rows, carry);
        planes[p].rows = sum.low;
        carry = sum.high;
    }
}

/// Makes the state of these cells 0.
#[inline(always)]
pub(crate) fn clear<const N: usize>(planes: &mut [BitPlane; 8], cells: u16x16)
    requires { N ≤ 8 }
    ensures { IsCleared N planes.old cells planes.new }
{
    let others = not(cells);
    for p in 0..N {
        planes[p].rows = and(planes[p].rows, others);
    }
}
