//! Operations on one plane: a lane is a row, a bit a column.

ghost use Rattle.std.specs.Prelude.{◌≡◌, ℕ, ◌+◌, ◌-◌, ◌*◌, ◌%◌, ◌<◌, min, max};
ghost use Rattle.bitplane_kernel.specs.Planes.{bit, HasBits};

use std::simd::prelude::*;

#[inline(always)]
pub(crate) fn none() -> u16x16
    ensures { HasBits result (λ x y. 0) }
{
    u16x16::splat(0)
}

#[inline(always)]
pub(crate) fn all() -> u16x16
    ensures { HasBits result (λ x y. 1) }
{
    u16x16::splat(u16::MAX)
}

#[inline(always)]
pub(crate) fn not(a: u16x16) -> u16x16
    ensures { HasBits result (λ x y. 1 - bit a x y) }
{
    !a
}

#[inline(always)]
pub(crate) fn and(a: u16x16, b: u16x16) -> u16x16
    ensures { HasBits result (λ x y. min (bit a x y) (bit b x y)) }
{
    a & b
}

#[inline(always)]
pub(crate) fn or(a: u16x16, b: u16x16) -> u16x16
    ensures { HasBits result (λ x y. max (bit a x y) (bit b x y)) }
{
    a | b
}

#[inline(always)]
pub(crate) fn xor(a: u16x16, b: u16x16) -> u16x16
    ensures { HasBits result (λ x y. (bit a x y + bit b x y) % 2) }
{
    a ^ b
}

/// Each cell's bit is that of the cell above.
#[inline(always)]
pub(crate) fn from_above(a: u16x16) -> u16x16
    ensures { (x y : ℕ) → x < 16 → y < 15 → bit result x (y + 1) ≡ bit a x y }
{
    a.rotate_elements_right::<1>()
}

/// Each cell's bit is that of the cell below.
#[inline(always)]
pub(crate) fn from_below(a: u16x16) -> u16x16
    ensures { (x y : ℕ) → x < 16 → y < 15 → bit result x y ≡ bit a x (y + 1) }
{
    a.rotate_elements_left::<1>()
}

/// Each cell's bit is that of the cell to its left.
#[inline(always)]
pub(crate) fn from_left(a: u16x16) -> u16x16
    ensures { (x y : ℕ) → x < 15 → y < 16 → bit result (x + 1) y ≡ bit a x y }
{
    a << u16x16::splat(1)
}

/// Each cell's bit is that of the cell to its right.
#[inline(always)]
pub(crate) fn from_right(a: u16x16) -> u16x16
    ensures { (x y : ℕ) → x < 15 → y < 16 → bit result x y ≡ bit a (x + 1) y }
{
    a >> u16x16::splat(1)
}
