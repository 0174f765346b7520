//! A plane of a block from those of its quarters, and the plane of its middle.

ghost use Rattle.std.specs.Prelude.{◌≡◌, ℕ, ◌+◌, ◌*◌, ◌/◌, ◌%◌, ◌^◌, ◌<◌, slice_index};
ghost use Rattle.std.specs.Int.{bit_at};
ghost use Rattle.bitplane_kernel.specs.Planes.{bit, IsJoinedPlane, HasRows};

use crate::bits::or;
use std::simd::prelude::*;

/// A plane of a block from those of its quarters, whose lowest byte is their first row.
pub(crate) fn joined(nw: u64, ne: u64, sw: u64, se: u64) -> u16x16
    ensures { IsJoinedPlane nw ne sw se result }
{
    let west = rows_of(nw, sw);
    let east = rows_of(ne, se);
    or(west, eight_right(east))
}

/// The middle rows and columns of a plane of a block, a byte a row.
pub(crate) fn middle(plane: u16x16) -> u64
    ensures { (x y : ℕ) → x < 8 → y < 8 → bit_at result (8 * y + x) ≡ bit plane (x + 4) (y + 4) }
{
    number_of(narrowed(middle_columns(middle_rows(plane))))
}

#[inline(always)]
fn rows_of(north: u64, south: u64) -> u16x16
    ensures { HasRows north south result }
{
    widened(bytes_of(north, south))
}

#[inline(always)]
fn bytes_of(north: u64, south: u64) -> u8x16
    ensures north { (y : ℕ) → y < 8 → slice_index result y ≡ north / 256 ^ y % 256 }
    ensures south { (y : ℕ) → y < 8 → slice_index result (y + 8) ≡ south / 256 ^ y % 256 }
{
    u64x2::from_array([north, south]).to_le_bytes()
}

#[inline(always)]
fn widened(bytes: u8x16) -> u16x16
    ensures value { (y : ℕ) → y < 16 → slice_index result y ≡ slice_index bytes y }
    ensures below { (y : ℕ) → y < 16 → slice_index result y < 256 }
{
    bytes.cast::<u16>()
}

/// Each cell's bit is that of the cell eight columns to its left, or 0.
#[inline(always)]
fn eight_right(a: u16x16) -> u16x16
    ensures low { (x y : ℕ) → x < 8 → y < 16 → bit result x y ≡ 0 }
    ensures high { (x y : ℕ) → x < 8 → y < 16 → bit result (x + 8) y ≡ bit a x y }
{
    a << u16x16::splat(8)
}

#[inline(always)]
fn middle_rows(plane: u16x16) -> u16x8
    ensures { (y : ℕ) → y < 8 → slice_index result y ≡ slice_index plane (y + 4) }
{
    plane.extract::<4, 8>()
}

#[inline(always)]
fn middle_columns(rows: u16x8) -> u16x8
    ensures { (y : ℕ) → y < 8 → slice_index result y ≡ slice_index rows y / 16 % 256 }
{
    (rows >> u16x8::splat(4)) & u16x8::splat(255)
}

#[inline(always)]
fn narrowed(rows: u16x8) -> u8x8
    requires { (y : ℕ) → y < 8 → slice_index rows y < 256 }
    ensures { (y : ℕ) → y < 8 → slice_index result y ≡ slice_index rows y }
{
    rows.cast::<u8>()
}

#[inline(always)]
fn number_of(rows: u8x8) -> u64
    ensures { (x y : ℕ) → x < 8 → y < 8 → bit_at result (8 * y + x) ≡ bit_at (slice_index rows y) x }
{
    u64x1::from_le_bytes(rows).to_array()[0]
}
