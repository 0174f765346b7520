//! Operations on all 64 lanes at once, each said lane by lane.

ghost use Rattle.std.specs.Cmp.Lexicographic.{pointwise};
ghost use Rattle.std.specs.Prelude.{◌≡◌, ◌<◌, ◌&&◌, max, nat_eq, nat_lt, slice_index, if◌then◌else◌};
ghost use Rattle.leaf_merge_lanes.specs.Lanes.{HasLanes};

use std::simd::prelude::*;

#[inline(always)]
pub(crate) fn greater(a: u64x64, b: u64x64) -> u64x64
    ensures { HasLanes result (λ i. max (slice_index a i) (slice_index b i)) }
{
    a.simd_max(b)
}

#[inline(always)]
pub(crate) fn greater_states(a: u8x64, b: u8x64) -> u8x64
    ensures { HasLanes result (λ i. max (slice_index a i) (slice_index b i)) }
{
    a.simd_max(b)
}

/// The states, and 0 where the other stamp is greater.
#[inline(always)]
pub(crate) fn unless_older(stamps: u64x64, others: u64x64, states: u8x64) -> u8x64
    ensures { HasLanes result (λ i.
        if nat_lt (slice_index stamps i) (slice_index others i) then 0 else slice_index states i) }
{
    let is_older = stamps.simd_lt(others).cast::<i8>();
    is_older.select(u8x64::splat(0), states)
}

/// Whether all stamps are equal, and all states.
#[inline(always)]
pub(crate) fn are_same(stamps: u64x64, others: u64x64, states: u8x64, other_states: u8x64) -> bool
    ensures { result ≡ (pointwise nat_eq stamps others && pointwise nat_eq states other_states) }
{
    are_same_stamps(stamps, others) && are_same_states(states, other_states)
}

#[inline(always)]
fn are_same_stamps(a: u64x64, b: u64x64) -> bool
    ensures { result ≡ pointwise nat_eq a b }
{
    !a.simd_ne(b).any()
}

#[inline(always)]
fn are_same_states(a: u8x64, b: u8x64) -> bool
    ensures { result ≡ pointwise nat_eq a b }
{
    !a.simd_ne(b).any()
}
