//! Slots for places.

ghost use Rattle.std.specs.Prelude.{◌≡◌, ◌≢◌, ℕ, ◌<◌, MatchOption, slice_index};
ghost use Rattle.std.specs.Int.{w32, trailing_zeros};
ghost use Rattle.indexmap.specs.IndexTable.Group.{IsBitSet};
ghost use Rattle.square_store.specs.Groups.{HasSlot, IsWritten, empty_group, tag_of};

use std::simd::prelude::*;

/// Eleven places, each under a tag of one byte, in as many bytes as a line of memory has: a search that
/// finds nothing reads one line. Where all slots are full, those behind stand in another group.
#[derive(Clone, Copy)]
pub(crate) struct Group {
    /// The first eleven; 0 at a slot that is free.
    tags: [u8; 16],
    places: [u32; 11],
    /// The group that is gone on to; 0 where there is none.
    next: u32,
}

/// What stands of a hash beside a place: its highest byte, and never 0.
#[inline(always)]
pub(crate) fn tag_of(hash: u32) -> u8
    ensures { result ≡ tag_of hash }
{
    ((hash >> 24) as u8).max(1)
}

/// The least number of a bit that is 1.
#[inline(always)]
pub(crate) fn lowest_bit(bits: u32) -> usize
    requires { 0 < bits }
    ensures value { result ≡ trailing_zeros w32 bits }
    ensures set { IsBitSet bits result }
{
    bits.trailing_zeros() as usize
}

/// All other bits.
#[inline(always)]
pub(crate) fn without_lowest_bit(bits: u32) -> u32
    requires { 0 < bits }
    ensures less { result < bits }
    ensures only { (k : ℕ) → IsBitSet result k → IsBitSet bits k }
    ensures others { (k : ℕ) → IsBitSet bits k → k ≢ trailing_zeros w32 bits → IsBitSet result k }
{
    bits & (bits - 1)
}

impl Group {
    pub(crate) fn empty() -> Group
        ensures { result ≡ empty_group }
    {
        Group {
            tags: [0; 16],
            places: [0; 11],
            next: 0,
        }
    }

    /// A bit for each slot that has the tag.
    #[inline(always)]
    pub(crate) fn slots_of(&self, tag: u8) -> u32
        ensures only { (k : ℕ) → IsBitSet result k → (k < 11) × (slice_index self.now.tags k ≡ tag) }
        ensures all { (k : ℕ) → k < 11 → slice_index self.now.tags k ≡ tag → IsBitSet result k }
    {
        let same = u8x16::from_array(self.tags).simd_eq(u8x16::splat(tag));
        (same.to_bitmask() & 0x7ff) as u32
    }

    #[inline(always)]
    pub(crate) fn place(&self, slot: usize) -> u32
        requires { slot < 11 }
        ensures { result ≡ slice_index self.now.places slot }
    {
        self.places[slot]
    }

    #[inline(always)]
    pub(crate) fn next(&self) -> Option<usize>
        ensures { MatchOption result (self.now.next ≡ 0) (λ next. (self.now.next ≡ next) × (0 < next)) }
    {
        if self.next == 0 {
            None
        } else {
            Some(self.next as usize)
        }
    }

    pub(crate) fn put(&mut self, slot: usize, tag: u8, place: u32)
        requires { slot < 11 }
        ensures { IsWritten self.old self.new slot tag place }
    {
        self.tags[slot] = tag;
        self.places[slot] = place;
    }

    pub(crate) fn go_on_to(&mut self, next: u32)
        ensures { self.new ≡ record { tags = self.old.tags; places = self.old.places; next = next } }
    {
        self.next = next;
    }
}
