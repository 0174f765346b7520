//! Groups that are gone on to from one another.

ghost use Rattle.std.specs.Prelude.{◌≡◌, ◌-◌, ◌^◌, ◌<◌, IfOk, IsTrue, OnOk, length, map, vec_capacity};
ghost use Rattle.square_store.specs.Groups.{AreLinked, IsBehind, IsFree, IsPut, head_of};
ghost use Rattle.square_store.specs.Stored.{AreMet, node_of};

use crate::group::{Group, lowest_bit, tag_of};
use crate::stored::{StoredSquare, hash_of};
use keyed_hash::HashKey;
use std::alloc::{AllocError, Global};

/// How many groups there may be: a group names another by 32 bits.
const MOST_GROUPS: usize = 0xffff_ffff;

/// Where a place may be put: in a slot of a group, or, where there is none, behind the group, which is full.
#[derive(Clone, Copy)]
pub(crate) struct FreeSlot {
    pub(crate) group: usize,
    pub(crate) slot: Option<usize>,
}

/// Where a search for a hash begins, among so many groups.
#[inline(always)]
pub(crate) fn head_of(heads: usize, hash: u32) -> usize
    requires { 0 < heads }
    ensures head { result ≡ head_of heads hash }
    ensures within { result < heads }
{
    hash as usize & (heads - 1)
}

/// Takes memory for one group more.
pub(crate) fn reserve_group(groups: &mut Vec<Group>) -> Result<(), AllocError>
    ensures items { groups.new.items ≡ groups.old.items }
    ensures room { OnOk result (length groups.new.items < vec_capacity groups.new) }
    ensures few { OnOk result (length groups.new.items < 2 ^ 32 - 1) }
{
    if groups.len() >= MOST_GROUPS {
        return Err(AllocError);
    }
    groups.reserve(1)
}

/// The places of squares in groups, of which so many are begun at.
pub(crate) fn grouped(
    alloc: Global,
    key: &HashKey,
    squares: &[StoredSquare],
    heads: usize,
) -> Result<Vec<Group>, AllocError>
    requires some { 0 < heads }
    requires few { length squares.now < 2 ^ 32 }
    ensures { IfOk result (λ groups. AreMet key.now groups.items heads (map node_of squares.now)) }
{
    let mut groups = Vec::with_capacity(alloc, heads)?;
    groups.resize(heads, Group::empty())?;
    for place in 0..squares.len() {
        reserve_group(&mut groups)?;
        let hash = hash_of(key, &squares[place].node());
        put(
            &mut groups,
            head_of(heads, hash),
            tag_of(hash),
            place as u32,
        );
    }
    Ok(groups)
}

/// Puts a place where a search that begins at a group comes by it.
pub(crate) fn put(groups: &mut Vec<Group>, head: usize, tag: u8, place: u32)
    requires linked { AreLinked groups.old.items }
    requires head { head < length groups.old.items }
    requires tag { 0 < tag }
    requires room { length groups.old.items < vec_capacity groups.old }
    requires few { length groups.old.items < 2 ^ 32 - 1 }
    ensures { IsPut groups.old.items groups.new.items head tag place }
{
    let free = free_slot(groups, head);
    match free.slot {
        Some(slot) => groups[free.group].put(slot, tag, place),
        None => put_behind(groups, free.group, tag, place),
    }
}

/// Puts a place into a group of its own, behind one that is the last.
fn put_behind(groups: &mut Vec<Group>, last: usize, tag: u8, place: u32)
    requires last { last < length groups.old.items }
    requires room { length groups.old.items < vec_capacity groups.old }
    requires few { length groups.old.items < 2 ^ 32 - 1 }
    ensures { IsBehind groups.old.items groups.new.items last tag place }
{
    let next = groups.len() as u32;
    groups[last].go_on_to(next);
    let mut group = Group::empty();
    group.put(0, tag, place);
    groups.push_reserved(group);
}

/// The first free slot that a search which begins at a group comes by.
fn free_slot(groups: &[Group], head: usize) -> FreeSlot
    requires linked { AreLinked groups.now }
    requires head { head < length groups.now }
    ensures { IsFree groups.now head result }
{
    let mut at = head;
    loop {
        let group = &groups[at];
        let free = group.slots_of(0);
        if free != 0 {
            return FreeSlot {
                group: at,
                slot: Some(lowest_bit(free)),
            };
        }
        match group.next() {
            Some(next) => at = next,
            None => {
                return FreeSlot {
                    group: at,
                    slot: None,
                };
            }
        }
    }
}
