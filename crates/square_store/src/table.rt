//! A table of squares.

ghost use Rattle.std.specs.Prelude.{◌≡◌, ◌^◌, ◌<◌, ◌++◌, ◌∷◌, ◌↔◌, [], ℕ, IfNone, IfSome, IsTrue, None, OnOk, Some, length, slice_get, slice_set, if◌then◌else◌};
ghost use Rattle.square_store.specs.declared.first_result.FirstResult.{FirstResult};
ghost use Rattle.square_store.specs.Groups.{HasSlot};
ghost use Rattle.square_store.specs.Squares.{HasLevel};

use crate::first_result::FirstResult;
use crate::group::{Group, lowest_bit, tag_of, without_lowest_bit};
use crate::groups::{grouped, head_of, put, reserve_group};
use crate::node::Node;
use crate::stored::{StoredSquare, hash_of};
use keyed_hash::HashKey;
use std::alloc::{AllocError, Global};
use std::marker::Model;

/// How many squares there are for each group at which a search begins, at most.
const LOAD: usize = 8;

/// Squares in the order in which they were added, and beside each its summary and its first result. They
/// are found by a hash with a key, of which nothing is kept but a byte beside each place.
#[derive(Drop)]
pub(crate) struct SquareTable<S: Copy> {
    squares: Vec<StoredSquare>,
    summaries: Vec<S>,
    groups: Vec<Group>,
    /// How many groups a search may begin at; those behind are gone on to.
    heads: usize,
    key: HashKey,
    alloc: Global,
}

impl<S: Copy> Model for SquareTable<S> {
    ghost use Rattle.std.specs.Prelude.{◌≡◌, ◌-◌, ◌^◌, min, map, length};
    ghost use Rattle.square_store.specs.Stored.{AreMet, TableValue, first_of, node_of};

    ghost Value = { TableValue S };

    ghost view = { λ s. record { nodes = map node_of s.squares.items; summaries = s.summaries.items; firsts = map first_of s.squares.items; spare = min s.heads (min (s.squares.cap - length s.squares.items) (min (s.summaries.cap - length s.squares.items) (min (s.groups.cap - length s.groups.items) (2 ^ 32 - 1 - length s.groups.items)))) } };

    ghost invariant = { λ s. AreMet s.key s.groups.items s.heads (map node_of s.squares.items) × (length s.summaries.items ≡ length s.squares.items) };
}

impl<S: Copy> SquareTable<S> {
    pub(crate) fn new(alloc: Global, key: HashKey) -> SquareTable<S>
        ensures nodes { result.nodes ≡ [] }
        ensures summaries { result.summaries ≡ [] }
        ensures firsts { result.firsts ≡ [] }
    {
        SquareTable {
            squares: Vec::new(alloc),
            summaries: Vec::new(alloc),
            groups: Vec::new(alloc),
            heads: 0,
            key,
            alloc,
        }
    }

    pub(crate) fn key(&self) -> HashKey {
        self.key
    }

    pub(crate) fn len(&self) -> usize
        ensures { result ≡ length self.now.nodes }
    {
        self.squares.len()
    }

    #[inline(always)]
    pub(crate) fn node(&self, place: u32) -> Option<Node>
        ensures { result ≡ slice_get self.now.nodes place }
    {
        let square = self.squares.get(place as usize)?;
        Some(square.node())
    }

    pub(crate) fn summary(&self, place: u32) -> S
        requires { place < length self.now.nodes }
        ensures { slice_get self.now.summaries place ≡ Some result }
    {
        self.summaries[place as usize]
    }

    /// The result that was first kept of a square.
    #[inline(always)]
    pub(crate) fn first(&self, place: u32) -> Option<FirstResult>
        ensures some { IfSome result (λ first. slice_get self.now.firsts place ≡ Some (Some first)) }
        ensures none { IfNone result ((first : FirstResult) → slice_get self.now.firsts place ≡ Some (Some first) → ⊥) }
    {
        let square = self.squares.get(place as usize)?;
        square.first()
    }

    /// Keeps the result of a square, where it has room for one and has none; whether it does.
    pub(crate) fn keep_first(&mut self, place: u32, first: FirstResult) -> bool
        requires { HasLevel first.level (slice_get self.old.nodes place) }
        ensures { self.new ≡ record { nodes = self.old.nodes; summaries = self.old.summaries; firsts = if result then slice_set self.old.firsts place (Some first) else self.old.firsts; spare = self.old.spare } }
    {
        let at = place as usize;
        let Some(square) = self.squares[at].keeping(first) else {
            return false;
        };
        self.squares[at] = square;
        true
    }

    /// The place of a square.
    #[inline(always)]
    pub(crate) fn find(&self, node: &Node) -> Option<u32>
        ensures some { IfSome result (λ p. slice_get self.now.nodes p ≡ Some node.now) }
        ensures none { IfNone result ((p : ℕ) → slice_get self.now.nodes p ≡ Some node.now → ⊥) }
    {
        if self.heads == 0 {
            return None;
        }
        let hash = hash_of(&self.key, node);
        let tag = tag_of(hash);
        let mut at = head_of(self.heads, hash);
        loop {
            let group = &self.groups[at];
            if let Some(place) = self.find_in(group, tag, node) {
                return Some(place);
            }
            match group.next() {
                Some(next) => at = next,
                None => return None,
            }
        }
    }

    /// The place of a square that stands in a group.
    #[inline(always)]
    fn find_in(&self, group: &Group, tag: u8, node: &Node) -> Option<u32>
        ensures some { IfSome result (λ p. slice_get self.now.nodes p ≡ Some node.now) }
        ensures none { IfNone result ((slot p : ℕ) → HasSlot group.now slot tag p → slice_get self.now.nodes p ≡ Some node.now → ⊥) }
    {
        let mut slots = group.slots_of(tag);
        while slots != 0 {
            let place = group.place(lowest_bit(slots));
            if self.is_at(place, node) {
                return Some(place);
            }
            slots = without_lowest_bit(slots);
        }
        None
    }

    #[inline(always)]
    fn is_at(&self, place: u32, node: &Node) -> bool
        ensures { IsTrue result ↔ (slice_get self.now.nodes place ≡ Some node.now) }
    {
        match self.node(place) {
            Some(there) => there == *node,
            None => false,
        }
    }

    /// Takes memory for one square more.
    pub(crate) fn reserve(&mut self) -> Result<(), AllocError>
        requires { length self.old.nodes < 2 ^ 32 }
        ensures nodes { self.new.nodes ≡ self.old.nodes }
        ensures summaries { self.new.summaries ≡ self.old.summaries }
        ensures firsts { self.new.firsts ≡ self.old.firsts }
        ensures spare { OnOk result (0 < self.new.spare) }
    {
        self.squares.reserve(1)?;
        self.summaries.reserve(1)?;
        if self.squares.len() / LOAD >= self.heads {
            let heads = 2 * self.heads.max(1);
            self.groups = grouped(self.alloc, &self.key, &self.squares, heads)?;
            self.heads = heads;
        }
        reserve_group(&mut self.groups)?;
        Ok(())
    }

    /// Puts a square last.
    pub(crate) fn push(&mut self, node: Node, summary: S)
        requires spare { 0 < self.old.spare }
        requires few { length self.old.nodes < 2 ^ 32 }
        ensures nodes { self.new.nodes ≡ self.old.nodes ++ node ∷ [] }
        ensures summaries { self.new.summaries ≡ self.old.summaries ++ summary ∷ [] }
        ensures firsts { self.new.firsts ≡ self.old.firsts ++ None ∷ [] }
    {
        let place = self.squares.len() as u32;
        let hash = hash_of(&self.key, &node);
        put(
            &mut self.groups,
            head_of(self.heads, hash),
            tag_of(hash),
            place,
        );
        self.squares.push_reserved(StoredSquare::of(node));
        self.summaries.push_reserved(summary);
    }
}
