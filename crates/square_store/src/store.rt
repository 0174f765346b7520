//! Squares over leaves, each once.

ghost use Rattle.std.specs.Prelude.{◌≡◌, ◌-◌, ◌<◌, ◌↔◌, ◌∷◌, ◌++◌, ℕ, [], IsTrue, IfOk, OnErr, IfSome, IfNone, Some, Err, length, slice_get, if◌then◌else◌};
ghost use Rattle.square_store.specs.declared.first_result.FirstResult.{FirstResult};
ghost use Rattle.square_store.specs.Grid.{Grid, blank_grid, IsSpeltWithin};
ghost use Rattle.square_store.specs.Squares.{Held, IsAt, grid_at, side_at, four_grid, quarters_grid, Draws};
ghost use Rattle.square_store.specs.Store.{nothing_held, IsHeld, HasParts, IsGrown, IsAdded, IsNoneKept, IsFullFor, IsRoomFor, IsOnePartEach, IsStore, with_first};
ghost use Rattle.square_store.specs.Steps.{IsWanted, IsSummed, IsAbsentNode, IsAbsentLeaf, IsPushed, IsLeafEntered, IsPlaceOfLeaf, IsOneBlank};
ghost use Rattle.square_store.specs.Seen.{AreAt, AreQuartersAt, IsSeen};

use crate::fault::StoreFault;
use crate::first_result::FirstResult;
use crate::kind::LeafKind;
use crate::limits::Limits;
use crate::node::Node;
use crate::part::Part;
use crate::square::Square;
use crate::table::SquareTable;
use indexmap::IndexSet;
use keyed_hash::HashKey;
use std::alloc::Global;
use std::marker::Model;

/// Distinct squares over leaves of one kind, up to a number of them. A square of level k has
/// `side * 2^k` columns and rows, and leaves are of level 0. Squares are added and never taken out.
pub struct Store<L: LeafKind> {
    leaves: IndexSet<L, HashKey>,
    squares: SquareTable<L::Summary>,
    room: u32,
}

/// By hand, so that a caller's proof sees one step where a store is dropped.
impl<L: LeafKind> Drop for Store<L> {
    fn drop(self) {
        let Store {
            leaves: _,
            squares: _,
            room: _,
        } = self;
    }
}

impl<L: LeafKind> Model for Store<L> {
    ghost use Rattle.square_store.specs.Squares.{Held};
    ghost use Rattle.square_store.specs.Store.{IsStore, AreSummaries};

    ghost Value = { Held L };

    ghost view = { λ s. record { leaves = s.leaves.keys; squares = s.squares.nodes; firsts = s.squares.firsts; room = s.room } };

    ghost invariant = { λ s. IsStore L.write L.side L.IsLeaf (record { leaves = s.leaves.keys; squares = s.squares.nodes; firsts = s.squares.firsts; room = s.room }) × AreSummaries L.write L.side L.IsSummary (record { leaves = s.leaves.keys; squares = s.squares.nodes; firsts = s.squares.firsts; room = s.room }) s.squares.summaries };
}

impl<L: LeafKind> Store<L> {
    /// A store of no square.
    pub fn new(alloc: Global, limits: Limits) -> Store<L>
        ensures { result ≡ nothing_held limits.room }
    {
        Store {
            leaves: IndexSet::with_hasher(alloc, limits.key),
            squares: SquareTable::new(alloc, limits.key),
            room: limits.room,
        }
    }

    /// What it was made with.
    pub fn limits(&self) -> Limits
        ensures room { result.room ≡ self.now.room }
    {
        Limits {
            room: self.room,
            key: self.key(),
        }
    }

    /// The key by whose hashes it finds its squares.
    pub fn key(&self) -> HashKey {
        self.squares.key()
    }

    /// How many squares there are. A blank counts once, whatever its level.
    pub fn len(&self) -> u32
        ensures { result ≡ length self.now.squares }
    {
        let _room = self.room;
        self.squares.len() as u32
    }

    /// Whether a square of a level stands at a part. A blank stands for every level.
    pub fn is_at(&self, part: Part, level: u32) -> bool
        ensures level { IsTrue result ↔ IsAt self.now level part }
        ensures held { IsTrue result → IsHeld self.now part }
    {
        match self.node(part) {
            Some(Node::Blank(_)) => true,
            Some(Node::Leaf(_)) => level == 0,
            Some(Node::Four { level: own, .. }) => level == own,
            None => false,
        }
    }

    /// The square at a part.
    pub fn square(&self, part: Part) -> Square<'_, L>
        requires { IsHeld self.now part }
        ensures { IsSeen L.write L.side self.now part result }
    {
        let _ = &self.room;
        let Some(node) = self.node(part) else {
            unreachable!()
        };
        match node {
            Node::Blank(stamp) => Square::Blank(stamp),
            Node::Leaf(at) => {
                let Some(leaf) = self.leaves.get_index(at as usize) else {
                    unreachable!()
                };
                Square::Leaf(leaf)
            }
            Node::Four {
                level,
                nw,
                ne,
                sw,
                se,
            } => Square::Four {
                level,
                parts: [nw, ne, sw, se],
            },
        }
    }

    /// The four parts of a square of a level above 0, NW, NE, SW, SE; of a blank, which is of every
    /// level, itself.
    pub fn quarters(&self, level: u32, part: Part) -> [Part; 4]
        requires level { 0 < level }
        requires stands { IsAt self.now level part }
        ensures { AreQuartersAt L.write L.side self.now level part result }
    {
        match self.square(part) {
            Square::Blank(_) => [part; 4],
            Square::Leaf(_) => unreachable!(),
            Square::Four { parts, .. } => parts,
        }
    }

    /// The summary of the square at a part, in constant time.
    pub fn summary(&self, part: Part) -> L::Summary
        requires { IsHeld self.now part }
        ensures { (k : ℕ) → IsAt self.now k part → L.IsSummary (side_at L.side k) (grid_at L.write L.side self.now k part) result }
    {
        let _ = &self.room;
        self.squares.summary(part.place)
    }

    /// The result that was first kept of the square at a part.
    pub fn first_result(&self, part: Part) -> Option<FirstResult>
        ensures some { IfSome result (λ first. slice_get self.now.firsts part ≡ Some (Some first)) }
        ensures none { IfNone result ((first : FirstResult) → slice_get self.now.firsts part ≡ Some (Some first) → ⊥) }
    {
        let _ = &self.room;
        self.squares.first(part.place)
    }

    /// Keeps the result of a square, unless there is one already; whether it is kept. No result is kept of
    /// a leaf, of a blank, of a level or an exponent from 256 on.
    pub fn keep_first(&mut self, part: Part, first: FirstResult) -> bool
        requires { IsAt self.old first.level part }
        ensures kept { self.new ≡ (if result then with_first self.old part first else self.old) }
        ensures grows { IsGrown L.write L.side self.old self.new }
    {
        let _ = &self.room;
        self.squares.keep_first(part.place, first)
    }

    /// Each leaf and each square stands once, and no blank is spelt out. So two parts of one level
    /// with the same writes are one part.
    pub fn store_laws(&self)
        ensures store { IsStore L.write L.side L.IsLeaf self.now }
        ensures parts { IsOnePartEach L.write L.side self.now }
    {
        let _ = &self.room;
    }

    /// The blank of a stamp: state 0 at every place, written with the stamp; 0 where nothing was
    /// written. It stands for every level.
    pub fn add_blank(&mut self, stamp: u64) -> Result<Part, StoreFault>
        ensures draws { IfOk result (λ p. (k : ℕ) → Draws L.write L.side self.new k (blank_grid stamp) p) }
        ensures added { IfOk result (λ p. (k : ℕ) → IsAdded L.write L.side self.old self.new k (blank_grid stamp) p) }
        ensures grows { IsGrown L.write L.side self.old self.new }
        ensures firsts { IsNoneKept self.old self.new }
        ensures err { OnErr result (self.new ≡ self.old) }
        ensures full { result ≡ Err StoreFault.StoreFull → (k : ℕ) → IsFullFor L.write L.side self.old k (blank_grid stamp) }
        ensures memory { result ≡ Err StoreFault.Memory → (k : ℕ) → IsRoomFor L.write L.side self.old k (blank_grid stamp) }
    {
        let _ = &self.room;
        if let Some(part) = self.find(Node::Blank(stamp)) {
            return Ok(part);
        }
        let part = self.push(Node::Blank(stamp), L::summary_of_blank(stamp))?;
        Ok(part)
    }

    /// The square of a leaf, of level 0; the blank where the leaf is one.
    pub fn add_leaf(&mut self, leaf: L) -> Result<Part, StoreFault>
        ensures draws { IfOk result (λ p. Draws L.write L.side self.new 0 (L.write leaf) p) }
        ensures added { IfOk result (λ p. IsAdded L.write L.side self.old self.new 0 (L.write leaf) p) }
        ensures grows { IsGrown L.write L.side self.old self.new }
        ensures firsts { IsNoneKept self.old self.new }
        ensures err { OnErr result (self.new ≡ self.old) }
        ensures full { result ≡ Err StoreFault.StoreFull → IsFullFor L.write L.side self.old 0 (L.write leaf) }
        ensures memory { result ≡ Err StoreFault.Memory → IsRoomFor L.write L.side self.old 0 (L.write leaf) }
    {
        let _ = &self.room;
        if let Some(stamp) = leaf.blank_stamp() {
            let part = self.add_blank(stamp)?;
            return Ok(part);
        }
        let part = self.enter_leaf(leaf)?;
        Ok(part)
    }

    /// The square of a level above 0, of four parts of the level below, NW, NE, SW, SE; the blank
    /// where all four are one.
    pub fn add_four(&mut self, level: u32, parts: [Part; 4]) -> Result<Part, StoreFault>
        requires level { 0 < level }
        requires parts { AreAt self.old (level - 1) parts }
        ensures draws { IfOk result (λ p. Draws L.write L.side self.new level (four_grid L.write L.side self.old (level - 1) parts) p) }
        ensures added { IfOk result (λ p. IsAdded L.write L.side self.old self.new level (four_grid L.write L.side self.old (level - 1) parts) p) }
        ensures grows { IsGrown L.write L.side self.old self.new }
        ensures firsts { IsNoneKept self.old self.new }
        ensures err { OnErr result (self.new ≡ self.old) }
        ensures full { result ≡ Err StoreFault.StoreFull → IsFullFor L.write L.side self.old level (four_grid L.write L.side self.old (level - 1) parts) }
        ensures memory { result ≡ Err StoreFault.Memory → IsRoomFor L.write L.side self.old level (four_grid L.write L.side self.old (level - 1) parts) }
    {
        let part = self.add_quarters(level, parts[0], parts[1], parts[2], parts[3])?;
        Ok(part)
    }

    fn add_quarters(
        &mut self,
        level: u32,
        nw: Part,
        ne: Part,
        sw: Part,
        se: Part,
    ) -> Result<Part, StoreFault>
        requires { HasParts self.old level nw ne sw se }
        ensures draws { IfOk result (λ p. Draws L.write L.side self.new level (quarters_grid L.write L.side self.old (level - 1) nw ne sw se) p) }
        ensures added { IfOk result (λ p. IsAdded L.write L.side self.old self.new level (quarters_grid L.write L.side self.old (level - 1) nw ne sw se) p) }
        ensures grows { IsGrown L.write L.side self.old self.new }
        ensures firsts { IsNoneKept self.old self.new }
        ensures err { OnErr result (self.new ≡ self.old) }
        ensures full { result ≡ Err StoreFault.StoreFull → IsFullFor L.write L.side self.old level (quarters_grid L.write L.side self.old (level - 1) nw ne sw se) }
        ensures memory { result ≡ Err StoreFault.Memory → IsRoomFor L.write L.side self.old level (quarters_grid L.write L.side self.old (level - 1) nw ne sw se) }
    {
        let _ = &self.room;
        if self.are_one_blank(nw, ne, sw, se) {
            return Ok(nw);
        }
        if let Some(part) = self.find(Node::Four {
            level,
            nw,
            ne,
            sw,
            se,
        }) {
            return Ok(part);
        }
        let summary = L::summary_of_four(
            self.summary(nw),
            self.summary(ne),
            self.summary(sw),
            self.summary(se),
        );
        let part = self.push(
            Node::Four {
                level,
                nw,
                ne,
                sw,
                se,
            },
            summary,
        )?;
        Ok(part)
    }

    fn node(&self, part: Part) -> Option<Node>
        ensures { result ≡ slice_get self.now.squares part }
    {
        let _ = &self.room;
        self.squares.node(part.place)
    }

    fn are_one_blank(&self, nw: Part, ne: Part, sw: Part, se: Part) -> bool
        ensures { IsTrue result ↔ IsOneBlank self.now nw ne sw se }
    {
        if nw != ne || nw != sw || nw != se {
            return false;
        }
        match self.node(nw) {
            Some(Node::Blank(_)) => true,
            _ => false,
        }
    }

    fn find(&self, node: Node) -> Option<Part>
        ensures some { IfSome result (λ p. slice_get self.now.squares p ≡ Some node) }
        ensures none { IfNone result (IsAbsentNode self.now node) }
    {
        let _room = self.room;
        let place = self.squares.find(&node)?;
        Some(Part { place })
    }

    fn find_leaf(&self, leaf: &L) -> Option<Part>
        ensures some { IfSome result (IsPlaceOfLeaf self.now leaf.now) }
        ensures none { IfNone result (IsAbsentLeaf self.now leaf.now) }
    {
        let _room = self.room;
        match self.leaves.get_index_of(leaf) {
            Some(at) => self.find(Node::Leaf(at as u32)),
            None => None,
        }
    }

    fn is_full(&self) -> bool
        ensures { IsTrue result ↔ (length self.now.squares ≡ self.now.room) }
    {
        self.squares.len() >= self.room as usize
    }

    /// Puts a square last.
    fn push(&mut self, node: Node, summary: L::Summary) -> Result<Part, StoreFault>
        requires absent { IsAbsentNode self.old node }
        requires wanted { IsWanted self.old node }
        requires summed { IsSummed L.write L.side L.IsSummary self.old node summary }
        ensures pushed { IfOk result (λ p. IsPushed self.old self.new node p) }
        ensures err { OnErr result (self.new ≡ self.old) }
        ensures full { result ≡ Err StoreFault.StoreFull → length self.old.squares ≡ self.old.room }
        ensures memory { result ≡ Err StoreFault.Memory → length self.old.squares < self.old.room }
    {
        if self.is_full() {
            return Err(StoreFault::StoreFull);
        }
        let place = self.squares.len() as u32;
        if self.squares.reserve().is_err() {
            return Err(StoreFault::Memory);
        }
        self.squares.push(node, summary);
        Ok(Part { place })
    }

    /// The part of a leaf that is no blank: that of its square, which goes last where it is new. The leaf
    /// is looked up once, but where there is no room or no memory for one more.
    fn enter_leaf(&mut self, leaf: L) -> Result<Part, StoreFault>
        requires leaf { L.IsLeaf leaf }
        requires spelt { IsSpeltWithin L.side (L.write leaf) }
        ensures entered { IfOk result (IsLeafEntered self.old self.new leaf) }
        ensures err { OnErr result (self.new ≡ self.old) }
        ensures absent { OnErr result (IsAbsentLeaf self.old leaf) }
        ensures full { result ≡ Err StoreFault.StoreFull → length self.old.squares ≡ self.old.room }
        ensures memory { result ≡ Err StoreFault.Memory → length self.old.squares < self.old.room }
    {
        if self.is_full() {
            return self.find_leaf(&leaf).ok_or(StoreFault::StoreFull);
        }
        // With room made first, no leaf stays without its square.
        if self.squares.reserve().is_err() {
            return self.find_leaf(&leaf).ok_or(StoreFault::Memory);
        }
        let Ok((at, is_new)) = self.leaves.insert_full(leaf) else {
            return Err(StoreFault::Memory);
        };
        if is_new {
            let place = self.squares.len() as u32;
            self.squares.push(Node::Leaf(at as u32), leaf.summary());
            return Ok(Part { place });
        }
        let Some(part) = self.find(Node::Leaf(at as u32)) else {
            unreachable!()
        };
        Ok(part)
    }
}
