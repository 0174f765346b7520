//! Results of squares, each computed once.

ghost use Rattle.std.specs.Prelude.{◌≡◌, ◌<◌, ◌≤◌, ◌+◌, ◌-◌, ◌*◌, ◌^◌, ℕ, ◌%◌, IfOk, IfSome, IsTrue, OnOk, Err, slice_index_or, if◌then◌else◌};
ghost use Rattle.square_store.specs.Grid.{Grid};
ghost use Rattle.square_store.specs.Squares.{IsAt, grid_at, side_at, four_grid, Draws};
ghost use Rattle.square_store.specs.Seen.{AreAt};
ghost use Rattle.bitplane_kernel.specs.Square.{state_at};
ghost use Rattle.generation_engine.specs.EngineLeaf.{leaf_grid};
ghost use Rattle.generation_engine.specs.Loading.{IsStoreFull, centred};
ghost use Rattle.generation_engine.specs.Results.{part_from};
ghost use Rattle.generation_engine.specs.Walk.{AreMiddleParts};
ghost use Rattle.generation_engine.specs.Running.{IsRun};
ghost use Rattle.generation_engine.specs.Kept.{AllStand, AreDrawn, AreLater, HasGrown, HasNoneKept, IsDeadAt, IsKept, IsLater, neighbours_joined};

use crate::leaf_kind::EngineLeaf;
use crate::quarters::{middle, padded};
use bitplane_kernel::{BitLeaf, Block};
use generations_rule::Rule;
use indexmap::IndexMap;
use keyed_hash::HashKey;
use square_store::{FirstResult, Part, Square, Store, StoreFault};
use std::alloc::Global;
use std::marker::Model;

/// What a result is kept under: a square, with its level, and how many generations, which are 2 to the
/// power of the exponent.
#[derive(Clone, Copy, PartialEq, Eq, Hash)]
pub(crate) struct ResultKey {
    pub level: u32,
    pub part: Part,
    pub exponent: u32,
}

/// Squares, and the results that were computed of each under one rule.
pub(crate) struct ResultStore {
    rule: Rule,
    /// The result that was first kept of a square stands there, beside its parts. Most squares have no
    /// other.
    store: Store<EngineLeaf>,
    /// All other results.
    others: IndexMap<ResultKey, Part, HashKey>,
}

/// By hand, so that a caller's proof sees one step where it is dropped.
impl Drop for ResultStore {
    fn drop(self) {
        let ResultStore {
            rule: _,
            store: _,
            others: _,
        } = self;
    }
}

impl Model for ResultStore {
    ghost use Rattle.generation_engine.specs.Kept.{AreKept, RuledSquares};

    ghost Value = { RuledSquares };

    ghost view = { λ s. record { rule = s.rule; store = s.store } };

    ghost invariant = { λ s. AreKept s.rule s.store s.store.firsts s.others };
}

impl ResultStore {
    /// Squares of which no result is kept.
    pub(crate) fn of_store(alloc: Global, rule: Rule, store: Store<EngineLeaf>) -> ResultStore
        requires { HasNoneKept store }
        ensures { result ≡ record { rule = rule; store = store } }
    {
        let _states = rule.states();
        let others = IndexMap::with_hasher(alloc, store.key());
        ResultStore {
            rule,
            store,
            others,
        }
    }

    pub(crate) fn rule(&self) -> Rule
        ensures { result ≡ self.now.rule }
    {
        self.rule
    }

    pub(crate) fn store(&self) -> &Store<EngineLeaf>
        ensures { result.now ≡ self.now.store }
    {
        let _rule = &self.rule;
        &self.store
    }

    /// Whether a square is a blank: what is dead stays so.
    fn is_dead(&self, level: u32, part: Part) -> bool
        requires { IsAt self.now.store level part }
        ensures { IsTrue result → IsDeadAt self.now.store part }
    {
        let _rule = &self.rule;
        match self.store.square(part) {
            Square::Blank(_) => true,
            _ => false,
        }
    }

    /// The result that was kept of a square.
    fn kept(&self, level: u32, part: Part, exponent: u32) -> Option<Part>
        ensures { IfSome result (IsLater self.now.rule self.now.store self.now.store level (2 ^ exponent) part) }
    {
        let _ = &self.rule;
        let Some(first) = self.store.first_result(part) else {
            return None;
        };
        if first.level == level && first.exponent == exponent {
            return Some(first.later);
        }
        self.kept_other(level, part, exponent)
    }

    /// The same, which was kept under its key.
    fn kept_other(&self, level: u32, part: Part, exponent: u32) -> Option<Part>
        ensures { IfSome result (IsLater self.now.rule self.now.store self.now.store level (2 ^ exponent) part) }
    {
        self.others
            .get(&ResultKey {
                level,
                part,
                exponent,
            })
            .copied()
    }

    /// Keeps the result of a square.
    fn keep(&mut self, level: u32, part: Part, exponent: u32, later: Part) -> Result<(), StoreFault>
        requires stands { IsAt self.old.store level part }
        requires later { IsLater self.old.rule self.old.store self.old.store level (2 ^ exponent) part later }
        ensures grows { HasGrown self.old self.new }
        ensures full { result ≡ Err StoreFault.StoreFull → IsStoreFull self.new.store }
    {
        let first = FirstResult {
            level,
            exponent,
            later,
        };
        if self.store.keep_first(part, first) {
            return Ok(());
        }
        self.keep_other(level, part, exponent, later)
    }

    /// The same, under its key.
    fn keep_other(
        &mut self,
        level: u32,
        part: Part,
        exponent: u32,
        later: Part,
    ) -> Result<(), StoreFault>
        requires stands { IsAt self.old.store level part }
        requires later { IsLater self.old.rule self.old.store self.old.store level (2 ^ exponent) part later }
        ensures same { self.new ≡ self.old }
        ensures full { result ≡ Err StoreFault.StoreFull → IsStoreFull self.new.store }
    {
        let key = ResultKey {
            level,
            part,
            exponent,
        };
        match self.others.insert(key, later) {
            Ok(_) => Ok(()),
            Err(_) => Err(StoreFault::Memory),
        }
    }

    /// The square of a level above 0, of four parts of the level below.
    fn add_four(&mut self, level: u32, parts: [Part; 4]) -> Result<Part, StoreFault>
        requires level { 0 < level }
        requires parts { AreAt self.old.store (level - 1) parts }
        ensures draws { IfOk result (Draws leaf_grid 8 self.new.store level (four_grid leaf_grid 8 self.old.store (level - 1) parts)) }
        ensures grows { HasGrown self.old self.new }
        ensures full { result ≡ Err StoreFault.StoreFull → IsStoreFull self.new.store }
    {
        self.store.add_four(level, parts)
    }

    /// The square of a leaf.
    fn add_leaf(&mut self, leaf: EngineLeaf) -> Result<Part, StoreFault>
        ensures draws { IfOk result (Draws leaf_grid 8 self.new.store 0 (leaf_grid leaf)) }
        ensures grows { HasGrown self.old self.new }
        ensures full { result ≡ Err StoreFault.StoreFull → IsStoreFull self.new.store }
    {
        self.store.add_leaf(leaf)
    }

    /// The states of a square of level 0.
    fn leaf(&self, part: Part) -> BitLeaf
        requires { IsAt self.now.store 0 part }
        ensures { (u v : ℕ) → u < 8 → v < 8 → state_at 8 result u v ≡ (grid_at leaf_grid 8 self.now.store 0 part u v).state }
    {
        let _rule = &self.rule;
        match self.store.square(part) {
            Square::Blank(_) => BitLeaf::of_states(&[0; 64]),
            Square::Leaf(leaf) => leaf.leaf,
            Square::Four { .. } => unreachable!(),
        }
    }

    /// The states of a square of level 1.
    fn block(&self, part: Part) -> Block
        requires { IsAt self.now.store 1 part }
        ensures states { (u v : ℕ) → u < 16 → v < 16 → state_at 16 result u v ≡ (grid_at leaf_grid 8 self.now.store 1 part u v).state }
    {
        let parts = self.store.quarters(1, part);
        Block::from_leaves(
            &self.leaf(parts[0]),
            &self.leaf(parts[1]),
            &self.leaf(parts[2]),
            &self.leaf(parts[3]),
        )
    }

    /// The result of a square of 16 by 16 cells.
    fn base(&mut self, part: Part, exponent: u32) -> Result<Part, StoreFault>
        requires stands { IsAt self.old.store 1 part }
        requires exponent { exponent ≤ 2 }
        ensures later { IfOk result (IsLater self.old.rule self.old.store self.new.store 1 (2 ^ exponent) part) }
        ensures grows { HasGrown self.old self.new }
        ensures full { result ≡ Err StoreFault.StoreFull → IsStoreFull self.new.store }
    {
        let mut block = self.block(part);
        block.advance(&self.rule, 1 << exponent);
        let later = self.add_leaf(EngineLeaf {
            leaf: block.centre(),
        })?;
        Ok(later)
    }

    /// The middle of a square, of half its side.
    fn centre(&mut self, level: u32, part: Part) -> Result<Part, StoreFault>
        requires level { 0 < level }
        requires stands { IsAt self.old.store level part }
        ensures later { IfOk result (IsLater self.old.rule self.old.store self.new.store level 0 part) }
        ensures grows { HasGrown self.old self.new }
        ensures full { result ≡ Err StoreFault.StoreFull → IsStoreFull self.new.store }
    {
        if level == 1 {
            let leaf = self.block(part).centre();
            let centre = self.add_leaf(EngineLeaf { leaf })?;
            return Ok(centre);
        }
        let parts = self.middle(level, part);
        let centre = self.add_four(level - 1, parts)?;
        Ok(centre)
    }

    fn middle(&self, level: u32, part: Part) -> [Part; 4]
        requires level { 1 < level }
        requires stands { IsAt self.now.store level part }
        ensures { AreMiddleParts self.now.store level part result }
    {
        let _ = &self.rule;
        middle(&self.store, level, part)
    }

    /// The sixteen squares two levels below a square, row by row.
    fn sixteen(&self, level: u32, part: Part) -> [Part; 16]
        requires level { 1 < level }
        requires stands { IsAt self.now.store level part }
        ensures { AreDrawn self.now.store (level - 1 - 1) 4 (λ a b. part_from (grid_at leaf_grid 8 self.now.store level part) (side_at 8 (level - 1 - 1) * a) (side_at 8 (level - 1 - 1) * b)) result }
    {
        let outer = self.store.quarters(level, part);
        let nw = self.store.quarters(level - 1, outer[0]);
        let ne = self.store.quarters(level - 1, outer[1]);
        let sw = self.store.quarters(level - 1, outer[2]);
        let se = self.store.quarters(level - 1, outer[3]);
        [
            nw[0], nw[1], ne[0], ne[1], nw[2], nw[3], ne[2], ne[3], sw[0], sw[1], se[0], se[1],
            sw[2], sw[3], se[2], se[3],
        ]
    }

    /// The nine squares of a level that sixteen of the level below make with their neighbours.
    fn nine(&mut self, level: u32, parts: &[Part; 16]) -> Result<[Part; 9], StoreFault>
        requires level { 0 < level }
        requires parts { AllStand self.old.store (level - 1) parts.now }
        ensures drawn { IfOk result (AreDrawn self.new.store level 3 (neighbours_joined (side_at 8 (level - 1)) (λ a b. grid_at leaf_grid 8 self.old.store (level - 1) (slice_index_or parts.now (4 * b + a) 0)))) }
        ensures grows { HasGrown self.old self.new }
        ensures full { result ≡ Err StoreFault.StoreFull → IsStoreFull self.new.store }
    {
        let mut nine = [parts[0]; 9];
        for place in 0..9usize {
            let corner = 4 * (place / 3) + place % 3;
            nine[place] = self.add_four(
                level,
                [
                    parts[corner],
                    parts[corner + 1],
                    parts[corner + 4],
                    parts[corner + 5],
                ],
            )?;
        }
        Ok(nine)
    }

    /// The four squares of a level that nine of the level below make with their neighbours.
    fn four(&mut self, level: u32, parts: &[Part; 9]) -> Result<[Part; 4], StoreFault>
        requires level { 0 < level }
        requires parts { AllStand self.old.store (level - 1) parts.now }
        ensures drawn { IfOk result (AreDrawn self.new.store level 2 (neighbours_joined (side_at 8 (level - 1)) (λ a b. grid_at leaf_grid 8 self.old.store (level - 1) (slice_index_or parts.now (3 * b + a) 0)))) }
        ensures grows { HasGrown self.old self.new }
        ensures full { result ≡ Err StoreFault.StoreFull → IsStoreFull self.new.store }
    {
        let mut four = [parts[0]; 4];
        for place in 0..4usize {
            let corner = 3 * (place / 2) + place % 2;
            four[place] = self.add_four(
                level,
                [
                    parts[corner],
                    parts[corner + 1],
                    parts[corner + 3],
                    parts[corner + 4],
                ],
            )?;
        }
        Ok(four)
    }

    /// Puts the middle of each square in its place.
    fn centres(&mut self, level: u32, parts: &mut [Part]) -> Result<(), StoreFault>
        requires level { 0 < level }
        requires parts { AllStand self.old.store level parts.old }
        ensures later { OnOk result (AreLater self.old.rule self.old.store self.new.store level 0 parts.old parts.new) }
        ensures grows { HasGrown self.old self.new }
        ensures full { result ≡ Err StoreFault.StoreFull → IsStoreFull self.new.store }
    {
        for place in 0..parts.len() {
            parts[place] = self.centre(level, parts[place])?;
        }
        Ok(())
    }

    /// Puts the result of each square in its place.
    #[cycle(result)]
    fn results(&mut self, level: u32, parts: &mut [Part], exponent: u32) -> Result<(), StoreFault>
        requires level { 0 < level }
        requires below { level < 100 }
        requires exponent { exponent ≤ level + 1 }
        requires parts { AllStand self.old.store level parts.old }
        ensures later { OnOk result (AreLater self.old.rule self.old.store self.new.store level (2 ^ exponent) parts.old parts.new) }
        ensures grows { HasGrown self.old self.new }
        ensures full { result ≡ Err StoreFault.StoreFull → IsStoreFull self.new.store }
    {
        for place in 0..parts.len() {
            parts[place] = self.result(level, parts[place], exponent)?;
        }
        Ok(())
    }

    /// The result of a square, 2 to the power of the exponent generations later.
    #[cycle(result)]
    pub(crate) fn result(
        &mut self,
        level: u32,
        part: Part,
        exponent: u32,
    ) -> Result<Part, StoreFault>
        requires level { 0 < level }
        requires below { level < 100 }
        requires exponent { exponent ≤ level + 1 }
        requires stands { IsAt self.old.store level part }
        ensures later { IfOk result (IsLater self.old.rule self.old.store self.new.store level (2 ^ exponent) part) }
        ensures grows { HasGrown self.old self.new }
        ensures full { result ≡ Err StoreFault.StoreFull → IsStoreFull self.new.store }
    {
        let _ = &self.rule;
        if self.is_dead(level, part) {
            return Ok(part);
        }
        if let Some(later) = self.kept(level, part, exponent) {
            return Ok(later);
        }
        let later = self.computed(level, part, exponent)?;
        self.keep(level, part, exponent, later)?;
        Ok(later)
    }

    /// The same, which was not kept.
    #[cycle(result)]
    fn computed(&mut self, level: u32, part: Part, exponent: u32) -> Result<Part, StoreFault>
        requires level { 0 < level }
        requires below { level < 100 }
        requires exponent { exponent ≤ level + 1 }
        requires stands { IsAt self.old.store level part }
        ensures later { IfOk result (IsLater self.old.rule self.old.store self.new.store level (2 ^ exponent) part) }
        ensures grows { HasGrown self.old self.new }
        ensures full { result ≡ Err StoreFault.StoreFull → IsStoreFull self.new.store }
    {
        if level == 1 {
            self.base(part, exponent)
        } else if exponent == level + 1 {
            self.in_two_passes(level, part)
        } else {
            self.in_one_pass(level, part, exponent)
        }
    }

    /// The result of a square after as many generations as it can have: nine squares are run for half
    /// of them, and then four for the other half.
    #[cycle(result)]
    fn in_two_passes(&mut self, level: u32, part: Part) -> Result<Part, StoreFault>
        requires level { 1 < level }
        requires below { level < 100 }
        requires stands { IsAt self.old.store level part }
        ensures later { IfOk result (IsLater self.old.rule self.old.store self.new.store level (2 ^ (level + 1)) part) }
        ensures grows { HasGrown self.old self.new }
        ensures full { result ≡ Err StoreFault.StoreFull → IsStoreFull self.new.store }
    {
        let _ = &self.rule;
        let sixteen = self.sixteen(level, part);
        let mut nine = self.nine(level - 1, &sixteen)?;
        self.results(level - 1, &mut nine, level)?;
        let mut four = self.four(level - 1, &nine)?;
        self.results(level - 1, &mut four, level)?;
        let later = self.add_four(level - 1, four)?;
        Ok(later)
    }

    /// The result of a square after fewer generations: nine squares are cut down to their middles, and
    /// then four are run.
    #[cycle(result)]
    fn in_one_pass(&mut self, level: u32, part: Part, exponent: u32) -> Result<Part, StoreFault>
        requires level { 1 < level }
        requires below { level < 100 }
        requires exponent { exponent ≤ level }
        requires stands { IsAt self.old.store level part }
        ensures later { IfOk result (IsLater self.old.rule self.old.store self.new.store level (2 ^ exponent) part) }
        ensures grows { HasGrown self.old self.new }
        ensures full { result ≡ Err StoreFault.StoreFull → IsStoreFull self.new.store }
    {
        let _ = &self.rule;
        let sixteen = self.sixteen(level, part);
        let mut nine = self.nine(level - 1, &sixteen)?;
        self.centres(level - 1, &mut nine)?;
        let mut four = self.four(level - 1, &nine)?;
        self.results(level - 1, &mut four, exponent)?;
        let later = self.add_four(level - 1, four)?;
        Ok(later)
    }

    /// A square of a level, in the middle of a dead square of twice its side.
    fn padded(&mut self, level: u32, part: Part) -> Result<Part, StoreFault>
        requires above { 0 < level }
        requires below { level < 100 }
        requires stands { IsAt self.old.store level part }
        ensures draws { IfOk result (Draws leaf_grid 8 self.new.store (level + 1) (centred (side_at 8 (level - 1)) (grid_at leaf_grid 8 self.old.store level part))) }
        ensures grows { HasGrown self.old self.new }
        ensures full { result ≡ Err StoreFault.StoreFull → IsStoreFull self.new.store }
    {
        padded(&mut self.store, level, part)
    }

    /// The root of the universe 2 to the power of the exponent generations later.
    fn stepped(&mut self, root: Part, exponent: u32) -> Result<Part, StoreFault>
        requires stands { IsAt self.old.store 30 root }
        requires exponent { exponent ≤ 29 }
        ensures run { IfOk result (IsRun self.old self.new (2 ^ exponent) root) }
        ensures grows { HasGrown self.old self.new }
        ensures full { result ≡ Err StoreFault.StoreFull → IsStoreFull self.new.store }
    {
        let _ = &self.rule;
        let wide = self.padded(30, root)?;
        let later = self.result(30 + 1, wide, exponent)?;
        Ok(later)
    }

    /// The root of the universe so many generations later, at most 2^29: a step for each binary digit 1.
    pub(crate) fn run(&mut self, root: Part, generations: u32) -> Result<Part, StoreFault>
        requires stands { IsAt self.old.store 30 root }
        requires few { generations ≤ 2 ^ 29 }
        ensures run { IfOk result (IsRun self.old self.new generations root) }
        ensures grows { HasGrown self.old self.new }
        ensures full { result ≡ Err StoreFault.StoreFull → IsStoreFull self.new.store }
    {
        let mut later = root;
        for exponent in 0..30u32 {
            if has_digit(generations, exponent) {
                later = self.stepped(later, exponent)?;
            }
        }
        Ok(later)
    }
}

/// Whether the binary digit of a worth of 2 to the power of the exponent is 1.
fn has_digit(number: u32, exponent: u32) -> bool
    requires { exponent < 32 }
    ensures { number % 2 ^ (exponent + 1) ≡ number % 2 ^ exponent + (if result then 2 ^ exponent else 0) }
{
    (number >> exponent) % 2 == 1
}
