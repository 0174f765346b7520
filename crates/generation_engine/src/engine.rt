//! The engine.

mod shown;

ghost use Rattle.std.specs.Prelude.{◌≡◌, ◌+◌, ◌^◌, ◌<◌, ◌≤◌, ◌↔◌, ℕ, length, IfOk, OnOk, OnErr, Err};
ghost use Rattle.generations_rule.specs.Place.{Place};
ghost use Rattle.generations_rule.specs.Evolution.{at};
ghost use Rattle.pattern_cells.specs.Window.{is_in_window, seen_where};
ghost use Rattle.edit_stamps.specs.PlaneMap.{HasStatesBelow};
ghost use Rattle.stamped_tree.specs.Plane.{map_of};
ghost use Rattle.square_store.specs.Limits.{usual_room};
ghost use Rattle.square_store.specs.Store.{IsStore};
ghost use Rattle.generation_engine.specs.EngineLeaf.{IsEngineLeaf, leaf_grid};
ghost use Rattle.generation_engine.specs.Loading.{IsStoreFull, IsTooSmallFor};
ghost use Rattle.generation_engine.specs.Running.{HasSameCells, IsEvolutionOf};
ghost use Rattle.generation_engine.specs.Universe.{AreSameStates, IsEngine, population_of, states_in_writes, states_of};
ghost use Rattle.generation_engine.specs.Walk.{AreCellsOf};
ghost use Rattle.generation_engine.specs.Window.{IsExtent, population_in};

use crate::counts::square_population;
use crate::extent::extent_of;
use crate::fault::EngineFault;
use crate::load::universe_of;
use crate::region::Region;
use crate::results::ResultStore;
use crate::walk::middle_cells;
use crate::window::{region_cells, region_population};
use generations_rule::Rule;
use pattern_cells::{Cell, Window};
use square_store::{Limits, Part, Store, StoreFault};
use stamped_tree::Plane;
use std::alloc::{AllocError, Global};
use std::marker::Model;

/// The last generation.
const LAST: u32 = 0x2000_0000;

/// A universe of states under a rule: x and y from -2^32 to 2^32 - 1. It is stored as distinct squares,
/// of which one is the root, of level 33: a square of level k has 2^k columns and rows.
pub struct Engine {
    squares: ResultStore,
    root: Part,
    generation: u32,
    alloc: Global,
}

/// By hand, so that a caller's proof sees one step where a universe is dropped.
impl Drop for Engine {
    fn drop(self) {
        let Engine {
            squares: _,
            root: _,
            generation: _,
            alloc: _,
        } = self;
    }
}

impl Model for Engine {
    ghost use Rattle.generation_engine.specs.Universe.{EngineValue, IsEngine};
    ghost use Rattle.generation_engine.specs.Running.{universe};

    ghost Value = { EngineValue };

    ghost view = { λ e. universe e.squares e.root e.generation };

    ghost invariant = { λ e. IsEngine (universe e.squares e.root e.generation) };
}

impl Engine {
    /// An engine without a cell, with room for 2^26 squares.
    pub fn new(alloc: Global, rule: Rule) -> Result<Engine, AllocError>
        ensures states { IfOk result (λ engine. AreSameStates (states_of engine) (λ _. 0)) }
        ensures generation { IfOk result (λ engine. engine.generation ≡ 0) }
        ensures rule { IfOk result (λ engine. engine.rule ≡ rule) }
        ensures room { IfOk result (λ engine. engine.store.room ≡ usual_room) }
    {
        Engine::within(alloc, rule, Limits::usual())
    }

    /// An engine without a cell, with room for so many squares, of which an empty universe takes one.
    pub fn with_room(alloc: Global, rule: Rule, nodes: u32) -> Result<Engine, AllocError>
        requires { 64 ≤ nodes }
        ensures states { IfOk result (λ engine. AreSameStates (states_of engine) (λ _. 0)) }
        ensures generation { IfOk result (λ engine. engine.generation ≡ 0) }
        ensures rule { IfOk result (λ engine. engine.rule ≡ rule) }
        ensures room { IfOk result (λ engine. engine.store.room ≡ nodes) }
    {
        Engine::within(alloc, rule, Limits::of_room(nodes))
    }

    /// An engine without a cell, within limits.
    pub fn within(alloc: Global, rule: Rule, limits: Limits) -> Result<Engine, AllocError>
        requires { 64 ≤ limits.room }
        ensures states { IfOk result (λ engine. AreSameStates (states_of engine) (λ _. 0)) }
        ensures generation { IfOk result (λ engine. engine.generation ≡ 0) }
        ensures rule { IfOk result (λ engine. engine.rule ≡ rule) }
        ensures room { IfOk result (λ engine. engine.store.room ≡ limits.room) }
    {
        let _states = rule.states();
        let mut store = Store::new(alloc, limits);
        match store.add_blank(0) {
            Ok(root) => Ok(Engine {
                squares: ResultStore::of_store(alloc, rule, store),
                root,
                generation: 0,
                alloc,
            }),
            Err(StoreFault::StoreFull) => unreachable!(),
            Err(StoreFault::Memory) => Err(AllocError),
        }
    }

    /// Makes the universe that of a plane's states, at generation 0. A new store of the same room is
    /// filled and put in place last: what was there before takes no room, and stays where this is
    /// refused. `StoreFull` is answered only where no store of that room holds the universe that is wanted,
    /// with the squares that stand on its way.
    pub fn load(&mut self, plane: &Plane) -> Result<(), StoreFault>
        requires { HasStatesBelow self.old.rule.states (map_of plane.now) }
        ensures states { OnOk result (AreSameStates (states_of self.new) (states_in_writes (map_of plane.now))) }
        ensures generation { OnOk result (self.new.generation ≡ 0) }
        ensures rule { self.new.rule ≡ self.old.rule }
        ensures room { self.new.store.room ≡ self.old.store.room }
        ensures err { OnErr result (self.new ≡ self.old) }
        ensures full { result ≡ Err StoreFault.StoreFull → IsTooSmallFor self.old.store.room plane.now }
    {
        let kept = self.squares.store();
        let mut store = Store::new(self.alloc, kept.limits());
        let root = universe_of(self.alloc, &mut store, plane)?;
        self.squares = ResultStore::of_store(self.alloc, self.squares.rule(), store);
        self.root = root;
        self.generation = 0;
        Ok(())
    }

    /// Runs the universe so many generations further. First of all `GenRange` is answered, exactly where
    /// the generation would be greater than 2^29. `StoreFull` is answered where the store is full; after
    /// it and after want of memory, cells and generation are as before, and what was computed is kept.
    pub fn run(&mut self, generations: u32) -> Result<(), EngineFault>
        ensures states { OnOk result (AreSameStates (states_of self.new) (at self.old.rule (states_of self.old) generations)) }
        ensures generation { OnOk result (self.new.generation ≡ self.old.generation + generations) }
        ensures since_load { OnOk result ((f : Place → ℕ) → IsEvolutionOf f self.old → IsEvolutionOf f self.new) }
        ensures rule { self.new.rule ≡ self.old.rule }
        ensures room { self.new.store.room ≡ self.old.store.room }
        ensures range { (result ≡ Err EngineFault.GenRange) ↔ (2 ^ 29 < self.old.generation + generations) }
        ensures err { OnErr result (HasSameCells self.old self.new) }
        ensures full { result ≡ Err EngineFault.StoreFull → IsStoreFull self.new.store }
    {
        if generations > LAST - self.generation {
            return Err(EngineFault::GenRange);
        }
        let root = self.squares.run(self.root, generations)?;
        self.root = root;
        self.generation += generations;
        Ok(())
    }

    /// How many generations were run since the last load.
    pub fn generation(&self) -> u32
        ensures { result ≡ self.now.generation }
    {
        self.generation
    }

    /// The cells that are not dead, sorted by `y`, then `x`.
    pub fn cells(&self) -> Result<Vec<Cell>, AllocError>
        ensures cells { IfOk result (λ cells. AreCellsOf (states_of self.now) cells.items) }
        ensures count { IfOk result (λ cells. length cells.items ≡ population_of self.now) }
    {
        let cells = middle_cells(self.alloc, self.squares.store(), self.root)?;
        Ok(cells)
    }

    /// How many cells are not dead. Each square that is in use is looked at once; where memory is refused,
    /// as often as it is come by.
    pub fn population(&self) -> u128
        ensures { result ≡ population_of self.now }
    {
        square_population(self.alloc, self.squares.store(), 30, self.root)
    }

    /// The cells that are not dead in a window, sorted by `y`, then `x`. Squares that the window does not
    /// meet are not gone into. The only error is want of memory.
    pub fn cells_in(&self, window: Window) -> Result<Vec<Cell>, AllocError>
        ensures cells { IfOk result (λ cells. AreCellsOf (seen_where (is_in_window window) (states_of self.now)) cells.items) }
        ensures count { IfOk result (λ cells. length cells.items ≡ population_in window self.now) }
    {
        let region = Region::of_window(window);
        let seen = region_cells(self.alloc, self.squares.store(), self.root, region)?;
        Ok(seen)
    }

    /// How many cells are not dead in a window. Squares that lie in it as a whole are counted as by `population`,
    /// and those that do not meet it are not gone into.
    pub fn population_in(&self, window: Window) -> u128
        ensures { result ≡ population_in window self.now }
    {
        let region = Region::of_window(window);
        region_population(self.alloc, self.squares.store(), self.root, region)
    }

    /// The least window that has all cells that are not dead; `None` where all are. Squares that lie in
    /// what was found already are not gone into, so it costs by the outline of a full pattern and not by its
    /// cells.
    pub fn extent(&self) -> Option<Window>
        ensures { IsExtent (states_of self.now) result }
    {
        let region = extent_of(self.squares.store(), self.root)?;
        Some(region.window())
    }

    /// How many squares the engine stores, of its room. The dead square counts once, whatever its level,
    /// and squares that are no longer in use count until `load`.
    pub fn nodes(&self) -> u32
        ensures { result ≡ length self.now.store.squares }
    {
        let _ = &self.root;
        self.squares.store().len()
    }
    /// What holds of every engine: the root is that of a universe, and each square is stored once.
    pub fn universe_laws(&self)
        ensures engine { IsEngine self.now }
        ensures store { IsStore leaf_grid 8 IsEngineLeaf self.now.store }
    {
        let _ = &self.root;
        self.squares.store().store_laws();
    }
}
