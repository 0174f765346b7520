//! The plane.

ghost use Rattle.std.specs.Prelude.{◌≡◌, ◌^◌, ◌≤◌, ◌<◌, ◌-◌, ℕ, IsTrue, IfOk, OnErr, Err, false, length};
ghost use Rattle.edit_stamps.specs.Edit.{writes_of};
ghost use Rattle.edit_stamps.specs.Plane.{is_in_plane};
ghost use Rattle.edit_stamps.specs.PlaneMap.{HasStampedWrites, IsGreatestStamp, LiesInPlane, is_plane_write};
ghost use Rattle.stamped_writes.specs.Write.{AreSame, unwritten};
ghost use Rattle.generations_rule.specs.Place.{at_place};
ghost use Rattle.leaf_merge_lanes.specs.Leaf.{write_of};
ghost use Rattle.square_store.specs.Grid.{blank_grid};
ghost use Rattle.square_store.specs.Limits.{usual_room};
ghost use Rattle.square_store.specs.Seen.{IsBlankAt};
ghost use Rattle.square_store.specs.Store.{IsAdded, IsFullFor, IsHeld, IsOnePartEach, IsRoomFor, IsStore};
ghost use Rattle.stamped_tree.specs.LeafKind.{IsPlaneLeaf, plane_grid};
ghost use Rattle.stamped_tree.specs.Plane.{ArePlaneWrites, AreQuarterParts, DrawsPart, HasGrown, HasRoomForPart, IsFullForPart, IsPart, IsPartAdded, IsPlane, StoresRootAlone, grid_of_leaf, map_of, grid_of_parts, rooted};
ghost use Rattle.stamped_tree.specs.MapPieces.{AddsPiecesOfMap, IsFullForMap};
ghost use Rattle.stamped_tree.specs.Overwriting.{overwritten};
ghost use Rattle.stamped_tree.specs.Tree.{OneMap, OneTree};
ghost use Rattle.stamped_tree.specs.Sought.{is_in_some, part_of};
ghost use Rattle.stamped_tree.specs.Walk.{AreNonzeroCells};
ghost use Rattle.stamped_tree.specs.View.{ShowSameWhereSame, ShowsItsTree, square_at};

use crate::copy::copy_square;
use crate::draw::draw_edit;
use crate::leaf_kind::PlaneLeaf;
use crate::lookup;
use crate::sought::Sought;
use crate::square::Square;
use crate::walk::nonzero_cells;
use edit_stamps::{Edit, Rect, Write};
use indexmap::IndexMap;
use keyed_hash::HashKey;
use leaf_merge_lanes::Leaf;
use pattern_cells::Cell;
use square_store::{Limits, Part, Store, StoreFault};
use std::alloc::{AllocError, Global};
use std::marker::Model;

/// The level of a leaf: it has 2^3 columns and rows.
const LEAF_LEVEL: u32 = 3;

/// How many levels the root is above a leaf.
const ROOT_ABOVE_LEAF: u32 = 28;

/// How many columns the root has, and rows.
const ROOT_SIDE: u32 = 0x8000_0000;

/// A map from coordinates to writes: x and y from -2^30 to 2^30 - 1. It is stored as distinct squares,
/// of which one is the root, of level 31: a square of level k has 2^k columns and rows.
pub struct Plane {
    store: Store<PlaneLeaf>,
    root: Part,
    alloc: Global,
}

/// By hand, so that a caller's proof sees one step where a plane is dropped.
impl Drop for Plane {
    fn drop(self) {
        let Plane {
            store: _,
            root: _,
            alloc: _,
        } = self;
    }
}

impl Model for Plane {
    ghost use Rattle.stamped_tree.specs.Plane.{StampedPlane, IsPlane};

    ghost Value = { StampedPlane };

    ghost view = { λ p. record { store = p.store; root = p.root } };

    ghost invariant = { λ p. IsPlane (record { store = p.store; root = p.root }) };
}

impl Plane {
    /// The plane where nothing was written, with room for 2^26 squares.
    pub fn new(alloc: Global) -> Result<Plane, AllocError>
        ensures map { IfOk result (λ plane. AreSame (map_of plane) (λ _. unwritten)) }
        ensures nodes { IfOk result (λ plane. length plane.store.squares ≡ 1) }
        ensures room { IfOk result (λ plane. plane.store.room ≡ usual_room) }
    {
        Plane::within(alloc, Limits::usual())
    }

    /// The plane where nothing was written, with room for so many squares, which it finds by the fixed
    /// key's hashes.
    pub fn with_room(alloc: Global, nodes: u32) -> Result<Plane, AllocError>
        requires { 1 ≤ nodes }
        ensures map { IfOk result (λ plane. AreSame (map_of plane) (λ _. unwritten)) }
        ensures nodes { IfOk result (λ plane. length plane.store.squares ≡ 1) }
        ensures room { IfOk result (λ plane. plane.store.room ≡ nodes) }
    {
        Plane::within(alloc, Limits::of_room(nodes))
    }

    /// The plane where nothing was written, within limits.
    pub fn within(alloc: Global, limits: Limits) -> Result<Plane, AllocError>
        requires { 1 ≤ limits.room }
        ensures map { IfOk result (λ plane. AreSame (map_of plane) (λ _. unwritten)) }
        ensures nodes { IfOk result (λ plane. length plane.store.squares ≡ 1) }
        ensures room { IfOk result (λ plane. plane.store.room ≡ limits.room) }
    {
        let mut store = Store::new(alloc, limits);
        match store.add_blank(0) {
            Ok(root) => Ok(Plane { store, root, alloc }),
            Err(StoreFault::StoreFull) => unreachable!(),
            Err(StoreFault::Memory) => Err(AllocError),
        }
    }

    /// The plane of what an edit writes, with room for 2^32 - 1 squares, which it finds by the fixed key's
    /// hashes. Want of room is answered as want of memory.
    pub fn of_edit(alloc: Global, edit: &Edit) -> Result<Plane, AllocError>
        ensures map { IfOk result (λ plane. AreSame (map_of plane) (writes_of edit.now)) }
        ensures room { IfOk result (λ plane. plane.store.room ≡ 2 ^ 32 - 1) }
    {
        Plane::of_edit_with_key(alloc, edit, HashKey::fixed())
    }

    /// The same, which finds its squares by a key's hashes.
    pub fn of_edit_with_key(alloc: Global, edit: &Edit, key: HashKey) -> Result<Plane, AllocError>
        ensures map { IfOk result (λ plane. AreSame (map_of plane) (writes_of edit.now)) }
        ensures room { IfOk result (λ plane. plane.store.room ≡ 2 ^ 32 - 1) }
    {
        let room = u32::MAX;
        let mut store = Store::new(alloc, Limits { room, key });
        let Ok(unwritten) = store.add_blank(0) else {
            return Err(AllocError);
        };
        let Ok(root) = draw_edit(alloc, &mut store, unwritten, edit) else {
            return Err(AllocError);
        };
        Ok(Plane { store, root, alloc })
    }

    /// The key by whose hashes it finds its squares.
    pub fn key(&self) -> HashKey {
        let _ = &self.root;
        self.store.key()
    }

    /// How many squares the plane stores. A blank counts once for each stamp, whatever its level, and
    /// squares that are no longer in use count until `copy`.
    pub fn nodes(&self) -> u32
        ensures { result ≡ length self.now.store.squares }
    {
        let _ = &self.root;
        self.store.len()
    }

    /// The write at a coordinate; the least write where nothing was written, and outside the plane.
    pub fn get(&self, x: i32, y: i32) -> Write
        ensures value { result ≡ map_of self.now (at_place x y) }
        ensures stamped { HasStampedWrites (map_of self.now) }
    {
        let root = self.root;
        let Some(column) = lookup::from_corner(x) else {
            return Write::UNWRITTEN;
        };
        let Some(row) = lookup::from_corner(y) else {
            return Write::UNWRITTEN;
        };
        lookup::write_in(&self.store, ROOT_ABOVE_LEAF, ROOT_SIDE, root, column, row)
    }

    /// The greatest stamp of a write, 0 where there is none; in constant time.
    pub fn greatest_stamp(&self) -> u64
        ensures greatest { IsGreatestStamp result (map_of self.now) }
        ensures inside { LiesInPlane (map_of self.now) }
    {
        self.store.summary(self.root).greatest
    }

    /// The cells whose state is not 0, sorted by `y`, then `x`.
    pub fn walk(&self) -> Result<Vec<Cell>, AllocError>
        ensures { IfOk result (λ cells. AreNonzeroCells (map_of self.now) cells.items) }
    {
        let cells = nonzero_cells(self.alloc, &self.store, self.root, &Sought::All)?;
        Ok(cells)
    }

    /// Those in some areas, each once, whatever areas have it. Only squares that an area meets are gone through.
    pub fn walk_in(&self, areas: &[Rect]) -> Result<Vec<Cell>, AllocError>
        ensures { IfOk result (λ cells. AreNonzeroCells (part_of (is_in_some areas.now) (map_of self.now)) cells.items) }
    {
        let sought = Sought::InAreas(Vec::from_slice(self.alloc, areas)?);
        let cells = nonzero_cells(self.alloc, &self.store, self.root, &sought)?;
        Ok(cells)
    }

    /// The square of level 31 that is the whole plane, its upper left corner at (-2^30, -2^30).
    pub fn root(&self) -> Square<'_>
        ensures square { result ≡ square_at self.now.store self.now.root }
        ensures level { IsPart self.now.store 31 self.now.root }
    {
        Square::at(&self.store, self.root)
    }

    /// The square at a part that this plane made.
    pub fn square(&self, part: Part) -> Square<'_>
        requires { IsHeld self.now.store part }
        ensures { result ≡ square_at self.now.store part }
    {
        let _ = &self.root;
        Square::at(&self.store, part)
    }

    /// The blank of a stamp, of every level: state 0 at every place, written with the stamp; 0 where
    /// nothing was written.
    pub fn add_blank(&mut self, stamp: u64) -> Result<Part, StoreFault>
        requires { IsTrue (is_plane_write (write_of stamp 0)) }
        ensures draws { IfOk result (λ part. IsBlankAt plane_grid 8 self.new.store stamp part) }
        ensures added { IfOk result (λ part. (k : ℕ) → IsAdded plane_grid 8 self.old.store self.new.store k (blank_grid stamp) part) }
        ensures grows { HasGrown self.old self.new }
        ensures err { OnErr result (self.new ≡ self.old) }
        ensures full { result ≡ Err StoreFault.StoreFull → (k : ℕ) → IsFullFor plane_grid 8 self.old.store k (blank_grid stamp) }
        ensures memory { result ≡ Err StoreFault.Memory → (k : ℕ) → IsRoomFor plane_grid 8 self.old.store k (blank_grid stamp) }
    {
        let _ = &self.root;
        let part = self.store.add_blank(stamp)?;
        Ok(part)
    }

    /// The square of a leaf, of level 3; the blank where the leaf is one.
    pub fn add_leaf(&mut self, leaf: Leaf) -> Result<Part, StoreFault>
        requires { ArePlaneWrites leaf }
        ensures draws { IfOk result (λ part. DrawsPart self.new.store 3 (grid_of_leaf leaf) part) }
        ensures added { IfOk result (λ part. IsPartAdded self.old.store self.new.store 3 (grid_of_leaf leaf) part) }
        ensures grows { HasGrown self.old self.new }
        ensures err { OnErr result (self.new ≡ self.old) }
        ensures full { result ≡ Err StoreFault.StoreFull → IsFullForPart self.old.store 3 (grid_of_leaf leaf) }
        ensures memory { result ≡ Err StoreFault.Memory → HasRoomForPart self.old.store 3 (grid_of_leaf leaf) }
    {
        let _ = &self.root;
        let part = self.store.add_leaf(PlaneLeaf { leaf })?;
        Ok(part)
    }

    /// The square of a level from 4 to 31, of four parts of the level below, NW, NE, SW, SE; the blank
    /// where together they are one.
    pub fn add_four(&mut self, level: u32, parts: [Part; 4]) -> Result<Part, StoreFault>
        requires least { 4 ≤ level }
        requires most { level ≤ 31 }
        requires parts { AreQuarterParts self.old.store level parts }
        ensures draws { IfOk result (λ part. DrawsPart self.new.store level (grid_of_parts self.old.store level parts) part) }
        ensures added { IfOk result (λ part. IsPartAdded self.old.store self.new.store level (grid_of_parts self.old.store level parts) part) }
        ensures grows { HasGrown self.old self.new }
        ensures err { OnErr result (self.new ≡ self.old) }
        ensures full { result ≡ Err StoreFault.StoreFull → IsFullForPart self.old.store level (grid_of_parts self.old.store level parts) }
        ensures memory { result ≡ Err StoreFault.Memory → HasRoomForPart self.old.store level (grid_of_parts self.old.store level parts) }
    {
        let _ = &self.root;
        let part = self.store.add_four(level - LEAF_LEVEL, parts)?;
        Ok(part)
    }

    /// Adds the square of level 31 that a given one becomes where an edit is written over it: were it the
    /// root, each place would read what the edit writes there, and where it writes nothing what the given
    /// square has. No stamps are compared, so this is a join only where the edit's stamp is above those of
    /// the square. The map is as before.
    ///
    /// What is stored is that square and those that it is cut into, and no other; `StoreFull` comes only
    /// where the plane has no room for one of them, and what was added by then is stored until `copy`.
    pub fn add_overwritten(&mut self, root: Part, edit: &Edit) -> Result<Part, StoreFault>
        requires { IsPart self.old.store 31 root }
        ensures part { IfOk result (λ part. IsPart self.new.store 31 part) }
        ensures overwrites { IfOk result (λ part. AreSame (map_of (rooted self.new part)) (overwritten (map_of (rooted self.old root)) (writes_of edit.now))) }
        ensures grows { HasGrown self.old self.new }
        ensures pieces { AddsPiecesOfMap self.old self.new (overwritten (map_of (rooted self.old root)) (writes_of edit.now)) }
        ensures full { result ≡ Err StoreFault.StoreFull → IsFullForMap self.new (overwritten (map_of (rooted self.old root)) (writes_of edit.now)) }
    {
        let _ = &self.root;
        let part = draw_edit(self.alloc, &mut self.store, root, edit)?;
        Ok(part)
    }

    /// Makes a square of level 31 the root: the map becomes its writes.
    pub fn set_root(&mut self, part: Part)
        requires { IsPart self.old.store 31 part }
        ensures { self.new ≡ record { store = self.old.store; root = part } }
    {
        self.root = part;
    }

    /// The same map in a plane of the same room and key, which stores the root, and the squares that the
    /// root is cut into, and no other.
    pub fn copy(&self) -> Result<Plane, AllocError>
        ensures map { IfOk result (λ plane. AreSame (map_of plane) (map_of self.now)) }
        ensures room { IfOk result (λ plane. plane.store.room ≡ self.now.store.room) }
        ensures squares { IfOk result StoresRootAlone }
        ensures nodes { IfOk result (λ plane. length plane.store.squares ≤ length self.now.store.squares) }
    {
        let mut store = Store::new(self.alloc, self.store.limits());
        let mut copies = IndexMap::new(self.alloc);
        let root = copy_square(
            &self.store,
            &mut store,
            &mut copies,
            ROOT_ABOVE_LEAF,
            self.root,
        )?;
        Ok(Plane {
            store,
            root,
            alloc: self.alloc,
        })
    }

    /// What holds of every plane, and of any two. Each square is stored once. The views of a root show
    /// the one tree of the map, so two planes whose maps read the same show the same views at every
    /// level, and two whose maps differ do not.
    pub fn plane_laws(&self, other: &Plane)
        ensures plane { IsPlane self.now }
        ensures store { IsStore plane_grid 8 IsPlaneLeaf self.now.store }
        ensures parts { IsOnePartEach plane_grid 8 self.now.store }
        ensures shows { ShowsItsTree self.now }
        ensures same { ShowSameWhereSame self.now other.now }
        ensures one_tree { OneTree }
        ensures one_map { OneMap }
    {
        let _ = &self.root;
        let _ = &other.root;
        self.store.store_laws();
        other.store.store_laws();
    }
}
