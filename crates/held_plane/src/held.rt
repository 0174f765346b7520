//! A plane that is copied where most of what it stores is no longer in use.

ghost use Rattle.std.specs.Prelude.{◌≡◌, ◌≤◌, ◌↔◌, IfOk, OnErr, OnOk, Err, false};
ghost use Rattle.stamped_writes.specs.Write.{unwritten, AreSame, joined};
ghost use Rattle.stamped_tree.specs.Plane.{IsPart, StoresRootAlone, map_of, rooted};
ghost use Rattle.held_plane.specs.Held.{IsAsBefore, IsJoinedAt, added_writes};
ghost use Rattle.held_plane.specs.Wanted.{IsFullOfNeeds};

use crate::added::{Added, add_to};
use stamped_tree::{Limits, Part, Plane, StoreFault};
use std::alloc::{AllocError, Global};
use std::marker::Model;

/// Below so many squares a plane is never copied.
const FEW: u32 = 4096;

/// How many times the squares of its last copy a plane may store before it is copied again: a copied
/// square costs some three new ones, so that copies take at most a third of the time.
const GROWTH: u32 = 8;

/// A replica's plane. A join leaves the squares of the former root behind, which nothing names; so
/// the plane is replaced by its copy where its squares became eight times as many as in its last copy.
pub struct HeldPlane {
    plane: Plane,
    /// How many squares stood in the last copy.
    copied: u32,
    alloc: Global,
}

/// By hand, so that a caller's proof sees one step where a plane is dropped.
impl Drop for HeldPlane {
    fn drop(self) {
        let HeldPlane {
            plane: _,
            copied: _,
            alloc: _,
        } = self;
    }
}

impl Model for HeldPlane {
    ghost use Rattle.stamped_tree.specs.Plane.{StampedPlane};

    ghost Value = { StampedPlane };

    ghost view = { λ p. p.plane };
}

impl HeldPlane {
    /// The plane where nothing was written, within limits.
    pub fn new(alloc: Global, limits: Limits) -> Result<HeldPlane, AllocError>
        requires { 1 ≤ limits.room }
        ensures map { IfOk result (λ plane. AreSame (map_of plane) (λ _. unwritten)) }
        ensures room { IfOk result (λ plane. plane.store.room ≡ limits.room) }
    {
        let plane = Plane::within(alloc, limits)?;
        Ok(HeldPlane {
            plane,
            copied: 1,
            alloc,
        })
    }

    /// The plane itself.
    pub fn plane(&self) -> &Plane
        ensures { result.now ≡ self.now }
    {
        &self.plane
    }

    /// Joins something: at each coordinate the greater write stands. After an error the map is as it
    /// was. Before it answers that the store is full, it tries a copy.
    pub fn join(&mut self, added: Added<'_>) -> Result<(), StoreFault>
        ensures ok { OnOk result (AreSame (map_of self.new) (joined (map_of self.old) (added_writes added.entry))) }
        ensures err { OnErr result (IsAsBefore self.old self.new) }
        ensures room { self.new.store.room ≡ self.old.store.room }
        ensures full { result ≡ Err StoreFault.StoreFull → IsFullOfNeeds self.old self.new added.entry }
    {
        let part = self.add(added)?;
        let _ = self.set_root(part);
        Ok(())
    }

    /// Adds the square that the root would be if something were joined, and leaves the map as it was.
    /// Before it answers that the store is full, it tries a copy; where that finds no memory, it answers
    /// so.
    pub fn add(&mut self, added: Added<'_>) -> Result<Part, StoreFault>
        ensures joins { IfOk result (IsJoinedAt self.old self.new (added_writes added.entry)) }
        ensures before { IsAsBefore self.old self.new }
        ensures full { result ≡ Err StoreFault.StoreFull → IsFullOfNeeds self.old self.new added.entry }
    {
        match add_to(self.alloc, &mut self.plane, added) {
            Err(StoreFault::StoreFull) => {
                self.put_copy()?;
                add_to(self.alloc, &mut self.plane, added)
            }
            done => done,
        }
    }

    /// Makes a square of level 31 the root, and then copies the plane where most of its squares are no
    /// longer in use; where that finds no memory, the plane stays as it is. Answers whether the map is
    /// another one than before.
    pub fn set_root(&mut self, part: Part) -> bool
        requires { IsPart self.old.store 31 part }
        ensures map { AreSame (map_of self.new) (map_of (rooted self.old part)) }
        ensures room { self.new.store.room ≡ self.old.store.room }
        ensures kept { (result ≡ false) ↔ AreSame (map_of self.new) (map_of self.old) }
    {
        // For the proof alone: the call tells that equal squares are equal parts.
        self.plane.plane_laws(&self.plane);
        let is_another = self.plane.root().part() != part;
        self.plane.set_root(part);
        if self.plane.nodes() > FEW.max(self.copied.saturating_mul(GROWTH)) {
            let _ = self.put_copy();
        }
        is_another
    }

    /// Puts a copy in the plane's place.
    fn put_copy(&mut self) -> Result<(), AllocError>
        ensures before { IsAsBefore self.old self.new }
        ensures squares { OnOk result (StoresRootAlone self.new) }
        ensures err { OnErr result (self.new ≡ self.old) }
    {
        let copy = self.plane.copy()?;
        self.copied = copy.nodes();
        self.plane = copy;
        Ok(())
    }
}
