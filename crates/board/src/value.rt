//! The board: what is kept of the published list. Two copies of it lie behind the readers.

ghost use Rattle.std.specs.Prelude.{◌≡◌, ◌≤◌, ◌∷◌, ◌++◌, [], length, true, IfOk};
ghost use Rattle.edit_stamps.specs.Edit.{greatest, has_states_below};
ghost use Rattle.generations_rule.specs.Place.{at_place};
ghost use Rattle.stamped_writes.specs.Write.{AreSame};
ghost use Rattle.stamped_tree.specs.Plane.{map_of};
ghost use Rattle.board.specs.Entries.{edits_of, last_of};
ghost use Rattle.board.specs.Handing.{IsNews};

use crate::entry::Entry;
use crate::front::Front;
use crate::history::{History, Prefix};
use crate::last::LastEdits;
use edit_stamps::{Edit, EditList, Write};
use held_plane::{Added, HeldPlane};
use keyed_hash::HashKey;
use left_right::Absorb;
use poll_news::News;
use stamped_tree::{Limits, Plane};
use std::alloc::{AllocError, Global};
use std::marker::Model;
use std::slice;

/// The plane of a list of entries, the list's last edits, and the published front that is that list.
///
/// A copy of the board cannot know the published history when it takes an entry in, so it keeps a history
/// of its own, of what it took in: for that list its plane and its last edits stand.
pub struct Board {
    plane: HeldPlane,
    last: LastEdits,
    own: History,
    prefix: Prefix,
    front: Front,
}

impl Drop for Board {
    fn drop(self) {
        let Board {
            plane: _,
            last: _,
            own: _,
            prefix: _,
            front: _,
        } = self;
    }
}

impl Model for Board {
    ghost use Rattle.board.specs.Showing.{Showing};

    ghost Value = { Showing };

    ghost use Rattle.board.specs.Boards.{shown_by, IsBoard};

    ghost view = { shown_by };

    ghost invariant = { IsBoard };
}

/// An entry, and the front once it is published.
#[derive(Drop)]
pub struct Publication {
    pub entry: Entry,
    pub front: Front,
}

impl Absorb<Publication> for Board {
    ghost use Rattle.board.specs.Content.{published};

    type State = Board;

    ghost state = { λ b. b };

    ghost applied = { published };

    /// All that may be refused is done before anything changes. A plane of 2^32 - 1 squares is out of memory.
    fn absorb_first(&mut self, operation: &Publication, _other: &Board) -> Result<(), AllocError> {
        let edit = operation.entry.edit.copy()?;
        let added = Added::Edits(slice::from_ref(&operation.entry.edit));
        let Ok(part) = self.plane.add(added) else {
            return Err(AllocError);
        };
        let Ok(()) = self.own.add(&mut self.prefix, &operation.entry) else {
            return Err(AllocError);
        };
        let _ = self.plane.set_root(part);
        self.last.push(edit);
        self.front = operation.front.again();
        Ok(())
    }
}

impl Board {
    /// The board of an empty list, under a front, whose plane finds its squares by a key's hashes.
    pub fn new(alloc: Global, front: Front, key: HashKey) -> Result<Board, AllocError>
        ensures list { IfOk result (λ b. b.list ≡ []) }
        ensures front { IfOk result (λ b. (b.log ≡ front.prefix.seen.log) × (b.origin.book ≡ front.prefix.seen.book) × (b.origin.states ≡ front.states)) }
    {
        let room = u32::MAX;
        let (own, prefix) = History::new();
        Ok(Board {
            plane: HeldPlane::new(alloc, Limits { room, key })?,
            last: LastEdits::new(alloc)?,
            own,
            prefix,
            front,
        })
    }

    /// The front that is the list.
    pub fn front(&self) -> Front
        ensures { (result.prefix.seen.log ≡ self.now.log) × (result.prefix.seen.book ≡ self.now.origin.book) × (result.states ≡ self.now.origin.states) }
    {
        self.front.again()
    }

    /// How many entries the list has.
    pub fn len(&self) -> u64
        ensures { result ≡ length self.now.list }
    {
        self.prefix.len()
    }

    /// The greatest write of the list's edits at a coordinate.
    pub fn get(&self, x: i32, y: i32) -> Write
        ensures { result ≡ greatest (edits_of self.now.list) (at_place x y) }
    {
        self.plane.plane().get(x, y)
    }

    /// A copy of the list's plane.
    pub fn copy_plane(&self) -> Result<Plane, AllocError>
        ensures { IfOk result (λ plane. AreSame (map_of plane) (greatest (edits_of self.now.list))) }
    {
        let plane = self.plane.plane().copy()?;
        Ok(plane)
    }

    /// Copies of the list's last edits.
    pub fn last(&self, alloc: Global) -> Result<EditList, AllocError>
        ensures { IfOk result (λ edits. edits ≡ last_of (edits_of self.now.list)) }
    {
        let edits = self.last.copies(alloc, 0)?;
        Ok(EditList::of_vec(edits))
    }

    /// Copies of the edits that follow so many of the list, or of the plane where some of these are no longer
    /// kept.
    pub fn news(&self, alloc: Global, handed: u64) -> Result<News, AllocError>
        requires { handed ≤ length self.now.list }
        ensures { IfOk result (λ news. IsNews (edits_of self.now.list) handed news) }
    {
        let count = self.prefix.len();
        let before = count - self.last.len() as u64;
        if handed < before {
            let plane = self.plane.plane().copy()?;
            return Ok(News::Whole(plane, count));
        }
        let edits = self.last.copies(alloc, (handed - before) as usize)?;
        Ok(News::Edits(EditList::of_vec(edits)))
    }
}
