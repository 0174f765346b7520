//! The last edits of a list.
ghost use Rattle.std.specs.Prelude.{◌≡◌, ◌≤◌, ◌++◌, ◌∷◌, [], length, drop, IfOk, OnErr};
ghost use Rattle.circular_buffer.specs.Buffer.{keep_last};

use circular_buffer::HeapCircularBuffer;
use edit_stamps::Edit;
use std::alloc::{AllocError, Global};
use std::marker::Model;

/// How many of the last edits a board keeps, at most.
pub const KEPT: usize = 1024;

/// The last 1,024 edits of a list, or all of them where it has fewer.
pub struct LastEdits {
    ring: HeapCircularBuffer<Edit>,
}

impl Drop for LastEdits {
    fn drop(self) {
        let LastEdits { ring: _ } = self;
    }
}

impl Model for LastEdits {
    ghost use Rattle.std.specs.Prelude.{◌≡◌, List};
    ghost use Rattle.edit_stamps.specs.Edit.{PlaneEdit};

    ghost Value = { List PlaneEdit };

    ghost view = { λ l. l.ring.items };

    ghost invariant = { λ l. l.ring.capacity ≡ 1024 };
}

impl LastEdits {
    /// No edits, with all the room that it will want.
    pub fn new(alloc: Global) -> Result<LastEdits, AllocError>
        ensures { IfOk result (λ l. l ≡ []) }
    {
        let ring = HeapCircularBuffer::with_capacity(alloc, KEPT)?;
        Ok(LastEdits { ring })
    }

    /// Adds an edit at the end. Where 1,024 are kept, the first goes.
    pub fn push(&mut self, edit: Edit)
        ensures { self.new ≡ keep_last 1024 (self.old ++ edit ∷ []) }
    {
        let _ = self.ring.push_back(edit);
    }

    /// How many edits are kept.
    pub fn len(&self) -> usize
        ensures length { result ≡ length self.now }
        ensures within { result ≤ 1024 }
    {
        self.ring.len()
    }

    /// Copies of the edits from a place on.
    pub fn copies(&self, alloc: Global, from: usize) -> Result<Vec<Edit>, AllocError>
        requires { from ≤ length self.now }
        ensures { IfOk result (λ v. v.items ≡ drop from self.now) }
    {
        copied(alloc, &self.ring, from)
    }
}

/// Copies of a ring's edits from a place on.
fn copied(
    alloc: Global,
    ring: &HeapCircularBuffer<Edit>,
    from: usize,
) -> Result<Vec<Edit>, AllocError>
    requires { from ≤ length ring.now.items }
    ensures { IfOk result (λ v. v.items ≡ drop from ring.now.items) }
{
    let mut edits = Vec::new(alloc);
    for k in from..ring.len() {
        let Some(edit) = ring.get(k) else {
            unreachable!()
        };
        edits.push(edit.copy()?)?;
    }
    Ok(edits)
}
