//! The edits that a replica drew or was given in messages, in order.

ghost use Rattle.std.specs.Prelude.{◌≡◌, ◌∷◌, [], OnOk, OnErr, Contains, length, take};
ghost use Rattle.std.specs.List.{list_any, IsDistinct};
ghost use Rattle.edit_stamps.specs.Edit.{PlaneEdit, IsEdit, is_edit};
ghost use Rattle.edit_journal.specs.Journal.{noted};

use crate::journal_key::JournalKey;
use edit_stamps::Edit;
use indexmap::IndexSet;
use std::alloc::{AllocError, Global};
use std::marker::Model;

/// A journal is a hash set that keeps the order of insertion, so an edit is found by all that it says
/// at a cost of its own length, however many edits there are, of one stamp too.
#[derive(Debug, Drop)]
pub struct Journal {
    edits: IndexSet<Edit, JournalKey>,
}

impl Model for Journal {
    ghost use Rattle.std.specs.Prelude.{List};
    ghost use Rattle.edit_stamps.specs.Edit.{PlaneEdit};

    ghost Value = { List PlaneEdit };

    ghost view = { λ j. j.edits.keys };
}

impl Journal {
    /// A journal of no edit, with the fixed key 0 and 0: for edits that nobody chose to slow it.
    pub fn new(alloc: Global) -> Journal
        ensures { result ≡ [] }
    {
        Journal::with_key(alloc, 0, 0)
    }

    /// A journal of no edit whose edits are hashed with a key, of two words. Whoever does not know the
    /// key cannot choose edits whose hashes meet, which would make noting slow: where edits come from
    /// outside, it should be drawn at random and kept to oneself. The key has no other effect.
    pub fn with_key(alloc: Global, key0: u64, key1: u64) -> Journal
        ensures { result ≡ [] }
    {
        Journal {
            edits: IndexSet::with_hasher(alloc, JournalKey::of_words(key0, key1)),
        }
    }

    /// The edits, in the order in which they were noted.
    pub fn as_slice(&self) -> &[Edit]
        ensures edits { result.now ≡ self.now }
        ensures once { IsDistinct is_edit self.now }
    {
        self.edits.as_slice()
    }

    /// Whether the edit is in it.
    pub fn contains(&self, edit: &Edit) -> bool
        ensures { result ≡ list_any (is_edit edit.now) self.now }
    {
        self.edits.contains(edit)
    }

    /// Notes edits: adds copies of those that are not in it by then at the end, in order, each once. Where
    /// memory is refused, the journal stays as it was.
    pub fn note(&mut self, edits: &[Edit]) -> Result<(), AllocError>
        ensures ok { OnOk result (self.new ≡ noted self.old edits.now) }
        ensures err { OnErr result (self.new ≡ self.old) }
        ensures edits { OnOk result ((e : PlaneEdit) → Contains edits.now e → IsEdit e) }
    {
        let before = self.edits.len();
        let noted = insert_copies(&mut self.edits, edits);
        if noted.is_err() {
            self.edits.truncate(before);
        }
        noted
    }

    /// Adds an edit at the end, where it is not in the journal. Where memory is refused, the journal
    /// stays as it was.
    pub fn push(&mut self, edit: Edit) -> Result<(), AllocError>
        ensures ok { OnOk result (self.new ≡ noted self.old (edit ∷ [])) }
        ensures err { OnErr result (self.new ≡ self.old) }
    {
        self.edits.insert(edit)?;
        Ok(())
    }
}

/// Inserts a copy of each edit, whether it is there or not: an edit is hashed once, and that takes longer than
/// to copy it. Where memory is refused, edits may have been put behind the first ones.
fn insert_copies(journal: &mut IndexSet<Edit, JournalKey>, edits: &[Edit]) -> Result<(), AllocError>
    ensures ok { OnOk result (journal.new.keys ≡ noted journal.old.keys edits.now) }
    ensures begins { take (length journal.old.keys) journal.new.keys ≡ journal.old.keys }
    ensures edits { OnOk result ((e : PlaneEdit) → Contains edits.now e → IsEdit e) }
{
    for edit in edits {
        // For the proof alone: the call tells that it is an edit.
        let _listed = edit.listed_cells();
        journal.insert(edit.copy()?)?;
    }
    Ok(())
}
