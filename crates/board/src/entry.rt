ghost use Rattle.std.specs.Prelude.{◌≡◌, IfOk};

use edit_stamps::Edit;
use std::alloc::AllocError;

/// An entry of the published list: an edit, whose it is, and which of that seat's submissions it was.
#[derive(Drop)]
pub struct Entry {
    /// The seat's place at its board, from 0: its number less 1.
    pub seat: u64,
    /// Which of the seat's accepted submissions it is, from 1; it stays at 2^64 - 1.
    pub number: u64,
    pub edit: Edit,
}

impl Entry {
    /// The same entry. Only its edit's list of cells takes memory.
    pub fn copy(&self) -> Result<Entry, AllocError>
        ensures { IfOk result (λ entry. entry ≡ self.now) }
    {
        let edit = self.edit.copy()?;
        Ok(Entry {
            seat: self.seat,
            number: self.number,
            edit,
        })
    }
}
