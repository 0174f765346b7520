//! Why a call of a seat or of a relay is refused.

ghost use Rattle.std.specs.Prelude.{◌≡◌, ◌≢◌};
ghost use Rattle.relay_board.specs.FaultsOf.{turn_fault_of, finish_fault_of};

use stamped_tree::StoreFault;
use std::alloc::{AllocError, AllocFailed};
use std::error::Error;
use std::fmt;

/// The relay was dropped, and no receipt came before. Its number in the table of faults is that of
/// `Closed`, 30.
#[derive(Clone, Copy, Debug, PartialEq, Eq)]
pub struct Gone;

/// Why an edit is not submitted. It is handed back, and nothing was put.
#[derive(Clone, Copy, Debug, PartialEq, Eq)]
pub enum SubmitFault {
    /// The stamp's replica is not the seat's number.
    NotYours,
    /// A listed state is not below the rule's number of states.
    StateRange,
    /// The board is kept in a file, and the stamp is not above the last of the seat's.
    OldStamp,
    /// The relay takes no submission any more: `close` was called, or it was dropped.
    Closed,
    /// The system refused memory.
    Memory,
    /// The inbox was full at one moment of the call.
    Full,
}

impl SubmitFault {
    ghost use Rattle.relay_board.specs.Faults.{submit_fault_number, submit_fault_text};

    /// Its number in the table of faults; 255 for want of memory.
    pub fn number(self) -> u8
        ensures { result ≡ submit_fault_number self }
    {
        match self {
            SubmitFault::NotYours => 28,
            SubmitFault::StateRange => 11,
            SubmitFault::OldStamp => 40,
            SubmitFault::Closed => 30,
            SubmitFault::Memory => 255,
            SubmitFault::Full => 29,
        }
    }

    /// Its name in the table of faults.
    pub fn name(self) -> &'static str
        ensures { result.now ≡ submit_fault_text self }
    {
        match self {
            SubmitFault::NotYours => "NotYours",
            SubmitFault::StateRange => "StateRange",
            SubmitFault::OldStamp => "OldStamp",
            SubmitFault::Closed => "Closed",
            SubmitFault::Memory => "Memory",
            SubmitFault::Full => "Full",
        }
    }
}

/// Its name.
impl fmt::Display for SubmitFault {
    ghost use Rattle.std.specs.Prelude.{Some};
    ghost use Rattle.relay_board.specs.Faults.{submit_fault_text};

    ghost output = { λ fault. Some (submit_fault_text fault) };

    fn fmt<W: fmt::Write>(&self, f: &mut fmt::Formatter<W>) -> fmt::Result {
        f.write_str(self.name())
    }
}

impl Error for SubmitFault {}

/// Why a turn did not publish what it took. The entry is kept, and is the next turn's.
#[derive(Clone, Copy, Debug, PartialEq, Eq)]
pub enum TurnFault {
    /// The relay's own store holds as many squares as it has room for. It stays so.
    StoreFull,
    /// The system refused memory, or the list has 2^62 entries.
    Memory,
}

impl TurnFault {
    ghost use Rattle.relay_board.specs.Faults.{turn_fault_number, turn_fault_text};

    /// Its number in the table of faults; 255 for want of memory.
    pub fn number(self) -> u8
        ensures { result ≡ turn_fault_number self }
    {
        match self {
            TurnFault::StoreFull => 13,
            TurnFault::Memory => 255,
        }
    }

    /// Its name in the table of faults.
    pub fn name(self) -> &'static str
        ensures { result.now ≡ turn_fault_text self }
    {
        match self {
            TurnFault::StoreFull => "StoreFull",
            TurnFault::Memory => "Memory",
        }
    }
}

/// Its name.
impl fmt::Display for TurnFault {
    ghost use Rattle.std.specs.Prelude.{Some};
    ghost use Rattle.relay_board.specs.Faults.{turn_fault_text};

    ghost output = { λ fault. Some (turn_fault_text fault) };

    fn fmt<W: fmt::Write>(&self, f: &mut fmt::Formatter<W>) -> fmt::Result {
        f.write_str(self.name())
    }
}

impl Error for TurnFault {}

/// Why a board does not start.
#[derive(Clone, Copy, Debug, PartialEq, Eq)]
pub enum StartFault {
    /// Sessions are not 1 to 64, or their numbers are not 1 to 65,535, or the inbox's room is not 1 to 1,024.
    Size,
    /// `left_right` gave no reader's place. It does not tell want of memory apart.
    NoPlace,
    /// The system refused memory.
    Memory,
}

impl StartFault {
    ghost use Rattle.relay_board.specs.Faults.{start_fault_number, start_fault_text};

    /// Its number in the table of faults; 255 for want of memory.
    pub fn number(self) -> u8
        ensures { result ≡ start_fault_number self }
    {
        match self {
            StartFault::Size => 32,
            StartFault::NoPlace => 31,
            StartFault::Memory => 255,
        }
    }

    /// Its name in the table of faults.
    pub fn name(self) -> &'static str
        ensures { result.now ≡ start_fault_text self }
    {
        match self {
            StartFault::Size => "Size",
            StartFault::NoPlace => "NoPlace",
            StartFault::Memory => "Memory",
        }
    }
}

/// Its name.
impl fmt::Display for StartFault {
    ghost use Rattle.std.specs.Prelude.{Some};
    ghost use Rattle.relay_board.specs.Faults.{start_fault_text};

    ghost output = { λ fault. Some (start_fault_text fault) };

    fn fmt<W: fmt::Write>(&self, f: &mut fmt::Formatter<W>) -> fmt::Result {
        f.write_str(self.name())
    }
}

impl Error for StartFault {}

impl From<AllocError> for StartFault {
    ghost use Rattle.std.specs.Prelude.{◌≡◌};
    ghost use Rattle.relay_board.specs.declared.fault.StartFault.TheVariants as faults;

    ghost from_gives = { λ _ fault. fault ≡ faults.Memory };

    fn from(_error: AllocError) -> StartFault {
        StartFault::Memory
    }
}

impl<T: Drop> From<AllocFailed<T>> for StartFault {
    ghost use Rattle.std.specs.Prelude.{◌≡◌};
    ghost use Rattle.relay_board.specs.declared.fault.StartFault.TheVariants as faults;

    ghost from_gives = { λ _ fault. fault ≡ faults.Memory };

    fn from(_error: AllocFailed<T>) -> StartFault {
        StartFault::Memory
    }
}

/// Why a relay did not finish. It comes back with its seats, and may be asked again.
#[derive(Clone, Copy, Debug, PartialEq, Eq)]
pub enum FinishFault {
    /// A seat had seen more than was published: it got no entry to the final list. No seat does while its board
    /// is the relay's.
    Closed,
    /// The relay's own store holds as many squares as it has room for. It stays so.
    StoreFull,
    /// The system refused memory, or the list has 2^62 entries.
    Memory,
}

impl FinishFault {
    ghost use Rattle.relay_board.specs.Faults.{finish_fault_number, finish_fault_text};

    /// Its number in the table of faults; 255 for want of memory.
    pub fn number(self) -> u8
        ensures { result ≡ finish_fault_number self }
    {
        match self {
            FinishFault::Closed => 30,
            FinishFault::StoreFull => 13,
            FinishFault::Memory => 255,
        }
    }

    /// Its name in the table of faults.
    pub fn name(self) -> &'static str
        ensures { result.now ≡ finish_fault_text self }
    {
        match self {
            FinishFault::Closed => "Closed",
            FinishFault::StoreFull => "StoreFull",
            FinishFault::Memory => "Memory",
        }
    }
}

/// Its name.
impl fmt::Display for FinishFault {
    ghost use Rattle.std.specs.Prelude.{Some};
    ghost use Rattle.relay_board.specs.Faults.{finish_fault_text};

    ghost output = { λ fault. Some (finish_fault_text fault) };

    fn fmt<W: fmt::Write>(&self, f: &mut fmt::Formatter<W>) -> fmt::Result {
        f.write_str(self.name())
    }
}

impl Error for FinishFault {}

/// The refusal of the store, as a turn's.
pub(crate) fn turn_fault(fault: StoreFault) -> TurnFault
    ensures { result ≡ turn_fault_of fault }
{
    match fault {
        StoreFault::StoreFull => TurnFault::StoreFull,
        StoreFault::Memory => TurnFault::Memory,
    }
}

/// The refusal of a turn, as a finish's.
pub(crate) fn finish_fault(fault: TurnFault) -> FinishFault
    ensures value { result ≡ finish_fault_of fault }
    ensures not_closed { result ≢ FinishFault.Closed }
{
    match fault {
        TurnFault::StoreFull => FinishFault::StoreFull,
        TurnFault::Memory => FinishFault::Memory,
    }
}
