//! Why a keeper's turn publishes nothing.

ghost use Rattle.std.specs.Prelude.{◌≡◌};
ghost use Rattle.board_keeper.specs.Working.{log_fault_of, turn_fault_of};

use kept_log::LogFault;
use relay_board::TurnFault;
use std::error::Error;
use std::fmt;

/// Why a turn of a keeper published nothing. What was taken is kept, and is the next turn's.
#[derive(Clone, Copy, Debug, PartialEq, Eq)]
pub enum KeepFault {
    /// The relay's own store holds as many squares as it has room for. It stays so.
    StoreFull,
    /// The system refused memory, or the list has 2^62 entries.
    Memory,
    /// The file failed: it takes nothing more.
    Write,
}

impl KeepFault {
    ghost use Rattle.board_keeper.specs.Faults.{keep_fault_number, keep_fault_text};

    /// Its number in the table of faults; 255 for want of memory.
    pub fn number(self) -> u8
        ensures { result ≡ keep_fault_number self }
    {
        match self {
            KeepFault::StoreFull => 13,
            KeepFault::Memory => 255,
            KeepFault::Write => 37,
        }
    }

    /// Its name in the table of faults.
    pub fn name(self) -> &'static str
        ensures { result.now ≡ keep_fault_text self }
    {
        match self {
            KeepFault::StoreFull => "StoreFull",
            KeepFault::Memory => "Memory",
            KeepFault::Write => "Write",
        }
    }
}

/// Its name.
impl fmt::Display for KeepFault {
    ghost use Rattle.std.specs.Prelude.{Some};
    ghost use Rattle.board_keeper.specs.Faults.{keep_fault_text};

    ghost output = { λ fault. Some (keep_fault_text fault) };

    fn fmt<W: fmt::Write>(&self, f: &mut fmt::Formatter<W>) -> fmt::Result {
        f.write_str(self.name())
    }
}

impl Error for KeepFault {}

/// Why an entry was not made ready, as a keeper's.
pub(crate) fn turn_fault(fault: TurnFault) -> KeepFault
    ensures { result ≡ turn_fault_of fault }
{
    match fault {
        TurnFault::StoreFull => KeepFault::StoreFull,
        TurnFault::Memory => KeepFault::Memory,
    }
}

/// Why bodies were not committed, as a keeper's.
pub(crate) fn log_fault(fault: LogFault) -> KeepFault
    ensures { result ≡ log_fault_of fault }
{
    match fault {
        LogFault::Memory => KeepFault::Memory,
        LogFault::CutBack => KeepFault::Write,
        LogFault::Doubtful => KeepFault::Write,
        LogFault::Stopped => KeepFault::Write,
        LogFault::Begun => KeepFault::Write,
        LogFault::Unbegun => KeepFault::Write,
    }
}
