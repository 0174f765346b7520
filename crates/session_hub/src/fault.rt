//! Why a hub does not do what it is asked.

ghost use Rattle.std.specs.Prelude.{◌≡◌};

use std::alloc::{AllocError, AllocFailed};
use std::error::Error;
use std::fmt;

/// Why a hub does not do what it is asked.
#[derive(Clone, Copy, Debug, PartialEq, Eq)]
pub enum HubFault {
    /// The edit's stamp is of another replica.
    NotYours,
    /// A state is not below the rule's number of states.
    StateRange,
    /// The board is kept in a file, and the stamp is not above the last of its replica.
    OldStamp,
    /// What takes edits is full.
    Full,
    /// What takes or shows edits is closed.
    Closed,
    /// A store of squares is full.
    StoreFull,
    /// The system refused memory.
    Memory,
}

impl HubFault {
    ghost use Rattle.session_hub.specs.HubFault.{hub_fault_number, hub_fault_text};

    /// Its number in the table of faults; 255 for want of memory.
    pub fn number(self) -> u8
        ensures { result ≡ hub_fault_number self }
    {
        match self {
            HubFault::NotYours => 28,
            HubFault::StateRange => 11,
            HubFault::OldStamp => 40,
            HubFault::Full => 29,
            HubFault::Closed => 30,
            HubFault::StoreFull => 13,
            HubFault::Memory => 255,
        }
    }

    /// Its name in the table of faults.
    pub fn name(self) -> &'static str
        ensures { result.now ≡ hub_fault_text self }
    {
        match self {
            HubFault::NotYours => "NotYours",
            HubFault::StateRange => "StateRange",
            HubFault::OldStamp => "OldStamp",
            HubFault::Full => "Full",
            HubFault::Closed => "Closed",
            HubFault::StoreFull => "StoreFull",
            HubFault::Memory => "Memory",
        }
    }
}

/// Its name.
impl fmt::Display for HubFault {
    ghost use Rattle.std.specs.Prelude.{Some};
    ghost use Rattle.session_hub.specs.HubFault.{hub_fault_text};

    ghost output = { λ fault. Some (hub_fault_text fault) };

    fn fmt<W: fmt::Write>(&self, f: &mut fmt::Formatter<W>) -> fmt::Result {
        f.write_str(self.name())
    }
}

impl Error for HubFault {}

impl From<AllocError> for HubFault {
    ghost use Rattle.std.specs.Prelude.{◌≡◌};
    ghost use Rattle.session_hub.specs.declared.fault.HubFault.TheVariants.{Memory};

    ghost from_gives = { λ _ fault. fault ≡ Memory };

    fn from(_error: AllocError) -> HubFault {
        HubFault::Memory
    }
}

impl<T: Drop> From<AllocFailed<T>> for HubFault {
    ghost use Rattle.std.specs.Prelude.{◌≡◌};
    ghost use Rattle.session_hub.specs.declared.fault.HubFault.TheVariants.{Memory};

    ghost from_gives = { λ _ fault. fault ≡ Memory };

    fn from(_failed: AllocFailed<T>) -> HubFault {
        HubFault::Memory
    }
}
