//! Why a macrocell is no universe.

ghost use Rattle.std.specs.Prelude.{◌≡◌};

use square_store::StoreFault;
use std::alloc::AllocError;
use std::error::Error;
use std::fmt;

/// Why a macrocell is no universe under a rule; the first that holds is told, but `Memory` wherever it was refused.
#[derive(Clone, Copy, Debug, PartialEq, Eq)]
pub enum UniverseFault {
    /// A cell that is not dead lies outside the plane of edits, x and y from -2^30 to 2^30 - 1.
    OutOfPlane,
    /// A state is not below the rule's number of states.
    StateRange,
    /// The store has not as much room as distinct squares are wanted.
    StoreFull,
    /// Memory was refused.
    Memory,
}

impl UniverseFault {
    ghost use Rattle.macrocell_universes.specs.UniverseFault.{universe_fault_number};

    /// Its number in the table of faults; 255 for want of memory.
    pub fn number(self) -> u8
        ensures { result ≡ universe_fault_number self }
    {
        match self {
            UniverseFault::OutOfPlane => 10,
            UniverseFault::StateRange => 11,
            UniverseFault::StoreFull => 13,
            UniverseFault::Memory => 255,
        }
    }
}

/// Its name.
impl fmt::Display for UniverseFault {
    ghost use Rattle.std.specs.Prelude.{Some};
    ghost use Rattle.macrocell_universes.specs.UniverseFault.{universe_fault_text};

    ghost output = { λ fault. Some (universe_fault_text fault) };

    fn fmt<W: fmt::Write>(&self, f: &mut fmt::Formatter<W>) -> fmt::Result {
        match self {
            UniverseFault::OutOfPlane => f.write_str("OutOfPlane"),
            UniverseFault::StateRange => f.write_str("StateRange"),
            UniverseFault::StoreFull => f.write_str("StoreFull"),
            UniverseFault::Memory => f.write_str("Memory"),
        }
    }
}

impl Error for UniverseFault {}

impl From<StoreFault> for UniverseFault {
    ghost use Rattle.std.specs.Prelude.{◌≡◌};
    ghost use Rattle.macrocell_universes.specs.UniverseFault.{universe_fault_of};

    ghost from_gives = { λ fault universe_fault. universe_fault ≡ universe_fault_of fault };

    fn from(fault: StoreFault) -> UniverseFault {
        match fault {
            StoreFault::StoreFull => UniverseFault::StoreFull,
            StoreFault::Memory => UniverseFault::Memory,
        }
    }
}

impl From<AllocError> for UniverseFault {
    ghost use Rattle.std.specs.Prelude.{◌≡◌};
    ghost use Rattle.macrocell_universes.specs.declared.fault.UniverseFault.TheVariants.{Memory};

    ghost from_gives = { λ want fault. fault ≡ Memory };

    fn from(_want: AllocError) -> UniverseFault {
        UniverseFault::Memory
    }
}
