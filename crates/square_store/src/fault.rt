//! Why a store does not grow.

ghost use Rattle.std.specs.Prelude.{◌≡◌};

use std::alloc::{AllocError, AllocFailed};
use std::error::Error;
use std::fmt;

/// Why a square was not added. The store is as it was.
#[derive(Clone, Copy, Debug, PartialEq, Eq)]
pub enum StoreFault {
    /// The store holds as many squares as it has room for, and the square is not one of them.
    StoreFull,
    /// The system refused memory.
    Memory,
}

impl StoreFault {
    ghost use Rattle.square_store.specs.StoreFault.{store_fault_number};

    /// Its number in the table of faults; 255 for want of memory.
    pub fn number(self) -> u8
        ensures { result ≡ store_fault_number self }
    {
        match self {
            StoreFault::StoreFull => 13,
            StoreFault::Memory => 255,
        }
    }
}

/// Its name.
impl fmt::Display for StoreFault {
    ghost use Rattle.std.specs.Prelude.{Some};
    ghost use Rattle.square_store.specs.StoreFault.{store_fault_text};

    ghost output = { λ fault. Some (store_fault_text fault) };

    fn fmt<W: fmt::Write>(&self, f: &mut fmt::Formatter<W>) -> fmt::Result {
        match self {
            StoreFault::StoreFull => write!(f, "StoreFull"),
            StoreFault::Memory => write!(f, "Memory"),
        }
    }
}

impl Error for StoreFault {}

impl From<AllocError> for StoreFault {
    ghost use Rattle.std.specs.Prelude.{◌≡◌};
    ghost use Rattle.square_store.specs.declared.fault.StoreFault.TheVariants.{Memory};

    ghost from_gives = { λ _ fault. fault ≡ Memory };

    fn from(_error: AllocError) -> StoreFault {
        StoreFault::Memory
    }
}
