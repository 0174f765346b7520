//! Why an engine does not run.

ghost use Rattle.std.specs.Prelude.{◌≡◌};

use square_store::StoreFault;
use std::error::Error;
use std::fmt;

/// Why no generation was run. The cells and the generation are as before.
#[derive(Clone, Copy, Debug, PartialEq, Eq)]
pub enum EngineFault {
    /// The generation would be greater than 2^29.
    GenRange,
    /// The store holds as many squares as it has room for, and wants one more.
    StoreFull,
    /// The system refused memory.
    Memory,
}

impl EngineFault {
    ghost use Rattle.generation_engine.specs.EngineFault.{engine_fault_number};

    /// Its number in the table of faults; 255 for want of memory.
    pub fn number(self) -> u8
        ensures { result ≡ engine_fault_number self }
    {
        match self {
            EngineFault::GenRange => 22,
            EngineFault::StoreFull => 13,
            EngineFault::Memory => 255,
        }
    }
}

/// Its name.
impl fmt::Display for EngineFault {
    ghost use Rattle.std.specs.Prelude.{Some};
    ghost use Rattle.generation_engine.specs.EngineFault.{engine_fault_text};

    ghost output = { λ fault. Some (engine_fault_text fault) };

    fn fmt<W: fmt::Write>(&self, f: &mut fmt::Formatter<W>) -> fmt::Result {
        match self {
            EngineFault::GenRange => write!(f, "GenRange"),
            EngineFault::StoreFull => write!(f, "StoreFull"),
            EngineFault::Memory => write!(f, "Memory"),
        }
    }
}

impl Error for EngineFault {}

impl From<StoreFault> for EngineFault {
    ghost use Rattle.std.specs.Prelude.{◌≡◌};
    ghost use Rattle.generation_engine.specs.EngineFault.{engine_fault_of};

    ghost from_gives = { λ fault engine_fault. engine_fault ≡ engine_fault_of fault };

    fn from(fault: StoreFault) -> EngineFault {
        match fault {
            StoreFault::StoreFull => EngineFault::StoreFull,
            StoreFault::Memory => EngineFault::Memory,
        }
    }
}
