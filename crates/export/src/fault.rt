//! Why a generation is not exported.

ghost use Rattle.std.specs.Prelude.{◌≡◌};

use generation_engine::EngineFault;
use square_store::StoreFault;
use std::alloc::AllocError;
use std::error::Error;
use std::fmt;

/// Why no text was made of a generation.
#[derive(Clone, Copy, Debug, PartialEq, Eq)]
pub enum ExportFault {
    /// The generation is greater than 2^29.
    GenRange,
    /// More cells are not dead then than may be.
    TooManyCells,
    /// The store of the universe that was run holds as many squares as it has room for, and wants one
    /// more.
    StoreFull,
    /// The system refused memory.
    Memory,
}

impl ExportFault {
    ghost use Rattle.export.specs.ExportFault.{export_fault_number, export_fault_text};

    /// Its number in the table of faults; 255 for want of memory.
    pub fn number(self) -> u8
        ensures { result ≡ export_fault_number self }
    {
        match self {
            ExportFault::GenRange => 22,
            ExportFault::TooManyCells => 23,
            ExportFault::StoreFull => 13,
            ExportFault::Memory => 255,
        }
    }

    /// Its name in the table of faults.
    pub fn name(self) -> &'static str
        ensures { result.now ≡ export_fault_text self }
    {
        match self {
            ExportFault::GenRange => "GenRange",
            ExportFault::TooManyCells => "TooManyCells",
            ExportFault::StoreFull => "StoreFull",
            ExportFault::Memory => "Memory",
        }
    }
}

/// Its name.
impl fmt::Display for ExportFault {
    ghost use Rattle.std.specs.Prelude.{Some};
    ghost use Rattle.export.specs.ExportFault.{export_fault_text};

    ghost output = { λ fault. Some (export_fault_text fault) };

    fn fmt<W: fmt::Write>(&self, f: &mut fmt::Formatter<W>) -> fmt::Result {
        f.write_str(self.name())
    }
}

impl Error for ExportFault {}

impl From<EngineFault> for ExportFault {
    ghost use Rattle.std.specs.Prelude.{◌≡◌};
    ghost use Rattle.export.specs.ExportFault.{export_fault_of_engine};

    ghost from_gives = { λ fault export_fault. export_fault ≡ export_fault_of_engine fault };

    fn from(fault: EngineFault) -> ExportFault {
        match fault {
            EngineFault::GenRange => ExportFault::GenRange,
            EngineFault::StoreFull => ExportFault::StoreFull,
            EngineFault::Memory => ExportFault::Memory,
        }
    }
}

impl From<StoreFault> for ExportFault {
    ghost use Rattle.std.specs.Prelude.{◌≡◌};
    ghost use Rattle.export.specs.ExportFault.{export_fault_of_store};

    ghost from_gives = { λ fault export_fault. export_fault ≡ export_fault_of_store fault };

    fn from(fault: StoreFault) -> ExportFault {
        match fault {
            StoreFault::StoreFull => ExportFault::StoreFull,
            StoreFault::Memory => ExportFault::Memory,
        }
    }
}

impl From<AllocError> for ExportFault {
    ghost use Rattle.std.specs.Prelude.{◌≡◌};
    ghost use Rattle.export.specs.declared.fault.ExportFault.TheVariants as faults;

    ghost from_gives = { λ _ fault. fault ≡ faults.Memory };

    fn from(_error: AllocError) -> ExportFault {
        ExportFault::Memory
    }
}
