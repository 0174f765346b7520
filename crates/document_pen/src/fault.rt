//! Why a pen draws no more.

ghost use Rattle.std.specs.Prelude.{◌≡◌};

use replica_core::Stop;
use std::alloc::{AllocError, AllocFailed};

/// Why a pen draws no more.
#[derive(Clone, Copy, Debug, PartialEq, Eq)]
pub enum PenFault {
    /// The system refused memory.
    Memory,
    /// A store of squares is full: of the replica, of a universe that was run, or of a saved board's plane.
    StoreFull,
    /// The file failed, or had failed before: it takes nothing more.
    Write,
}

impl From<AllocError> for PenFault {
    ghost use Rattle.std.specs.Prelude.{◌≡◌};
    ghost use Rattle.document_pen.specs.declared.fault.PenFault.TheVariants.{Memory};

    ghost from_gives = { λ _ fault. fault ≡ Memory };

    fn from(_error: AllocError) -> PenFault {
        PenFault::Memory
    }
}

impl From<Stop> for PenFault {
    ghost use Rattle.std.specs.Prelude.{◌≡◌};
    ghost use Rattle.document_pen.specs.Exporting.{fault_of_stop};

    ghost from_gives = { λ stop fault. fault ≡ fault_of_stop stop };

    fn from(stop: Stop) -> PenFault {
        match stop {
            Stop::Memory => PenFault::Memory,
            Stop::StoreFull => PenFault::StoreFull,
        }
    }
}
