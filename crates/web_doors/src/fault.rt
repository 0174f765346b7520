//! Why a visitor was not answered.

use devices::Failed;
use std::alloc::AllocError;

/// Why a visitor was not answered. The connection is closed then.
#[derive(Clone, Copy, Debug, PartialEq, Eq)]
pub enum VisitFault {
    /// There was no memory for the answer. Nothing was said.
    Memory,
    /// What is asked for could not be heard: the connection failed, its time was over, or there was no memory for the
    /// head. Nothing was said.
    Unheard,
    /// The answer could not be said: the connection failed. A part of it was said at most.
    Untold,
}

impl From<AllocError> for VisitFault {
    ghost use Rattle.std.specs.Prelude.{◌≡◌};
    ghost use Rattle.web_doors.specs.declared.fault.VisitFault.TheVariants.{Memory};

    ghost from_gives = { λ _ fault. fault ≡ Memory };

    fn from(_error: AllocError) -> VisitFault {
        VisitFault::Memory
    }
}

impl From<Failed> for VisitFault {
    ghost use Rattle.std.specs.Prelude.{◌≡◌};
    ghost use Rattle.web_doors.specs.declared.fault.VisitFault.TheVariants.{Untold};

    ghost from_gives = { λ _ fault. fault ≡ Untold };

    fn from(_failed: Failed) -> VisitFault {
        VisitFault::Untold
    }
}
