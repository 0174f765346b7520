//! Why a drawing ends before its commands do.

ghost use Rattle.std.specs.Prelude.{◌≡◌};

use document_pen::PenFault;
use genedit_io::RunFault;
use std::alloc::AllocError;

/// Why a drawing ends before its commands do.
#[derive(Clone, Copy, Debug, PartialEq, Eq)]
pub enum DrawFault {
    /// What ends any program: input that cannot be read, output that cannot be written, want of memory or of room.
    Run(RunFault),
    /// The file of the document failed.
    File,
    /// The commands are a script's.
    Script,
}

impl From<AllocError> for DrawFault {
    ghost use Rattle.std.specs.Prelude.{◌≡◌};
    ghost use Rattle.genedit_draw.specs.Faults.{memory_wanted};

    ghost from_gives = { λ _ fault. fault ≡ memory_wanted };

    fn from(_error: AllocError) -> DrawFault {
        DrawFault::Run(RunFault::Memory)
    }
}

impl From<RunFault> for DrawFault {
    ghost use Rattle.std.specs.Prelude.{◌≡◌};
    ghost use Rattle.genedit_draw.specs.declared.fault.DrawFault.TheVariants.{Run};

    ghost from_gives = { λ from fault. fault ≡ Run from };

    fn from(fault: RunFault) -> DrawFault {
        DrawFault::Run(fault)
    }
}

impl From<PenFault> for DrawFault {
    ghost use Rattle.std.specs.Prelude.{◌≡◌};
    ghost use Rattle.genedit_draw.specs.Faults.{fault_of_pen};

    ghost from_gives = { λ from fault. fault ≡ fault_of_pen from };

    fn from(fault: PenFault) -> DrawFault {
        match fault {
            PenFault::Memory => DrawFault::Run(RunFault::Memory),
            PenFault::StoreFull => DrawFault::Run(RunFault::StoreFull),
            PenFault::Write => DrawFault::File,
        }
    }
}
