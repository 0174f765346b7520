//! Why no picture is drawn.

ghost use Rattle.std.specs.Prelude.{◌≡◌};

use delta_exchange::ReadFault;
use edit_stamps::EditFault;
use export::ExportFault;
use genedit_io::RunFault;
use header_rules::Misspelling;
use macrocell_text::{ListingFault, MacrocellFault};
use multistate_rle::RleFault;
use std::alloc::AllocError;
use std::error::Error;
use std::fmt;

/// Why no picture is drawn of a text.
#[derive(Clone, Copy, Debug, PartialEq, Eq)]
pub enum ViewFault {
    /// What ends any program that reads a text.
    Run(RunFault),
    /// No rule was given, and the text tells none.
    NoRule,
    /// No rule was given, and what the header tells as one, at this place of the text, spells none; why.
    HeaderRule(u64, Misspelling),
}

impl ViewFault {
    ghost use Rattle.genedit_view.specs.Fault.{view_status, out_of_plane, state_range};

    /// The status with which the program ends.
    pub fn exit_status(self) -> u8
        ensures { result ≡ view_status self }
    {
        match self {
            ViewFault::Run(fault) => fault.exit_status(),
            ViewFault::NoRule | ViewFault::HeaderRule(_, _) => 2,
        }
    }

    /// A coordinate is outside the plane.
    pub(crate) fn out_of_plane() -> ViewFault
        ensures { result ≡ out_of_plane }
    {
        ViewFault::Run(RunFault::Refused(EditFault::OutOfPlane.number(), None))
    }

    /// The rule has no such state.
    pub(crate) fn state_range() -> ViewFault
        ensures { result ≡ state_range }
    {
        ViewFault::Run(RunFault::Refused(EditFault::StateRange.number(), None))
    }
}

/// What the program says of it.
impl fmt::Display for ViewFault {
    ghost use Rattle.std.specs.Prelude.{Some};
    ghost use Rattle.genedit_view.specs.Fault.{view_fault_text};

    ghost output = { λ fault. Some (view_fault_text fault) };

    fn fmt<W: fmt::Write>(&self, f: &mut fmt::Formatter<W>) -> fmt::Result {
        match self {
            ViewFault::Run(fault) => write!(f, "{fault}"),
            ViewFault::NoRule => f.write_str("no rule is told: give one by --rule"),
            ViewFault::HeaderRule(place, Misspelling::Fault(_)) => write!(
                f,
                "no rule at byte {place}: give one by --rule"
            ),
            ViewFault::HeaderRule(place, Misspelling::Other(family)) => {
                let family = family.words();
                write!(f, "the rule at byte {place} is {family}")
            }
        }
    }
}

impl Error for ViewFault {}

impl From<AllocError> for ViewFault {
    ghost use Rattle.std.specs.Prelude.{◌≡◌};
    ghost use Rattle.genedit_view.specs.Fault.{memory_wanted};

    ghost from_gives = { λ _ fault. fault ≡ memory_wanted };

    fn from(_error: AllocError) -> ViewFault {
        ViewFault::Run(RunFault::Memory)
    }
}

impl From<RunFault> for ViewFault {
    ghost use Rattle.std.specs.Prelude.{◌≡◌};
    ghost use Rattle.genedit_view.specs.declared.fault.ViewFault.TheVariants.{Run};

    ghost from_gives = { λ from fault. fault ≡ Run from };

    fn from(fault: RunFault) -> ViewFault {
        ViewFault::Run(fault)
    }
}

impl From<RleFault> for ViewFault {
    ghost use Rattle.std.specs.Prelude.{◌≡◌};
    ghost use Rattle.genedit_view.specs.Fault.{fault_of_pattern};

    ghost from_gives = { λ from fault. fault ≡ fault_of_pattern from };

    fn from(fault: RleFault) -> ViewFault {
        match fault {
            RleFault::Memory => ViewFault::Run(RunFault::Memory),
            refusal => ViewFault::Run(RunFault::Refused(refusal.number(), refusal.place())),
        }
    }
}

impl From<MacrocellFault> for ViewFault {
    ghost use Rattle.std.specs.Prelude.{◌≡◌};
    ghost use Rattle.genedit_view.specs.Fault.{fault_of_macrocell};

    ghost from_gives = { λ from fault. fault ≡ fault_of_macrocell from };

    fn from(fault: MacrocellFault) -> ViewFault {
        match fault {
            MacrocellFault::Memory => ViewFault::Run(RunFault::Memory),
            refusal => ViewFault::Run(RunFault::Refused(refusal.number(), refusal.place())),
        }
    }
}

impl From<ListingFault> for ViewFault {
    ghost use Rattle.std.specs.Prelude.{◌≡◌};
    ghost use Rattle.genedit_view.specs.Fault.{fault_of_listing};

    ghost from_gives = { λ from fault. fault ≡ fault_of_listing from };

    fn from(fault: ListingFault) -> ViewFault {
        match fault {
            ListingFault::Memory => ViewFault::Run(RunFault::Memory),
            refusal => ViewFault::Run(RunFault::Refused(refusal.number(), None)),
        }
    }
}

impl From<ReadFault> for ViewFault {
    ghost use Rattle.std.specs.Prelude.{◌≡◌};
    ghost use Rattle.genedit_view.specs.Fault.{fault_of_state};

    ghost from_gives = { λ from fault. fault ≡ fault_of_state from };

    fn from(fault: ReadFault) -> ViewFault {
        match fault {
            ReadFault::Memory => ViewFault::Run(RunFault::Memory),
            ReadFault::StoreFull => ViewFault::Run(RunFault::StoreFull),
            refusal => ViewFault::Run(RunFault::Refused(refusal.number(), None)),
        }
    }
}

impl From<ExportFault> for ViewFault {
    ghost use Rattle.std.specs.Prelude.{◌≡◌};
    ghost use Rattle.genedit_view.specs.Fault.{fault_of_generation};

    ghost from_gives = { λ from fault. fault ≡ fault_of_generation from };

    fn from(fault: ExportFault) -> ViewFault {
        match fault {
            ExportFault::Memory => ViewFault::Run(RunFault::Memory),
            ExportFault::StoreFull => ViewFault::Run(RunFault::StoreFull),
            refusal => ViewFault::Run(RunFault::Refused(refusal.number(), None)),
        }
    }
}
