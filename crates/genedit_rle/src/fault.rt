//! Why a text has no canonical form under a rule.

ghost use Rattle.std.specs.Prelude.{◌≡◌, MatchOption, None};

use edit_stamps::EditFault;
use genedit_io::RunFault;
use multistate_rle::RleFault;
use std::alloc::AllocError;

/// Why a text has no canonical form under a rule; of several refusals the first of this list is told.
#[derive(Clone, Copy, Debug, PartialEq, Eq)]
pub enum CanonicalFault {
    /// What is wrong with the text.
    Text(RleFault),
    /// A coordinate of a cell has not 32 bits with a sign.
    OutOfPlane,
    /// A state is not below the rule's number of states.
    StateRange,
    /// The system refused memory.
    Memory,
}

impl CanonicalFault {
    ghost use Rattle.std.specs.Prelude.{◌≡◌, MatchOption, None};
    ghost use Rattle.genedit_rle.specs.Fault.{refusal_of};
    ghost use Rattle.genedit_rle.specs.Refusal.{refusal_number, refusal_place};

    /// Its number in the table of faults, the same as an edit's; 255 for want of memory.
    pub fn number(self) -> u8
        ensures { MatchOption (refusal_of self) (result ≡ 255) (λ refusal. result ≡ refusal_number refusal) }
    {
        match self {
            CanonicalFault::Text(fault) => fault.number(),
            CanonicalFault::OutOfPlane => EditFault::OutOfPlane.number(),
            CanonicalFault::StateRange => EditFault::StateRange.number(),
            CanonicalFault::Memory => 255,
        }
    }

    /// The place in the text that it names.
    pub fn place(self) -> Option<u64>
        ensures { MatchOption (refusal_of self) (result ≡ None) (λ refusal. result ≡ refusal_place refusal) }
    {
        match self {
            CanonicalFault::Text(fault) => fault.place(),
            CanonicalFault::OutOfPlane | CanonicalFault::StateRange | CanonicalFault::Memory =>
                None,
        }
    }
}

impl From<RleFault> for CanonicalFault {
    ghost use Rattle.std.specs.Prelude.{◌≡◌};
    ghost use Rattle.genedit_rle.specs.Fault.{refusal_of, text_refusal};

    ghost from_gives = { λ from fault. refusal_of fault ≡ text_refusal from };

    fn from(fault: RleFault) -> CanonicalFault {
        match fault {
            RleFault::Memory => CanonicalFault::Memory,
            refusal => CanonicalFault::Text(refusal),
        }
    }
}

impl From<AllocError> for CanonicalFault {
    ghost use Rattle.std.specs.Prelude.{◌≡◌, None};
    ghost use Rattle.genedit_rle.specs.Fault.{refusal_of};

    ghost from_gives = { λ _ fault. refusal_of fault ≡ None };

    fn from(_want: AllocError) -> CanonicalFault {
        CanonicalFault::Memory
    }
}

impl From<CanonicalFault> for RunFault {
    ghost use Rattle.std.specs.Prelude.{◌≡◌};
    ghost use Rattle.genedit_rle.specs.Fault.{refusal_of, run_fault_of};

    ghost from_gives = { λ from fault. fault ≡ run_fault_of (refusal_of from) };

    fn from(fault: CanonicalFault) -> RunFault {
        match fault {
            CanonicalFault::Memory => RunFault::Memory,
            refusal => RunFault::Refused(refusal.number(), refusal.place()),
        }
    }
}
