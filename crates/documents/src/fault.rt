//! Why a document is refused.

ghost use Rattle.std.specs.Prelude.{◌≡◌};

use document_bodies::BodyFault;
use edit_stamps::Stamp;
use std::alloc::{AllocError, AllocFailed};
use std::error::Error;
use std::fmt;

/// Why there is no document, or none more.
#[derive(Clone, Copy, Debug, PartialEq, Eq)]
pub enum DocumentFault {
    /// An edit has a state that is not below the rule's number of states.
    StateRange,
    /// Two documents are under different rules.
    OtherRule,
    /// Two different edits have this stamp, and no lesser one.
    SameStamp(Stamp),
    /// The bytes do not begin with a record that names a rule.
    NoDocument,
    /// A record tells no edit under the rule: why, and its place, counted from 1, among the records behind
    /// the first, or among all that were found where they are gathered.
    Body(BodyFault, usize),
    /// The system refused memory.
    Memory,
}

impl DocumentFault {
    ghost use Rattle.documents.specs.Faults.{document_fault_number, document_fault_text};

    /// Its number in the table of faults; 255 for want of memory.
    pub fn number(self) -> u8
        ensures { result ≡ document_fault_number self }
    {
        match self {
            DocumentFault::StateRange => 11,
            DocumentFault::OtherRule => 16,
            DocumentFault::SameStamp(_) => 41,
            DocumentFault::NoDocument => 42,
            DocumentFault::Body(fault, _) => fault.number(),
            DocumentFault::Memory => 255,
        }
    }

    /// Its name in the table of faults.
    pub fn name(self) -> &'static str
        ensures { result.now ≡ document_fault_text self }
    {
        match self {
            DocumentFault::StateRange => "StateRange",
            DocumentFault::OtherRule => "OtherRule",
            DocumentFault::SameStamp(_) => "SameStamp",
            DocumentFault::NoDocument => "NoDocument",
            DocumentFault::Body(fault, _) => fault.name(),
            DocumentFault::Memory => "Memory",
        }
    }
}

/// Its name.
impl fmt::Display for DocumentFault {
    ghost use Rattle.std.specs.Prelude.{Some};
    ghost use Rattle.documents.specs.Faults.{document_fault_text};

    ghost output = { λ fault. Some (document_fault_text fault) };

    fn fmt<W: fmt::Write>(&self, f: &mut fmt::Formatter<W>) -> fmt::Result {
        f.write_str(self.name())
    }
}

impl Error for DocumentFault {}

impl From<AllocError> for DocumentFault {
    ghost use Rattle.std.specs.Prelude.{◌≡◌};
    ghost use Rattle.documents.specs.declared.fault.DocumentFault.TheVariants.{Memory};

    ghost from_gives = { λ _ fault. fault ≡ Memory };

    fn from(_error: AllocError) -> DocumentFault {
        DocumentFault::Memory
    }
}

impl<T: Drop> From<AllocFailed<T>> for DocumentFault {
    ghost use Rattle.std.specs.Prelude.{◌≡◌};
    ghost use Rattle.documents.specs.declared.fault.DocumentFault.TheVariants.{Memory};

    ghost from_gives = { λ _ fault. fault ≡ Memory };

    fn from(_failed: AllocFailed<T>) -> DocumentFault {
        DocumentFault::Memory
    }
}
