//! Why a body is refused.

ghost use Rattle.std.specs.Prelude.{◌≡◌};

use delta_exchange::ReadFault;
use std::alloc::AllocError;
use std::error::Error;
use std::fmt;

/// Why a body tells no edit.
#[derive(Clone, Copy, Debug, PartialEq, Eq)]
pub enum BodyFault {
    /// It is a message of no edit, as a first body is, or of more than one: no document has it there.
    NoDocument,
    /// It is no message of edits under the rule.
    Read(ReadFault),
}

impl BodyFault {
    ghost use Rattle.document_bodies.specs.Faults.{body_fault_number, body_fault_text};

    /// Its number in the table of faults: 42, or that of the message's fault.
    pub fn number(self) -> u8
        ensures { result ≡ body_fault_number self }
    {
        match self {
            BodyFault::NoDocument => 42,
            BodyFault::Read(fault) => fault.number(),
        }
    }

    /// Its name in the table of faults.
    pub fn name(self) -> &'static str
        ensures { result.now ≡ body_fault_text self }
    {
        match self {
            BodyFault::NoDocument => "NoDocument",
            BodyFault::Read(fault) => fault.name(),
        }
    }
}

/// Its name.
impl fmt::Display for BodyFault {
    ghost use Rattle.std.specs.Prelude.{Some};
    ghost use Rattle.document_bodies.specs.Faults.{body_fault_text};

    ghost output = { λ fault. Some (body_fault_text fault) };

    fn fmt<W: fmt::Write>(&self, f: &mut fmt::Formatter<W>) -> fmt::Result {
        f.write_str(self.name())
    }
}

impl Error for BodyFault {}

impl From<AllocError> for BodyFault {
    ghost use Rattle.document_bodies.specs.Reading.{IsWant};

    ghost from_gives = { λ _ fault. IsWant fault };

    fn from(_error: AllocError) -> BodyFault {
        BodyFault::Read(ReadFault::Memory)
    }
}

impl From<ReadFault> for BodyFault {
    ghost use Rattle.std.specs.Prelude.{◌≡◌};
    ghost use Rattle.document_bodies.specs.Reading.{body_fault_of};

    ghost from_gives = { λ read fault. fault ≡ body_fault_of read };

    fn from(fault: ReadFault) -> BodyFault {
        BodyFault::Read(fault)
    }
}
