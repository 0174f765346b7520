//! Why a service ends otherwise than by its last reply or the end of its input.

ghost use Rattle.std.specs.Prelude.{◌≡◌};

use std::alloc::AllocError;
use std::error::Error;
use std::fmt;

/// Why a service ends otherwise than by its last reply or the end of its input.
#[derive(Clone, Copy, Debug, PartialEq, Eq)]
pub enum ServeFault {
    /// A frame's length is above 2^24.
    FrameTooLong,
    /// The input ended within a frame.
    Cut,
    /// The source gave bytes for so long that it was left.
    Turns,
    /// The source failed.
    Read,
    /// The sink failed.
    Write,
    /// The system refused memory for what was pulled.
    Memory,
}

impl ServeFault {
    ghost use Rattle.frame_service.specs.ServeFault.{serve_fault_number, serve_fault_text};

    /// Its number in the table of faults; 255 for want of memory.
    pub fn number(self) -> u8
        ensures { result ≡ serve_fault_number self }
    {
        match self {
            ServeFault::FrameTooLong => 21,
            ServeFault::Cut => 34,
            ServeFault::Turns => 35,
            ServeFault::Read => 36,
            ServeFault::Write => 37,
            ServeFault::Memory => 255,
        }
    }

    /// Its name in the table of faults.
    pub fn name(self) -> &'static str
        ensures { result.now ≡ serve_fault_text self }
    {
        match self {
            ServeFault::FrameTooLong => "FrameTooLong",
            ServeFault::Cut => "Cut",
            ServeFault::Turns => "Turns",
            ServeFault::Read => "Read",
            ServeFault::Write => "Write",
            ServeFault::Memory => "Memory",
        }
    }
}

/// Its name.
impl fmt::Display for ServeFault {
    ghost use Rattle.std.specs.Prelude.{Some};
    ghost use Rattle.frame_service.specs.ServeFault.{serve_fault_text};

    ghost output = { λ fault. Some (serve_fault_text fault) };

    fn fmt<W: fmt::Write>(&self, f: &mut fmt::Formatter<W>) -> fmt::Result {
        f.write_str(self.name())
    }
}

impl Error for ServeFault {}

impl From<AllocError> for ServeFault {
    ghost use Rattle.std.specs.Prelude.{◌≡◌};
    ghost use Rattle.frame_service.specs.declared.fault.ServeFault.TheVariants.{Memory};

    ghost from_gives = { λ _ fault. fault ≡ Memory };

    fn from(_error: AllocError) -> ServeFault {
        ServeFault::Memory
    }
}
