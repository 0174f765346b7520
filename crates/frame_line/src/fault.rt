//! Why a body is not said, or none comes.

use std::error::Error;
use std::fmt;

/// Why a body is not said, or none comes.
#[derive(Clone, Copy, Debug, PartialEq, Eq)]
pub enum LineFault {
    /// A frame's length is above 2^24.
    FrameTooLong,
    /// The input ended between two frames.
    Ended,
    /// The input ended within a frame.
    Cut,
    /// As many pulls as were allowed gave no whole frame.
    Turns,
    /// The source failed.
    Read,
    /// The sink failed.
    Write,
    /// The system refused memory. What was pulled last may be lost, so that nothing more can be received.
    Memory,
}

/// Its name.
impl fmt::Display for LineFault {
    ghost use Rattle.std.specs.Prelude.{Some};
    ghost use Rattle.frame_line.specs.LineFault.{line_fault_text};

    ghost output = { λ fault. Some (line_fault_text fault) };

    fn fmt<W: fmt::Write>(&self, f: &mut fmt::Formatter<W>) -> fmt::Result {
        match self {
            LineFault::FrameTooLong => f.write_str("FrameTooLong"),
            LineFault::Ended => f.write_str("Ended"),
            LineFault::Cut => f.write_str("Cut"),
            LineFault::Turns => f.write_str("Turns"),
            LineFault::Read => f.write_str("Read"),
            LineFault::Write => f.write_str("Write"),
            LineFault::Memory => f.write_str("Memory"),
        }
    }
}

impl Error for LineFault {}
