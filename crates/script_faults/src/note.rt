//! What is told of a script, and where.

use crate::reason::{Reason, Warning};

/// Where something stands in a script: some bytes of a line, or the place behind its last.
#[derive(Clone, Copy, Debug, PartialEq, Eq)]
pub struct Place {
    /// The line, counted from 1.
    pub line: u64,
    /// The first byte, counted from 1 in the line.
    pub column: usize,
    /// How many bytes: 1 at least.
    pub width: usize,
}

/// What is told of a place.
#[derive(Clone, Copy, Debug, PartialEq, Eq)]
pub enum Note {
    Fault(Place, Reason),
    Warning(Place, Warning),
}

impl Note {
    ghost use Rattle.std.specs.Prelude.{◌≡◌};
    ghost use Rattle.script_faults.specs.Faults.{is_fault, place_of};

    /// Whether it is a fault, and no warning.
    pub fn is_fault(&self) -> bool
        ensures { result ≡ is_fault self.now }
    {
        match self {
            Note::Fault(_, _) => true,
            Note::Warning(_, _) => false,
        }
    }

    pub fn place(&self) -> Place
        ensures { result ≡ place_of self.now }
    {
        match self {
            Note::Fault(place, _) | Note::Warning(place, _) => *place,
        }
    }
}
