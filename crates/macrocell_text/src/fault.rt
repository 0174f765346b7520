//! What is wrong with the text of a macrocell.

ghost use Rattle.std.specs.Prelude.{◌≡◌};

use std::alloc::{AllocError, AllocFailed};
use std::error::Error;
use std::fmt;

/// What is wrong with the text of a macrocell, or that memory was refused. The first fault from the left is told.
/// A place is a byte's index in the whole text, from 0.
#[derive(Clone, Copy, Debug, PartialEq, Eq)]
pub enum MacrocellFault {
    /// The first line does not begin with `[M2]`.
    Header,
    /// The byte at this place cannot stand there: in a line of rows one that is not `.`, `*` or `$`, or a `*`
    /// beyond 8 columns or rows; in a line of numbers one that is no digit, or the line's end where there are
    /// fewer than five numbers.
    Tag(u64),
    /// The number at this place names a state above 255.
    State(u64),
    /// What begins at this place cannot stand there: a level that is not 1 to 63; a line of level 1 to 3 in
    /// the other kind of text, that is numbers where leaves are told by rows, or rows where they are of level 1;
    /// or a number that names no earlier square line of the level below.
    Square(u64),
    /// Memory was refused.
    Memory,
}

impl MacrocellFault {
    ghost use Rattle.macrocell_text.specs.Faults.{macrocell_fault_number, macrocell_fault_place, macrocell_fault_text};
    ghost use Rattle.std.specs.Prelude.{◌++◌, [], codes, decimal, unwrap_or, option_map};

    /// Its number in the table of faults.
    pub fn number(self) -> u8
        ensures { result ≡ macrocell_fault_number self }
    {
        match self {
            MacrocellFault::Header => 4,
            MacrocellFault::Tag(_) => 5,
            MacrocellFault::State(_) => 7,
            MacrocellFault::Square(_) => 44,
            MacrocellFault::Memory => 255,
        }
    }

    /// The place in the text that it names.
    pub fn place(self) -> Option<u64>
        ensures { result ≡ macrocell_fault_place self }
    {
        match self {
            MacrocellFault::Tag(place)
            | MacrocellFault::State(place)
            | MacrocellFault::Square(place) => Some(place),
            MacrocellFault::Header | MacrocellFault::Memory => None,
        }
    }

    /// Its name, without the place.
    fn name(self) -> &'static str
        ensures { macrocell_fault_text self ≡ result.now ++ unwrap_or (option_map (λ place. codes " " ++ decimal place) (macrocell_fault_place self)) [] }
    {
        match self {
            MacrocellFault::Header => "Header",
            MacrocellFault::Tag(_) => "Tag",
            MacrocellFault::State(_) => "State",
            MacrocellFault::Square(_) => "Square",
            MacrocellFault::Memory => "Memory",
        }
    }
}

/// Its name, with the place behind a blank where it has one.
impl fmt::Display for MacrocellFault {
    ghost use Rattle.std.specs.Prelude.{Some};
    ghost use Rattle.macrocell_text.specs.Faults.{macrocell_fault_text};

    ghost output = { λ fault. Some (macrocell_fault_text fault) };

    fn fmt<W: fmt::Write>(&self, f: &mut fmt::Formatter<W>) -> fmt::Result {
        match self.place() {
            Some(place) => write!(f, "{} {place}", self.name()),
            None => f.write_str(self.name()),
        }
    }
}

impl Error for MacrocellFault {}

impl From<AllocError> for MacrocellFault {
    ghost use Rattle.std.specs.Prelude.{◌≡◌};
    ghost use Rattle.macrocell_text.specs.declared.fault.MacrocellFault.TheVariants.{Memory};

    ghost from_gives = { λ want fault. fault ≡ Memory };

    fn from(_want: AllocError) -> MacrocellFault {
        MacrocellFault::Memory
    }
}
