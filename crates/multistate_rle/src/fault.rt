//! What is wrong with an RLE text.

ghost use Rattle.std.specs.Prelude.{◌≡◌};

use std::alloc::AllocError;
use std::error::Error;
use std::fmt;

/// What is wrong with an RLE text, or that memory was refused. The first faulty token from the left
/// is told, and of several faults of one token the first in the order `Tag`, `State`, `Count`,
/// `TooMany`. A place is a byte's index in the whole text, from 0.
#[derive(Clone, Copy, Debug, PartialEq, Eq)]
pub enum RleFault {
    /// The first line that is neither a comment nor blank is not `x = w, y = h`, or there is none.
    Header,
    /// The byte at this place can stand neither as a token nor behind a prefix; the text's length
    /// where the text ends behind a prefix.
    Tag(u64),
    /// The token at this place has a count of 0, or leads past column 2^32 - 1 or row 2^32 - 1.
    Count(u64),
    /// The token at this place names a state above 255.
    State(u64),
    /// There are more than 2^20 nonzero cells.
    TooMany,
    /// Memory was refused.
    Memory,
}

impl RleFault {
    ghost use Rattle.multistate_rle.specs.RleFault.{text_fault_number, text_fault_place, text_fault_text};
    ghost use Rattle.std.specs.Prelude.{◌++◌, [], codes, decimal, unwrap_or, option_map};

    /// Its number in the table of faults.
    pub fn number(self) -> u8
        ensures { result ≡ text_fault_number self }
    {
        match self {
            RleFault::Header => 4,
            RleFault::Tag(_) => 5,
            RleFault::Count(_) => 6,
            RleFault::State(_) => 7,
            RleFault::TooMany => 8,
            RleFault::Memory => 255,
        }
    }

    /// The place in the text that it names.
    pub fn place(self) -> Option<u64>
        ensures { result ≡ text_fault_place self }
    {
        match self {
            RleFault::Tag(place) | RleFault::Count(place) | RleFault::State(place) => Some(place),
            RleFault::Header | RleFault::TooMany | RleFault::Memory => None,
        }
    }

    /// Its name, without the place.
    fn name(self) -> &'static str
        ensures { text_fault_text self ≡ result.now ++ unwrap_or (option_map (λ place. codes " " ++ decimal place) (text_fault_place self)) [] }
    {
        match self {
            RleFault::Header => "Header",
            RleFault::Tag(_) => "Tag",
            RleFault::Count(_) => "Count",
            RleFault::State(_) => "State",
            RleFault::TooMany => "TooMany",
            RleFault::Memory => "Memory",
        }
    }
}

/// Its name, with the place behind a blank where it has one.
impl fmt::Display for RleFault {
    ghost use Rattle.std.specs.Prelude.{Some};
    ghost use Rattle.multistate_rle.specs.RleFault.{text_fault_text};

    ghost output = { λ fault. Some (text_fault_text fault) };

    fn fmt<W: fmt::Write>(&self, f: &mut fmt::Formatter<W>) -> fmt::Result {
        match self.place() {
            Some(place) => write!(f, "{} {place}", self.name()),
            None => f.write_str(self.name()),
        }
    }
}

impl Error for RleFault {}

impl From<AllocError> for RleFault {
    ghost use Rattle.std.specs.Prelude.{◌≡◌};
    ghost use Rattle.multistate_rle.specs.declared.fault.RleFault.TheVariants.{Memory};

    ghost from_gives = { λ want fault. fault ≡ Memory };

    fn from(_want: AllocError) -> RleFault {
        RleFault::Memory
    }
}
