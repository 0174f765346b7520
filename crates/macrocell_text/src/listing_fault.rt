//! Why the cells of a macrocell are not listed.

ghost use Rattle.std.specs.Prelude.{◌≡◌};

use std::alloc::AllocError;
use std::error::Error;
use std::fmt;

/// Why the cells of a macrocell are not listed; the first that holds is told.
#[derive(Clone, Copy, Debug, PartialEq, Eq)]
pub enum ListingFault {
    /// There are more than 2^24 cells that are not dead.
    TooManyCells,
    /// A cell that is not dead lies outside the plane of coordinates of 32 bits.
    OutOfPlane,
    /// Memory was refused.
    Memory,
}

impl ListingFault {
    ghost use Rattle.macrocell_text.specs.Faults.{listing_fault_number};

    /// Its number in the table of faults.
    pub fn number(self) -> u8
        ensures { result ≡ listing_fault_number self }
    {
        match self {
            ListingFault::TooManyCells => 23,
            ListingFault::OutOfPlane => 10,
            ListingFault::Memory => 255,
        }
    }
}

/// Its name.
impl fmt::Display for ListingFault {
    ghost use Rattle.std.specs.Prelude.{Some};
    ghost use Rattle.macrocell_text.specs.Faults.{listing_fault_text};

    ghost output = { λ fault. Some (listing_fault_text fault) };

    fn fmt<W: fmt::Write>(&self, f: &mut fmt::Formatter<W>) -> fmt::Result {
        match self {
            ListingFault::TooManyCells => f.write_str("TooManyCells"),
            ListingFault::OutOfPlane => f.write_str("OutOfPlane"),
            ListingFault::Memory => f.write_str("Memory"),
        }
    }
}

impl Error for ListingFault {}

impl From<AllocError> for ListingFault {
    ghost use Rattle.std.specs.Prelude.{◌≡◌};
    ghost use Rattle.macrocell_text.specs.declared.listing_fault.ListingFault.TheVariants.{Memory};

    ghost from_gives = { λ want fault. fault ≡ Memory };

    fn from(_want: AllocError) -> ListingFault {
        ListingFault::Memory
    }
}
