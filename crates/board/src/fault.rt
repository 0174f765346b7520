//! Why a seat's read gives nothing.

ghost use Rattle.std.specs.Prelude.{◌≡◌};

use std::error::Error;
use std::fmt;

/// Why a read gives nothing.
#[derive(Clone, Copy, Debug, PartialEq, Eq)]
pub enum SeatFault {
    /// The board gave no entry, as once its publisher has ended. Nothing was read, and nothing changed.
    Closed,
    /// The system refused memory. What was handed out stays the same, and what was seen is no shorter.
    Memory,
}

impl SeatFault {
    ghost use Rattle.board.specs.Faults.{seat_fault_number, seat_fault_text};

    /// Its number in the table of faults; 255 for want of memory.
    pub fn number(self) -> u8
        ensures { result ≡ seat_fault_number self }
    {
        match self {
            SeatFault::Closed => 30,
            SeatFault::Memory => 255,
        }
    }

    /// Its name in the table of faults.
    pub fn name(self) -> &'static str
        ensures { result.now ≡ seat_fault_text self }
    {
        match self {
            SeatFault::Closed => "Closed",
            SeatFault::Memory => "Memory",
        }
    }
}

/// Its name.
impl fmt::Display for SeatFault {
    ghost use Rattle.std.specs.Prelude.{Some};
    ghost use Rattle.board.specs.Faults.{seat_fault_text};

    ghost output = { λ fault. Some (seat_fault_text fault) };

    fn fmt<W: fmt::Write>(&self, f: &mut fmt::Formatter<W>) -> fmt::Result {
        f.write_str(self.name())
    }
}

impl Error for SeatFault {}
