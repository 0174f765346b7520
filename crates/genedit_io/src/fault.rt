//! Why a program ends before its work is done.

ghost use Rattle.std.specs.Prelude.{◌≡◌, ◌++◌, codes, decimal};
ghost use Rattle.std.specs.Fmt.{WritesOnOk};
ghost use Rattle.genedit_io.specs.RunFault.{name_of_number, refusal_text};

use std::alloc::AllocError;
use std::error::Error;
use std::fmt;

/// Why a program of `genedit` ends before its work is done.
#[derive(Clone, Copy, Debug, PartialEq, Eq)]
pub enum RunFault {
    /// The script has a fault, at the first such line, counted from 1.
    Script(u64),
    /// What was asked is refused: the number in the table of faults, and the place where there is one.
    Refused(u8, Option<u64>),
    /// The source failed.
    Read,
    /// The source gave bytes for so long that it was left.
    Turns,
    /// The sink failed.
    Write,
    /// The system refused memory.
    Memory,
    /// A store of squares was full.
    StoreFull,
}

impl RunFault {
    ghost use Rattle.std.specs.Prelude.{◌≡◌};
    ghost use Rattle.genedit_io.specs.RunFault.{exit_status};

    /// The status with which the program ends: 2 for a fault of the script or a refusal, 3 where the
    /// source failed or was left, 4 where the sink failed, 5 for want of memory or room.
    pub fn exit_status(self) -> u8
        ensures { result ≡ exit_status self }
    {
        match self {
            RunFault::Script(_) | RunFault::Refused(_, _) => 2,
            RunFault::Read | RunFault::Turns => 3,
            RunFault::Write => 4,
            RunFault::Memory | RunFault::StoreFull => 5,
        }
    }
}

/// What the program says of it.
impl fmt::Display for RunFault {
    ghost use Rattle.std.specs.Prelude.{Some};
    ghost use Rattle.genedit_io.specs.RunFault.{run_fault_text};

    ghost output = { λ fault. Some (run_fault_text fault) };

    fn fmt<W: fmt::Write>(&self, f: &mut fmt::Formatter<W>) -> fmt::Result {
        match self {
            RunFault::Script(line) => write!(f, "script fault at line {line}"),
            RunFault::Refused(number, place) => write_refusal(f, *number, *place),
            RunFault::Read | RunFault::Turns => f.write_str("read fault"),
            RunFault::Write => f.write_str("write fault"),
            RunFault::Memory => f.write_str("out of memory"),
            RunFault::StoreFull => f.write_str("store full"),
        }
    }
}

impl Error for RunFault {}

impl From<AllocError> for RunFault {
    ghost use Rattle.std.specs.Prelude.{◌≡◌};
    ghost use Rattle.genedit_io.specs.declared.fault.RunFault.TheVariants.{Memory};

    ghost from_gives = { λ _ fault. fault ≡ Memory };

    fn from(_error: AllocError) -> RunFault {
        RunFault::Memory
    }
}

/// Writes a refusal: its number, its name, and its place where there is one.
fn write_refusal<W: fmt::Write>(
    f: &mut fmt::Formatter<W>,
    number: u8,
    place: Option<u64>,
) -> fmt::Result
    ensures { WritesOnOk W.write_str_gives f.old result (codes "refused " ++ (decimal number ++ (codes " " ++ refusal_text number place))) f.new }
{
    let name = name_of(number);
    match place {
        None => write!(f, "refused {number} {name}"),
        Some(place) => write!(f, "refused {number} {name} {place}"),
    }
}

/// The name of a refusal, by its number in the table of faults.
fn name_of(number: u8) -> &'static str
    ensures { result.now ≡ name_of_number number }
{
    match number {
        1 => "Slashes",
        2 => "Digit",
        3 => "States",
        4 => "Header",
        5 => "Tag",
        6 => "Count",
        7 => "State",
        8 => "TooMany",
        9 => "Nothing",
        10 => "OutOfPlane",
        11 => "StateRange",
        13 => "StoreFull",
        14 => "Magic",
        15 => "Version",
        16 => "OtherRule",
        17 => "Short",
        18 => "StampRange",
        19 => "NotCanonical",
        20 => "Trailing",
        21 => "FrameTooLong",
        22 => "GenRange",
        23 => "TooManyCells",
        24 => "ClockFull",
        25 => "NoSuchEdit",
        26 => "NoReplica",
        27 => "NoMessage",
        28 => "NotYours",
        29 => "Full",
        30 => "Closed",
        31 => "NoPlace",
        32 => "Size",
        33 => "Request",
        34 => "Cut",
        35 => "Turns",
        36 => "Read",
        37 => "Write",
        38 => "NoPattern",
        39 => "Script",
        40 => "OldStamp",
        41 => "SameStamp",
        42 => "NoDocument",
        43 => "Busy",
        44 => "Square",
        45 => "NoSeat",
        _ => "?",
    }
}
