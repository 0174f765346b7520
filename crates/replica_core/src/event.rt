//! What is answered in a world of replicas.

use crate::fault::Fault;
use edit_stamps::{Stamp, Write};
use export::{Count, Cut};
use lists::ListOf;
use std::alloc::{AllocError, AllocFailed};
use std::error::Error;
use std::fmt;

/// The bytes of a message or of a text.
pub type ByteList = ListOf<u8>;

/// What is answered to an event.
#[derive(Debug, Drop)]
pub enum Reply {
    /// The stamp of the edit that was drawn.
    Drawn(Stamp),
    /// The number of the message that was sent.
    Sent(u64),
    /// The message was taken.
    Taken,
    /// The write at the cell; the least write where nothing was written, and outside the plane.
    Shown(Write),
    /// Whether the two hold the same write at every cell.
    Same(bool),
    /// The bytes of the message.
    Bytes(ByteList),
    /// The cells of the generation, or those in a window, in Golly's multi-state RLE.
    Text(ByteList),
    /// How many cells are not dead at the generation, and where.
    Counted(Count),
    /// Why nothing happened. All that names a replica is refused for want of it first, a delivery for
    /// want of the message before. It is never `Fault::Memory` or `Fault::StoreFull`.
    Refused(Fault),
}

/// What is asked about a map some generations later.
#[derive(Clone, Copy, Debug, PartialEq, Eq)]
pub enum Question {
    /// The text of its cells, so many generations later.
    Export(u32),
    /// The text of those in a window.
    Cut(Cut),
    /// How many cells are not dead, so many generations later, and where.
    Count(u32),
}

/// Why a list of events was not run to its end. What was done by then is dropped.
#[derive(Clone, Copy, Debug, PartialEq, Eq)]
pub enum Stop {
    /// The system refused memory.
    Memory,
    /// A replica's store, or that of a universe that was run, held as many squares as it has room for.
    StoreFull,
}

impl Stop {
    ghost use Rattle.std.specs.Prelude.{◌≡◌};
    ghost use Rattle.replica_core.specs.Fault.{stop_number};

    /// Its number in the table of faults: 13 for a full store, 255 for want of memory.
    pub fn number(self) -> u8
        ensures { result ≡ stop_number self }
    {
        match self {
            Stop::Memory => 255,
            Stop::StoreFull => 13,
        }
    }
}

/// Its name.
impl fmt::Display for Stop {
    ghost use Rattle.std.specs.Prelude.{Some};
    ghost use Rattle.replica_core.specs.Fault.{stop_text};

    ghost output = { λ stop. Some (stop_text stop) };

    fn fmt<W: fmt::Write>(&self, f: &mut fmt::Formatter<W>) -> fmt::Result {
        match self {
            Stop::Memory => write!(f, "Memory"),
            Stop::StoreFull => write!(f, "StoreFull"),
        }
    }
}

impl Error for Stop {}

impl From<AllocError> for Stop {
    ghost use Rattle.std.specs.Prelude.{◌≡◌};
    ghost use Rattle.replica_core.specs.declared.event.Stop.TheVariants.{Memory};

    ghost from_gives = { λ _ stop. stop ≡ Memory };

    fn from(_error: AllocError) -> Stop {
        Stop::Memory
    }
}

impl<T: Drop> From<AllocFailed<T>> for Stop {
    ghost use Rattle.std.specs.Prelude.{◌≡◌};
    ghost use Rattle.replica_core.specs.declared.event.Stop.TheVariants.{Memory};

    ghost from_gives = { λ _ stop. stop ≡ Memory };

    fn from(_error: AllocFailed<T>) -> Stop {
        Stop::Memory
    }
}
