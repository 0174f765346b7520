//! Why a client ends.

ghost use Rattle.std.specs.Prelude.{◌≡◌};

use board_client::ClientFault;
use replica_core::Stop;
use std::alloc::{AllocError, AllocFailed};

/// Why a client ends.
#[derive(Clone, Copy, Debug, PartialEq, Eq)]
pub enum CommandFault {
    /// The line failed, what came is no reply, or what came, or was drawn, is not taken.
    Client(ClientFault),
    /// The greeting was refused, by this number of the table of faults; or a poll was, by 21.
    Refused(u8),
    /// The system refused memory.
    Memory,
    /// A store of squares is full: of the plane that was told, or of a universe that was run.
    StoreFull,
}

impl From<AllocError> for CommandFault {
    ghost use Rattle.std.specs.Prelude.{◌≡◌};
    ghost use Rattle.client_session.specs.declared.fault.CommandFault.TheVariants.{Memory};

    ghost from_gives = { λ _ fault. fault ≡ Memory };

    fn from(_error: AllocError) -> CommandFault {
        CommandFault::Memory
    }
}

impl From<Stop> for CommandFault {
    ghost use Rattle.std.specs.Prelude.{◌≡◌};
    ghost use Rattle.client_session.specs.Exporting.{fault_of_stop};

    ghost from_gives = { λ stop fault. fault ≡ fault_of_stop stop };

    fn from(stop: Stop) -> CommandFault {
        match stop {
            Stop::Memory => CommandFault::Memory,
            Stop::StoreFull => CommandFault::StoreFull,
        }
    }
}
