//! Why a server ends without an account.

ghost use Rattle.std.specs.Prelude.{◌≡◌};

use relay_board::{FinishFault, TurnFault};
use std::alloc::{AllocError, AllocFailed};
use std::error::Error;
use std::fmt;

/// Why a server ends without an account. All sessions that had begun have ended by then.
#[derive(Clone, Copy, Debug, PartialEq, Eq)]
pub enum ServerFault {
    /// No stream came, or a thread could not be started.
    Read,
    /// 1,000 turns in a row failed, the last of them so.
    Turn(TurnFault),
    /// The relay did not finish.
    Finish(FinishFault),
    /// The system refused memory.
    Memory,
}

/// What the server says of it.
impl fmt::Display for ServerFault {
    ghost use Rattle.std.specs.Prelude.{Some};
    ghost use Rattle.seat_server.specs.Faults.{server_fault_text};

    ghost output = { λ fault. Some (server_fault_text fault) };

    fn fmt<W: fmt::Write>(&self, f: &mut fmt::Formatter<W>) -> fmt::Result {
        f.write_str(match self {
            ServerFault::Read => "Read",
            ServerFault::Turn(fault) => fault.name(),
            ServerFault::Finish(fault) => fault.name(),
            ServerFault::Memory => "Memory",
        })
    }
}

impl Error for ServerFault {}

impl From<AllocError> for ServerFault {
    ghost use Rattle.std.specs.Prelude.{◌≡◌};
    ghost use Rattle.seat_server.specs.declared.fault.ServerFault.TheVariants.{Memory};

    ghost from_gives = { λ _ fault. fault ≡ Memory };

    fn from(_error: AllocError) -> ServerFault {
        ServerFault::Memory
    }
}

impl<T: Drop> From<AllocFailed<T>> for ServerFault {
    ghost use Rattle.std.specs.Prelude.{◌≡◌};
    ghost use Rattle.seat_server.specs.declared.fault.ServerFault.TheVariants.{Memory};

    ghost from_gives = { λ _ fault. fault ≡ Memory };

    fn from(_failed: AllocFailed<T>) -> ServerFault {
        ServerFault::Memory
    }
}
