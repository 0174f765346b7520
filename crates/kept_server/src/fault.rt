//! Why a server of a kept board ends without an account.

ghost use Rattle.std.specs.Prelude.{◌≡◌, ◌≢◌};
ghost use Rattle.seat_server.specs.Faults.{IsAttendFault};
ghost use Rattle.kept_server.specs.Faults.{kept_fault_of, kept_fault_of_end};

use board_keeper::{EndFault, KeepFault};
use relay_board::FinishFault;
use seat_server::ServerFault;
use std::error::Error;
use std::fmt;

/// Why a server of a kept board ends without an account. All sessions that had begun have ended by then; what
/// was told to a client is in the file.
#[derive(Clone, Copy, Debug, PartialEq, Eq)]
pub enum KeptFault {
    /// No stream came, or a thread could not be started.
    Read,
    /// The keeper takes no more turns: the store is full, or the file failed; or memory was wanting when all
    /// sessions had ended.
    Keep(KeepFault),
    /// The relay did not finish.
    Finish(FinishFault),
    /// The system refused memory.
    Memory,
}

/// What the server says of it.
impl fmt::Display for KeptFault {
    ghost use Rattle.std.specs.Prelude.{Some};
    ghost use Rattle.kept_server.specs.Faults.{kept_fault_text};

    ghost output = { λ fault. Some (kept_fault_text fault) };

    fn fmt<W: fmt::Write>(&self, f: &mut fmt::Formatter<W>) -> fmt::Result {
        f.write_str(match self {
            KeptFault::Read => "Read",
            KeptFault::Keep(fault) => fault.name(),
            KeptFault::Finish(fault) => fault.name(),
            KeptFault::Memory => "Memory",
        })
    }
}

impl Error for KeptFault {}

/// Why the seats were not served.
pub(crate) fn kept_fault(fault: ServerFault) -> KeptFault
    requires { IsAttendFault fault }
    ensures { result ≡ kept_fault_of fault }
{
    match fault {
        ServerFault::Read => KeptFault::Read,
        ServerFault::Turn(_) => unreachable!(),
        ServerFault::Finish(_) => unreachable!(),
        ServerFault::Memory => KeptFault::Memory,
    }
}

/// Why the keeper did not finish.
pub(crate) fn end_fault(fault: EndFault) -> KeptFault
    ensures { result ≡ kept_fault_of_end fault }
{
    match fault {
        EndFault::Keep(why) => KeptFault::Keep(why),
        EndFault::Finish(why) => KeptFault::Finish(why),
    }
}
