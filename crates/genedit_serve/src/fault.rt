//! Faults of a board and its server, as the program tells them.

ghost use Rattle.std.specs.Prelude.{◌≡◌, ◌≢◌};
ghost use Rattle.relay_board.specs.declared.fault.StartFault.TheVariants as start_faults;
ghost use Rattle.genedit_serve.specs.Faults.{run_fault_of_kept, run_fault_of_server, run_fault_of_start};

use board_keeper::KeepFault;
use genedit_io::RunFault;
use kept_server::KeptFault;
use relay_board::{FinishFault, StartFault, TurnFault};
use seat_server::ServerFault;

/// Why there is no board. The number of sessions and the inbox's room are in order.
pub fn start_fault(fault: StartFault) -> RunFault
    requires { fault ≢ start_faults.Size }
    ensures { result ≡ run_fault_of_start fault }
{
    match fault {
        StartFault::Size => unreachable!(),
        StartFault::NoPlace => RunFault::Refused(31, None),
        StartFault::Memory => RunFault::Memory,
    }
}

/// Why there is no account.
pub fn server_fault(fault: ServerFault) -> RunFault
    ensures { result ≡ run_fault_of_server fault }
{
    match fault {
        ServerFault::Read => RunFault::Read,
        ServerFault::Turn(TurnFault::StoreFull) => RunFault::StoreFull,
        ServerFault::Turn(TurnFault::Memory) => RunFault::Memory,
        ServerFault::Finish(FinishFault::StoreFull) => RunFault::StoreFull,
        ServerFault::Finish(FinishFault::Memory) => RunFault::Memory,
        ServerFault::Finish(FinishFault::Closed) => RunFault::Refused(30, None),
        ServerFault::Memory => RunFault::Memory,
    }
}

/// Why there is no account of a kept board.
pub fn kept_fault(fault: KeptFault) -> RunFault
    ensures { result ≡ run_fault_of_kept fault }
{
    match fault {
        KeptFault::Read => RunFault::Read,
        KeptFault::Keep(KeepFault::StoreFull) => RunFault::StoreFull,
        KeptFault::Keep(KeepFault::Memory) => RunFault::Memory,
        KeptFault::Keep(KeepFault::Write) => RunFault::Write,
        KeptFault::Finish(FinishFault::StoreFull) => RunFault::StoreFull,
        KeptFault::Finish(FinishFault::Memory) => RunFault::Memory,
        KeptFault::Finish(FinishFault::Closed) => RunFault::Refused(30, None),
        KeptFault::Memory => RunFault::Memory,
    }
}
