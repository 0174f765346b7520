//! Why a client ends before its commands do.

ghost use Rattle.std.specs.Prelude.{◌≡◌};
ghost use Rattle.genedit_join.specs.Fault.{fault_of_client, fault_of_line, fault_of_refusal, fault_of_text};

use board_client::ClientFault;
use client_session::CommandFault;
use frame_line::LineFault;
use genedit_io::RunFault;
use replica_core::Fault;
use std::alloc::AllocError;
use std::error::Error;
use std::fmt;

/// The refusal of a greeting where the board has no seat left.
const NO_SEAT: u8 = 45;

/// Why a client ends before its commands do.
#[derive(Clone, Copy, Debug, PartialEq, Eq)]
pub enum JoinFault {
    /// What ends any program: a refusal, of the greeting or by 21 of a poll; input that cannot be read;
    /// output that cannot be written; want of memory or room.
    Run(RunFault),
    /// Nobody answers at the port.
    NoServer,
    /// The board has no seat left.
    NoSeat,
    /// The commands are a script's.
    Script,
    /// The server went away, or its reply was not awaited any longer.
    Gone,
    /// The server sent what is no reply.
    NoReply,
    /// The board that answers at the port has another rule than before.
    OtherRule,
}

impl JoinFault {
    ghost use Rattle.genedit_join.specs.Fault.{join_status};

    /// The status with which the program ends: 3 where a server is missing, 2 where a seat is, or the commands
    /// are none.
    pub fn exit_status(self) -> u8
        ensures { result ≡ join_status self }
    {
        match self {
            JoinFault::Run(fault) => fault.exit_status(),
            JoinFault::NoServer | JoinFault::Gone | JoinFault::NoReply | JoinFault::OtherRule => 3,
            JoinFault::NoSeat | JoinFault::Script => 2,
        }
    }
}

/// What the program says of it.
impl fmt::Display for JoinFault {
    ghost use Rattle.std.specs.Prelude.{Some};
    ghost use Rattle.genedit_join.specs.Fault.{join_fault_text};

    ghost output = { λ fault. Some (join_fault_text fault) };

    fn fmt<W: fmt::Write>(&self, f: &mut fmt::Formatter<W>) -> fmt::Result {
        match self {
            JoinFault::Run(fault) => write!(f, "{fault}"),
            JoinFault::NoServer => f.write_str("no server answers"),
            JoinFault::NoSeat => f.write_str("all seats of the board are taken"),
            JoinFault::Script => f.write_str("this is a script: run it by `genedit run`"),
            JoinFault::Gone => f.write_str("the server went away"),
            JoinFault::NoReply => f.write_str("the server sent what is no reply"),
            JoinFault::OtherRule => f.write_str("the board that answers has another rule"),
        }
    }
}

impl Error for JoinFault {}

impl From<AllocError> for JoinFault {
    ghost use Rattle.std.specs.Prelude.{◌≡◌};
    ghost use Rattle.genedit_join.specs.Fault.{memory_wanted};

    ghost from_gives = { λ _ fault. fault ≡ memory_wanted };

    fn from(_error: AllocError) -> JoinFault {
        JoinFault::Run(RunFault::Memory)
    }
}

impl From<RunFault> for JoinFault {
    ghost use Rattle.std.specs.Prelude.{◌≡◌};
    ghost use Rattle.genedit_join.specs.declared.fault.JoinFault.TheVariants.{Run};

    ghost from_gives = { λ from fault. fault ≡ Run from };

    fn from(fault: RunFault) -> JoinFault {
        JoinFault::Run(fault)
    }
}

impl From<CommandFault> for JoinFault {
    ghost use Rattle.std.specs.Prelude.{◌≡◌};
    ghost use Rattle.genedit_join.specs.Fault.{fault_of_command};

    ghost from_gives = { λ from fault. fault ≡ fault_of_command from };

    fn from(fault: CommandFault) -> JoinFault {
        match fault {
            CommandFault::Client(fault) => of_client(fault),
            CommandFault::Refused(number) => of_refusal(number),
            CommandFault::Memory => JoinFault::Run(RunFault::Memory),
            CommandFault::StoreFull => JoinFault::Run(RunFault::StoreFull),
        }
    }
}

/// How a client ends by a refusal, of the greeting or of a poll.
fn of_refusal(number: u8) -> JoinFault
    ensures { result ≡ fault_of_refusal number }
{
    if number == NO_SEAT {
        JoinFault::NoSeat
    } else {
        JoinFault::Run(RunFault::Refused(number, None))
    }
}

/// Why a client of a line cannot go on.
pub(crate) fn of_client(fault: ClientFault) -> JoinFault
    ensures { result ≡ fault_of_client fault }
{
    match fault {
        ClientFault::Line(fault) => of_line(fault),
        ClientFault::NoReply => JoinFault::NoReply,
        ClientFault::Text(fault) => of_text(fault),
        ClientFault::Memory => JoinFault::Run(RunFault::Memory),
    }
}

/// Why nothing is said or heard.
fn of_line(fault: LineFault) -> JoinFault
    ensures { result ≡ fault_of_line fault }
{
    match fault {
        LineFault::FrameTooLong => JoinFault::NoReply,
        LineFault::Memory => JoinFault::Run(RunFault::Memory),
        LineFault::Ended | LineFault::Cut | LineFault::Turns | LineFault::Read | LineFault::Write =>
            JoinFault::Gone,
    }
}

/// Why what the board has is not taken.
fn of_text(fault: Fault) -> JoinFault
    ensures { result ≡ fault_of_text fault }
{
    match fault {
        Fault::Memory => JoinFault::Run(RunFault::Memory),
        Fault::StoreFull => JoinFault::Run(RunFault::StoreFull),
        _ => JoinFault::NoReply,
    }
}
