//! Why a session refuses a request itself, whatever its hub does.

use delta_exchange::ReadFault;

/// Why a session refuses a request itself, whatever its hub does.
#[derive(Clone, Copy, Debug, PartialEq, Eq)]
pub enum SessionFault {
    /// A pushed text is no message.
    Unread(ReadFault),
    /// The bytes are no request, or what is pushed is not just one edit.
    Request,
    /// The body of a reply would have more than 2^24 bytes.
    FrameTooLong,
    /// The system refused memory.
    Memory,
}

impl SessionFault {
    ghost use Rattle.std.specs.Prelude.{◌≡◌};
    ghost use Rattle.replica_sessions.specs.SessionFault.{session_fault_number};

    /// Its number in the table of faults; 255 for want of memory.
    pub fn number(self) -> u8
        ensures { result ≡ session_fault_number self }
    {
        match self {
            SessionFault::Unread(fault) => fault.number(),
            SessionFault::Request => 33,
            SessionFault::FrameTooLong => 21,
            SessionFault::Memory => 255,
        }
    }
}
