//! Why a client cannot go on.

use frame_line::LineFault;
use replica_core::Fault;

/// Why a client cannot go on.
#[derive(Clone, Copy, Debug, PartialEq, Eq)]
pub enum ClientFault {
    /// Nothing could be said, or nothing came.
    Line(LineFault),
    /// What came is no reply to what was asked.
    NoReply,
    /// What the board has is not taken here: a text handed out is none, or memory or room is wanting for
    /// it or for the client's own edit.
    Text(Fault),
    /// The system refused memory for a request.
    Memory,
}
