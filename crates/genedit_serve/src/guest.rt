//! Who comes to a chair.

use crate::connections::Connection;
use web_doors::SeatVisitor;

/// Somebody who is to be seated.
#[derive(Drop)]
pub(crate) enum Guest {
    /// A connection of frames.
    Frames(Connection),
    /// A page's socket, whose handshake is answered from the chair.
    Page(SeatVisitor),
}

impl Guest {
    /// The connection of frames, if it is one.
    pub(crate) fn into_connection(self) -> Option<Connection> {
        match self {
            Guest::Frames(connection) => Some(connection),
            Guest::Page(_) => None,
        }
    }

    /// The page's socket, if it is one.
    pub(crate) fn into_visitor(self) -> Option<SeatVisitor> {
        match self {
            Guest::Page(visitor) => Some(visitor),
            Guest::Frames(_) => None,
        }
    }
}
