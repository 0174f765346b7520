//! The server of a board, as a client meets it.

ghost use Rattle.std.specs.Prelude.{◌≡◌};

use crate::own::Own;
use devices::{Sink, Source};
use frame_line::Line;
use std::alloc::Global;
use std::collections::VecDeque;
use std::marker::Model;
use std::time::Clock;

/// The server of a board: the line to it, the clock by which a request is said again, and where requests and
/// replies are kept; and which edits of the client's own the board has that did not come back yet. Contracts see
/// what is known of the line.
pub struct Server<'a, C: Clock, S: Source + Drop, K: Sink + Drop> {
    pub(crate) clock: &'a C,
    pub(crate) alloc: Global,
    pub(crate) line: Line<S, K>,
    pub(crate) own: VecDeque<Own>,
}

impl<'a, C: Clock, S: Source + Drop, K: Sink + Drop> Model for Server<'a, C, S, K> {
    ghost use Rattle.board_client.specs.Client.{LineState, line_at};

    ghost Value = { LineState };

    ghost view = { λ s. line_at s.line.frames (S.known s.line.source) (K.known s.line.sink) };
}

/// By hand, since what a line is made of need not be there to be dropped.
impl<'a, C: Clock, S: Source + Drop, K: Sink + Drop> Drop for Server<'a, C, S, K> {
    fn drop(self) {
        let Server {
            clock: _,
            alloc: _,
            line,
            own: _,
        } = self;
        let Line {
            frames: _,
            source: _,
            sink: _,
        } = line;
    }
}

impl<'a, C: Clock, S: Source + Drop, K: Sink + Drop> Server<'a, C, S, K> {
    ghost use Rattle.board_client.specs.Client.{line_at};

    /// The server on the other side of a line.
    pub fn new(clock: &'a C, alloc: Global, line: Line<S, K>) -> Server<'a, C, S, K>
        ensures { result ≡ line_at line.frames (S.known line.source) (K.known line.sink) }
    {
        Server {
            clock,
            alloc,
            line,
            own: VecDeque::new(alloc),
        }
    }

    /// The clock by which a request is said again.
    pub fn clock(&self) -> &'a C {
        self.clock
    }

    /// Where requests and replies are kept.
    pub fn alloc(&self) -> Global {
        self.alloc
    }
}
