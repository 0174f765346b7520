//! A watch over a socket.

use mio::unix::SourceFd;
use mio::{Events, Interest, Poll, Token, Waker};
use std::alloc::Global;
use std::io;
use std::net::{Net, TcpStream};
use std::os::fd::AsRawFd;
use std::time::Duration;

/// What the events of the socket are told under.
const SOCKET: Token = Token(0);

/// What a call is told under.
const CALL: Token = Token(1);

/// What ended a wait.
#[derive(Clone, Copy, Debug, PartialEq, Eq)]
pub enum Came {
    /// There is something at the socket, be it its end or its fault.
    Byte,
    /// Another thread called.
    Call,
    /// The time was over, or a signal came.
    Nothing,
}

/// A watch over one socket, which a call ends too. No clause speaks of it: the system tells what comes.
#[derive(Drop)]
pub struct Watch {
    poll: Poll,
    events: Events,
    /// Whether the socket is among what is watched.
    is_on: bool,
}

impl Watch {
    /// A watch over no socket so far, and by what it is called. None where the system refuses it, or memory.
    pub fn new<R: Net>(rt: &R, alloc: Global) -> Option<(Watch, Waker)> {
        let poll = Poll::new(rt).ok()?;
        let waker = Waker::new(poll.registry(), CALL).ok()?;
        let events = Events::with_capacity(alloc, 2).ok()?;
        let watch = Watch {
            poll,
            events,
            is_on: false,
        };
        Some((watch, waker))
    }

    /// Watches the socket, of one connection until it is turned from. What stands there already is told too, also where it was
    /// told before: the system tells readiness once, when it comes, and by this again.
    pub fn turn_to(&mut self, socket: &TcpStream) -> io::Result<()> {
        let descriptor = socket.as_raw_fd();
        let mut source = SourceFd(&descriptor);
        let registry = self.poll.registry();
        if self.is_on {
            return registry.reregister(&mut source, SOCKET, Interest::READABLE);
        }
        registry.register(&mut source, SOCKET, Interest::READABLE)?;
        self.is_on = true;
        Ok(())
    }

    /// Watches the socket no further: another connection's can be turned to then.
    pub fn turn_from(&mut self, socket: &TcpStream) {
        if self.is_on {
            let descriptor = socket.as_raw_fd();
            // Where that fails, the system forgets the socket when its connection is closed.
            let _ = self.poll.registry().deregister(&mut SourceFd(&descriptor));
            self.is_on = false;
        }
    }

    /// Waits for so long at most. A call that no wait has had yet ends the next at once.
    pub fn wait(&mut self, most: Duration) -> io::Result<Came> {
        self.poll.poll(&mut self.events, Some(most))?;
        if self.has(SOCKET) {
            Ok(Came::Byte)
        } else if self.has(CALL) {
            Ok(Came::Call)
        } else {
            Ok(Came::Nothing)
        }
    }

    fn has(&self, token: Token) -> bool {
        self.events.iter().any(|event| event.token() == token)
    }
}
