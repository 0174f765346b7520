//! By what a client that follows waits: for something of its server, or for a line.

use mio::Waker;
use socket_watch::{Came, Watch};
use std::alloc::Global;
use std::net::{Net, TcpStream};
use std::sync::{Arc, Mutex, Wait};
use std::time::Duration;

/// What calls a client, whichever connection it waits at by then. No clause speaks of it: another thread rings it.
#[derive(Drop)]
pub(crate) struct Bell {
    /// What calls at the connection of now; kept here, since a call that was not heard yet is lost where its waker is
    /// let go.
    waker: Mutex<Arc<Waker>>,
}

impl Bell {
    /// Calls. Where that fails, what it calls for is seen once the wait is over.
    pub(crate) fn ring<R: Wait>(&self, rt: &R) {
        let waker = self.waker.lock(rt);
        let _ = waker.wake();
    }

    /// From here on it calls by this waker.
    fn hang<R: Wait>(&self, rt: &R, waker: Arc<Waker>) {
        *self.waker.lock(rt) = waker;
    }
}

/// What a client waits by that follows: its connection, and a call where a line was typed.
#[derive(Drop)]
pub(crate) struct Ears {
    watch: Watch,
    socket: TcpStream,
}

impl Ears {
    /// Those over a client's first connection, and by what they are called. None where the system refuses it: such a
    /// client polls.
    pub(crate) fn over<R: Net>(
        rt: &R,
        alloc: Global,
        socket: TcpStream,
    ) -> Option<(Ears, Arc<Bell>)> {
        let (watch, waker) = Watch::new(rt, alloc)?;
        let waker = Mutex::new(Arc::new(alloc, waker).ok()?);
        let bell = Arc::new(alloc, Bell { waker }).ok()?;
        Some((Ears { watch, socket }, bell))
    }

    /// Those over another connection, where the same bell calls.
    pub(crate) fn again<R: Net + Wait>(
        rt: &R,
        alloc: Global,
        socket: TcpStream,
        bell: &Bell,
    ) -> Option<Ears> {
        let (watch, waker) = Watch::new(rt, alloc)?;
        bell.hang(rt, Arc::new(alloc, waker).ok()?);
        Some(Ears { watch, socket })
    }

    /// Waits for so long at most. Where the system cannot tell what comes, it is as if the server had said
    /// something: the client's own reading waits then.
    pub(crate) fn wait(&mut self, most: Duration) -> Came {
        if self.watch.turn_to(&self.socket).is_err() {
            return Came::Byte;
        }
        self.watch.wait(most).unwrap_or(Came::Byte)
    }
}
