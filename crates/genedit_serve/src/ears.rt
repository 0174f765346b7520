//! What a session over a connection waits by.

use crate::alarm::Alarm;
use crate::incoming::PageReader;
use session_service::{Came, Listen};
use socket_watch::Watch;
use std::alloc::Global;
use std::io;
use std::net::TcpStream;
use std::sync::Arc;
use std::time::{Clock, Duration, Instant};

/// How long a look at the socket takes at most, in milliseconds.
const LOOK: u64 = 2;

/// What the session of a guest waits by: its socket, its seat's alarm, and the clock.
pub struct Ears<R> {
    rt: R,
    socket: TcpStream,
    alarm: Arc<Alarm, Global>,
    /// What watches the socket; none where it is looked at again and again.
    watch: Option<Watch>,
    /// When the time is over; none where the clock, or the socket, cannot be asked.
    end: Option<Instant>,
    /// A page's messages: of what comes at its socket, bytes of a whole one count, and a ping does not.
    page: Option<PageReader>,
}

impl<R> Ears<R> {
    /// Those of the next session over a seat whose alarm this is.
    pub(crate) fn of(
        rt: R,
        socket: TcpStream,
        alarm: Arc<Alarm, Global>,
        page: Option<PageReader>,
    ) -> Ears<R> {
        let watch = alarm.take_watch();
        Ears {
            rt,
            socket,
            alarm,
            watch,
            end: None,
            page,
        }
    }

    /// Whether a page's message, or its end, is there to be read; none where frames come, of which each byte counts.
    fn has_message(&self) -> Option<bool> {
        match &self.page {
            None => None,
            Some(page) => Some(page.has_come()),
        }
    }
}

/// The alarm outlives the session, and is not to keep its connection open; what watched that connection watches the
/// next one.
impl<R: Drop> Drop for Ears<R> {
    fn drop(self) {
        let Self {
            rt: _,
            socket,
            alarm,
            watch,
            end: _,
            page: _,
        } = self;
        if let Some(watch) = watch {
            let mut watch = watch;
            watch.turn_from(&socket);
            alarm.put_watch(watch);
        }
        alarm.let_go();
    }
}

impl<R: Clock> Listen for Ears<R> {
    /// The alarm is set first: what is published from here on rings it.
    fn begin(&mut self, most: Duration) {
        self.alarm.set(true);
        self.end = end_of(&self.rt, most);
        let is_watched = match &mut self.watch {
            None => false,
            Some(watch) => watch.turn_to(&self.socket).is_ok(),
        };
        if !is_watched {
            self.watch = None;
            let look = Duration::from_millis(LOOK);
            if self.socket.set_read_timeout(Some(look)).is_err() {
                self.end = None;
            }
        }
    }

    /// News are told also where there may be none: whoever asked looks, and waits again. A page's messages are asked for
    /// first: what has come may stand in its reader, where the system does not see it.
    fn wait(&mut self) -> Came {
        for _look in 0..u64::MAX {
            let message = self.has_message();
            if message == Some(true) {
                return Came::Byte;
            }
            let Some(left) = time_until(&self.rt, self.end) else {
                return Came::Nothing;
            };
            let has_byte = match &mut self.watch {
                None => Ok(looked(&self.socket)),
                Some(watch) => has_byte(watch, left),
            };
            match has_byte {
                Ok(true) if message.is_some() => {}
                Ok(true) => return Came::Byte,
                Ok(false) => return Came::News,
                Err(_) => return Came::Nothing,
            }
        }
        Came::Nothing
    }

    fn end(&mut self) {
        self.alarm.set(false);
        if self.watch.is_none() {
            let _ = self.socket.set_read_timeout(None);
        }
    }
}

/// Whether there is something at the socket that is watched, within so much time.
fn has_byte(watch: &mut Watch, most: Duration) -> io::Result<bool> {
    Ok(watch.wait(most)? == socket_watch::Came::Byte)
}

/// Whether there is something at a socket, be it its end or its fault, by a look of 2 milliseconds at most.
fn looked(socket: &TcpStream) -> bool {
    let mut byte = [0u8; 1];
    match socket.peek(&mut byte) {
        Ok(_) => true,
        Err(error) => !matches!(
            error.kind(),
            io::ErrorKind::WouldBlock | io::ErrorKind::TimedOut
        ),
    }
}

/// When so much time will be over; none where the clock cannot be read.
fn end_of<C: Clock>(clock: &C, most: Duration) -> Option<Instant> {
    let now = Instant::now(clock).ok()?;
    now.checked_add(most)
}

/// How long it is until an end; none where it is over, or the clock cannot be read.
fn time_until<C: Clock>(clock: &C, end: Option<Instant>) -> Option<Duration> {
    let now = Instant::now(clock).ok()?;
    let left = end?.checked_duration_since(now)?;
    if left.is_zero() { None } else { Some(left) }
}
