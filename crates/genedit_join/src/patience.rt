//! How long a server is awaited that says nothing.

ghost use Rattle.std.specs.Prelude.{◌≡◌};
ghost use Rattle.genedit_join.specs.Waiting.{has_waited, is_kept_after, step_after};

use crate::ahead::Polls;
use std::io;
use std::io::{ErrorKind, Read};
use std::net::TcpStream;
use std::sync::Arc;
use std::sync::atomic::{AtomicBool, Ordering};

/// For how many seconds a server is awaited, where the patience is limited.
pub(crate) const SECONDS: u64 = 10;

/// What is said once a second has passed without an answer.
const WAITING: &str = "genedit: waiting for the server";

/// Whether a server is awaited for ten seconds, or for as long as it takes. No clause speaks of it.
#[derive(Drop)]
pub(crate) struct Patience {
    is_limited: AtomicBool,
}

impl Patience {
    /// Ten seconds.
    pub(crate) fn limited() -> Patience {
        Patience {
            is_limited: AtomicBool::new(true),
        }
    }

    /// From here on a server is awaited for ten seconds.
    pub(crate) fn limit(&self) {
        self.is_limited.store(true, Ordering::SeqCst);
    }

    /// From here on it is for as long as it takes.
    pub(crate) fn unlimit(&self) {
        self.is_limited.store(false, Ordering::SeqCst);
    }

    fn is_limited(&self) -> bool {
        self.is_limited.load(Ordering::SeqCst)
    }
}

/// What is done once so many seconds have passed without an answer to a client's own reading.
#[derive(Clone, Copy, Debug, PartialEq, Eq)]
pub(crate) enum WaitStep {
    /// It is said that the server is awaited.
    Say,
    /// It is awaited further.
    Wait,
    /// It is awaited no longer.
    GiveUp,
}

/// What is done after so many seconds without an answer, where the patience is limited or is not.
pub(crate) fn step_after(seconds: u64, is_limited: bool) -> WaitStep
    ensures { result ≡ step_after seconds is_limited }
{
    if seconds == 1 {
        WaitStep::Say
    } else if is_limited && SECONDS <= seconds {
        WaitStep::GiveUp
    } else {
        WaitStep::Wait
    }
}

/// What comes from a server whose reads wait for a second at most: each is made again, and that it waits is
/// said once, until something comes, the patience is over, or what the client said and lent breaks off: a poll, or after
/// ten seconds an edit.
#[derive(Drop)]
pub(crate) struct PatientReader<R> {
    rt: R,
    stream: TcpStream,
    patience: Arc<Patience>,
    polls: Arc<Polls>,
}

impl<R> PatientReader<R> {
    pub(crate) fn new(
        rt: R,
        stream: TcpStream,
        patience: Arc<Patience>,
        polls: Arc<Polls>,
    ) -> PatientReader<R> {
        PatientReader {
            rt,
            stream,
            patience,
            polls,
        }
    }
}

impl<R: Eprint> Read for PatientReader<R> {
    fn read(&mut self, buf: &mut [u8]) -> io::Result<usize> {
        let mut seconds: u64 = 0;
        for _try in 0..u64::MAX {
            match self.stream.read(buf) {
                Err(error) if has_waited(error.kind()) => {
                    seconds = seconds.saturating_add(1);
                    let step = step_after(seconds, self.patience.is_limited());
                    if step == WaitStep::Say {
                        say_waiting(&self.rt);
                    }
                    let is_broken_off = self.polls.take_lent()
                        || is_kept_after(seconds) && self.polls.take_push();
                    if step == WaitStep::GiveUp || is_broken_off {
                        return Err(error);
                    }
                }
                given => {
                    self.polls.hear();
                    return given;
                }
            }
        }
        Err(io::Error::from(ErrorKind::TimedOut))
    }
}

/// Whether a read or a connection has only waited for as long as it may.
pub(crate) fn has_waited(kind: ErrorKind) -> bool
    ensures { result ≡ has_waited kind }
{
    kind == ErrorKind::WouldBlock || kind == ErrorKind::TimedOut
}

/// After how many seconds without an answer a board is written to a file.
pub(crate) fn is_kept_after(seconds: u64) -> bool
    ensures { result ≡ is_kept_after seconds }
{
    seconds == SECONDS
}

pub(crate) fn say_waiting<R: Eprint>(rt: &R) {
    let _ = rt.eprintln(WAITING);
}
