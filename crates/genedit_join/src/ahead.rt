//! Polls and edits whose answers are awaited while the board is at hand.

ghost use Rattle.std.specs.Prelude.{◌≡◌};
ghost use Rattle.genedit_join.specs.Waiting.{is_of_kind};
ghost use Rattle.devices.specs.Count.{one_more};

use crate::patience::has_waited;
use devices::{Failed, Sink};
use std::io;
use std::io::Write;
use std::net::TcpStream;
use std::sync::Arc;
use std::sync::atomic::{AtomicBool, Ordering};

/// A poll in its frame.
const POLL: &[u8] = b"\x00\x00\x00\x01\x03";

/// The kind of a push.
const PUSH: u8 = 2;

/// The kind of a poll that waits.
const AWAIT: u8 = 8;

/// What the ends of a connection know of its polls. No clause speaks of it.
#[derive(Drop)]
pub(crate) struct Polls {
    /// A poll was asked ahead that the client has not said yet.
    is_ahead: AtomicBool,
    /// What the client said last is a poll, and nothing came since.
    is_open: AtomicBool,
    /// The client lends a poll that is open: it may be taken for one that was asked ahead.
    is_lent: AtomicBool,
    /// What the client said last is an edit, and nothing came since.
    is_pushed: AtomicBool,
    /// The client lends an edit that is open: its answer may be awaited by another.
    is_push_lent: AtomicBool,
    /// A poll that waits was said, and nothing came since.
    is_awaited: AtomicBool,
}

impl Polls {
    pub(crate) fn none() -> Polls {
        Polls {
            is_ahead: AtomicBool::new(false),
            is_open: AtomicBool::new(false),
            is_lent: AtomicBool::new(false),
            is_pushed: AtomicBool::new(false),
            is_push_lent: AtomicBool::new(false),
            is_awaited: AtomicBool::new(false),
        }
    }

    /// The client says a poll: whether it was asked ahead. The next was not.
    fn say(&self) -> bool {
        self.is_open.store(true, Ordering::SeqCst);
        self.is_ahead.swap(false, Ordering::SeqCst)
    }

    /// Something came.
    pub(crate) fn hear(&self) {
        self.is_open.store(false, Ordering::SeqCst);
        self.is_pushed.store(false, Ordering::SeqCst);
        self.is_awaited.store(false, Ordering::SeqCst);
    }

    /// The client says something that is no poll that was asked ahead.
    fn note(&self, frame: &[u8]) {
        self.is_pushed
            .store(is_of_kind(frame, PUSH), Ordering::SeqCst);
        if is_of_kind(frame, AWAIT) {
            self.is_awaited.store(true, Ordering::SeqCst);
        }
    }

    /// Takes an edit that is open and lent; whether there is such an edit.
    pub(crate) fn take_push(&self) -> bool {
        let is_taken = self.is_pushed.load(Ordering::SeqCst)
            && self.is_push_lent.swap(false, Ordering::SeqCst);
        if is_taken {
            self.is_pushed.store(false, Ordering::SeqCst);
        }
        is_taken
    }

    /// Takes a poll that is open and lent for one that was asked ahead; whether there is such a poll.
    pub(crate) fn take_lent(&self) -> bool {
        let is_taken = self.is_open.load(Ordering::SeqCst)
            && self.is_lent.swap(false, Ordering::SeqCst);
        if is_taken {
            self.is_open.store(false, Ordering::SeqCst);
            self.is_ahead.store(true, Ordering::SeqCst);
        }
        is_taken
    }
}

/// Where what is said to the server goes. A poll that was asked ahead is not said again.
#[derive(Drop)]
pub(crate) struct SayingSink {
    stream: TcpStream,
    polls: Arc<Polls>,
    pushes: u64,
    failures: u64,
}

impl SayingSink {
    pub(crate) fn new(stream: TcpStream, polls: Arc<Polls>) -> SayingSink {
        SayingSink {
            stream,
            polls,
            pushes: 0,
            failures: 0,
        }
    }
}

impl Sink for SayingSink {
    ghost use Rattle.std.specs.Prelude.{None};

    ghost known = { λ s. record { pushes = s.pushes; failures = s.failures; held = None } };

    fn push_all(&mut self, bytes: &[u8]) -> Result<(), Failed> {
        count(&mut self.pushes);
        if bytes == POLL && self.polls.say() {
            return Ok(());
        }
        self.polls.note(bytes);
        match self.stream.write_all(bytes) {
            Ok(()) => Ok(()),
            Err(_) => {
                count(&mut self.failures);
                Err(Failed)
            }
        }
    }
}

/// Counts one more; a count stays at the greatest number that it can hold.
fn count(n: &mut u64)
    ensures { n.new ≡ one_more n.old }
{
    *n = n.saturating_add(1);
}

/// Whether a frame is a request of a kind.
fn is_of_kind(frame: &[u8], kind: u8) -> bool
    ensures { result ≡ is_of_kind frame.now kind }
{
    match frame.get(4) {
        Some(said) => *said == kind,
        None => false,
    }
}

/// What asks ahead.
#[derive(Drop)]
pub(crate) struct Ahead {
    stream: TcpStream,
    polls: Arc<Polls>,
}

impl Ahead {
    pub(crate) fn new(stream: TcpStream, polls: Arc<Polls>) -> Ahead {
        Ahead { stream, polls }
    }

    /// Asks for a poll, unless one is asked for already. Where that fails the client's own will.
    pub(crate) fn ask(&self) -> io::Result<()> {
        if !self.is_asked() {
            let mut stream = &self.stream;
            stream.write_all(POLL)?;
            self.polls.is_ahead.store(true, Ordering::SeqCst);
        }
        Ok(())
    }

    /// Whether a poll was asked for that the client has not said yet.
    pub(crate) fn is_asked(&self) -> bool {
        self.polls.is_ahead.load(Ordering::SeqCst)
    }

    /// Waits for a second at most: whether something has come by then, be it the end.
    pub(crate) fn has_come(&self) -> bool {
        let mut first = [0u8; 1];
        match self.stream.peek(&mut first) {
            Ok(_) => true,
            Err(error) => !has_waited(error.kind()),
        }
    }

    /// From here on a poll of the client whose answer does not begin within a second breaks off what the
    /// client does, and is then one that was asked ahead.
    pub(crate) fn lend(&self) {
        self.polls.is_lent.store(true, Ordering::SeqCst);
    }

    /// No longer so: whether that happened.
    pub(crate) fn was_lent(&self) -> bool {
        !self.polls.is_lent.swap(false, Ordering::SeqCst)
    }

    /// From here on an edit of the client whose answer does not begin within ten seconds breaks off what the
    /// client does.
    pub(crate) fn lend_push(&self) {
        self.polls.is_push_lent.store(true, Ordering::SeqCst);
    }

    /// No longer so: whether that happened.
    pub(crate) fn was_push_lent(&self) -> bool {
        !self.polls.is_push_lent.swap(false, Ordering::SeqCst)
    }

    /// Whether the reply to a poll that waits is still to come, before that of what was said behind it.
    pub(crate) fn is_awaited(&self) -> bool {
        self.polls.is_awaited.load(Ordering::SeqCst)
    }
}
