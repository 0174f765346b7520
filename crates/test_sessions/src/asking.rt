//! A source that gives a request only once the reply to the one before has gone out.

ghost use Rattle.std.specs.Prelude.{None};

use crate::hubs::{NOTHING, hub_of};
use crate::texts::bytes_of;
use devices::{Failed, Sink, Source};
use frame_service::{ServeFault, Served};
use replica_sessions::Session;
use session_service::{Unheard, serve};
use std::alloc::{AllocError, Global};
use std::sync::atomic::{AtomicU64, Ordering};
use std::test::Fail;
use std::thread::Threads;

/// A request in its frame, and how many frames must have gone out before it is given.
#[derive(Drop)]
struct Asked {
    bytes: Vec<u8>,
    replies: u64,
}

/// Gives one request a pull, and then its end; it fails where the replies to those before have not gone out.
#[derive(Drop)]
struct Asking<'a> {
    rest: &'a [Asked],
    gone_out: &'a AtomicU64,
    pulls: u64,
    ends_met: u64,
    failures: u64,
}

impl<'a> Asking<'a> {
    fn of(requests: &'a [Asked], gone_out: &'a AtomicU64) -> Asking<'a> {
        Asking {
            rest: requests,
            gone_out,
            pulls: 0,
            ends_met: 0,
            failures: 0,
        }
    }

    /// Whether the next request, or the end, may be given.
    fn is_due(&self) -> bool {
        match self.rest.first() {
            Some(request) => self.gone_out.load(Ordering::SeqCst) == request.replies,
            None => true,
        }
    }

    /// The next request, or no bytes where there is none.
    fn next(&self) -> &[u8] {
        match self.rest.first() {
            Some(request) => &request.bytes,
            None => &[],
        }
    }
}

impl Source for Asking<'_> {
    ghost known = { λ s. record { pulls = s.pulls; ends_met = s.ends_met; failures = s.failures; left = None } };

    fn pull(&mut self, piece: &mut [u8]) -> Result<usize, Failed> {
        self.pulls = self.pulls.saturating_add(1);
        if !self.is_due() {
            self.failures = self.failures.saturating_add(1);
            return Err(Failed);
        }
        let request = self.next();
        let count = request.len().min(piece.len());
        piece[..count].copy_from_slice(&request[..count]);
        self.rest = &self.rest[1.min(self.rest.len())..];
        if count == 0 && !piece.is_empty() {
            self.ends_met = self.ends_met.saturating_add(1);
        }
        Ok(count)
    }
}

/// Counts the frames that go out.
#[derive(Drop)]
struct Counter<'a> {
    gone_out: &'a AtomicU64,
    pushes: u64,
}

impl Sink for Counter<'_> {
    ghost known = { λ s. record { pushes = s.pushes; failures = 0; held = None } };

    fn push_all(&mut self, _bytes: &[u8]) -> Result<(), Failed> {
        self.pushes = self.pushes.saturating_add(1);
        self.gone_out.fetch_add(1, Ordering::SeqCst);
        Ok(())
    }
}

/// A greeting, a push, a poll, which is answered by two frames, a poll, and a farewell.
static REQUESTS: [(&str, u64); 5] = [
    ("00000001 01", 0),
    (
        "00000025 02 474c5744 01 04 2f322f33 00000001 0000000000010001 00 00000001 40000000 40000000 01",
        1,
    ),
    ("00000001 03", 2),
    ("00000001 03", 4),
    ("00000001 06", 5),
];

fn requests(alloc: Global) -> Result<Vec<Asked>, AllocError> {
    let mut requests = Vec::new(alloc);
    for (text, replies) in REQUESTS {
        let bytes = bytes_of(alloc, text)?;
        requests.push(Asked { bytes, replies })?;
    }
    Ok(requests)
}

/// How a service ends that is asked so, and how many frames went out.
fn ended<R: Threads + Sync + Drop>(
    rt: R,
    alloc: Global,
) -> Result<(Result<Served, ServeFault>, u64), Fail> {
    let requests = requests(alloc)?;
    let gone_out = AtomicU64::new(0);
    let mut session = Session::new(rt, alloc, hub_of(alloc, NOTHING)?);
    let mut source = Asking::of(&requests, &gone_out);
    let mut sink = Counter {
        gone_out: &gone_out,
        pushes: 0,
    };
    let end = serve(&mut source, &mut sink, &mut session, &mut Unheard);
    Ok((end, gone_out.load(Ordering::SeqCst)))
}

#[test]
fn a_request_is_answered_before_the_next_pull(rt: HostRuntime) -> Result<(), Fail> {
    let end = Ok(Served {
        requests: 5,
        bye: true,
    });
    assert_eq!(rt; ended(rt, rt.alloc())?, (end, 6));
    Ok(())
}
