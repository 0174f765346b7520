//! Sources that give their bytes in pieces, or for ever, and a sink, which fail at one of their calls,
//! counted from 1, and at no other.

ghost use Rattle.std.specs.Prelude.{None};

use devices::{Failed, Sink, Source};
use std::alloc::Global;

/// Gives bytes in pieces of at most so many, and then its end.
#[derive(Drop)]
pub struct Pieces<'a> {
    rest: &'a [u8],
    size: usize,
    fails_at: u64,
    pulls: u64,
    ends_met: u64,
    failures: u64,
}

impl<'a> Pieces<'a> {
    pub fn of(bytes: &'a [u8], size: usize, fails_at: u64) -> Pieces<'a> {
        Pieces {
            rest: bytes,
            size,
            fails_at,
            pulls: 0,
            ends_met: 0,
            failures: 0,
        }
    }
}

impl Source for Pieces<'_> {
    ghost known = { λ s. record { pulls = s.pulls; ends_met = s.ends_met; failures = s.failures; left = None } };

    fn pull(&mut self, piece: &mut [u8]) -> Result<usize, Failed> {
        self.pulls = self.pulls.saturating_add(1);
        if self.pulls == self.fails_at {
            self.failures = self.failures.saturating_add(1);
            return Err(Failed);
        }
        let count = self.size.min(piece.len()).min(self.rest.len());
        piece[..count].copy_from_slice(&self.rest[..count]);
        self.rest = &self.rest[count..];
        if count == 0 && !piece.is_empty() {
            self.ends_met = self.ends_met.saturating_add(1);
        }
        Ok(count)
    }
}

/// A greeting in its frame.
static GREETING: [u8; 5] = [0, 0, 0, 1, 1];

/// Gives greetings for ever, in pieces of at most so many bytes.
#[derive(Drop)]
pub struct Greetings {
    given: usize,
    size: usize,
    pulls: u64,
    ends_met: u64,
}

impl Greetings {
    pub fn of(size: usize) -> Greetings {
        Greetings {
            given: 0,
            size,
            pulls: 0,
            ends_met: 0,
        }
    }
}

impl Source for Greetings {
    ghost known = { λ s. record { pulls = s.pulls; ends_met = s.ends_met; failures = 0; left = None } };

    fn pull(&mut self, piece: &mut [u8]) -> Result<usize, Failed> {
        self.pulls = self.pulls.saturating_add(1);
        let count = self.size.min(piece.len());
        greet(&mut piece[..count], self.given);
        self.given = self.given.wrapping_add(count) % 5;
        if count == 0 && !piece.is_empty() {
            self.ends_met = self.ends_met.saturating_add(1);
        }
        Ok(count)
    }
}

/// Fills a piece with greetings, from a byte of the first on.
fn greet(piece: &mut [u8], given: usize) {
    for (place, byte) in piece.iter_mut().enumerate() {
        *byte = GREETING[given.wrapping_add(place) % 5];
    }
}

/// Keeps what is pushed, and fails at one of its pushes, of which it keeps so many bytes.
#[derive(Drop)]
pub struct Keeper {
    pub bytes: Vec<u8>,
    pub pushes: u64,
    fails_at: u64,
    part: usize,
    failures: u64,
}

impl Keeper {
    pub fn new(alloc: Global, fails_at: u64, part: usize) -> Keeper {
        Keeper {
            bytes: Vec::new(alloc),
            pushes: 0,
            fails_at,
            part,
            failures: 0,
        }
    }
}

impl Sink for Keeper {
    ghost known = { λ s. record { pushes = s.pushes; failures = s.failures; held = None } };

    fn push_all(&mut self, bytes: &[u8]) -> Result<(), Failed> {
        self.pushes = self.pushes.saturating_add(1);
        let fails = self.pushes == self.fails_at;
        let most = if fails { self.part } else { usize::MAX };
        let part = most.min(bytes.len());
        if self.bytes.extend_from_slice(&bytes[..part]).is_err() || fails {
            self.failures = self.failures.saturating_add(1);
            return Err(Failed);
        }
        Ok(())
    }
}
