//! A source that gives its bytes in pieces, and a sink that takes nothing.

ghost use Rattle.std.specs.Prelude.{None};

use devices::{Failed, Sink, Source};

/// Gives a text in pieces of at most so many bytes, and fails at one of its pulls, counted from 1.
#[derive(Drop)]
pub struct Pieces<'a> {
    rest: &'a [u8],
    size: usize,
    fails_at: u64,
    pub pulls: u64,
    pub ends_met: u64,
    pub failures: u64,
}

impl<'a> Pieces<'a> {
    pub fn of(text: &'a str, size: usize, fails_at: u64) -> Pieces<'a> {
        Pieces {
            rest: text.as_bytes(),
            size,
            fails_at,
            pulls: 0,
            ends_met: 0,
            failures: 0,
        }
    }

    /// How often it was pulled, how often it met its end, and how often it failed.
    pub fn counts(&self) -> (u64, u64, u64) {
        (self.pulls, self.ends_met, self.failures)
    }
}

impl Source for Pieces<'_> {
    ghost known = { λ s. record { pulls = s.pulls; ends_met = s.ends_met; failures = s.failures; left = None } };

    fn pull(&mut self, piece: &mut [u8]) -> Result<usize, Failed> {
        self.pulls = self.pulls.saturating_add(1);
        if self.pulls == self.fails_at {
            self.failures = self.failures.saturating_add(1);
            return Err(Failed);
        }
        let count = self.size.min(piece.len()).min(self.rest.len());
        piece[..count].copy_from_slice(&self.rest[..count]);
        self.rest = &self.rest[count..];
        if count == 0 && !piece.is_empty() {
            self.ends_met = self.ends_met.saturating_add(1);
        }
        Ok(count)
    }
}

/// Takes nothing.
#[derive(Drop)]
pub struct Broken {
    pub pushes: u64,
}

impl Sink for Broken {
    ghost known = { λ s. record { pushes = s.pushes; failures = s.pushes; held = None } };

    fn push_all(&mut self, _bytes: &[u8]) -> Result<(), Failed> {
        self.pushes = self.pushes.saturating_add(1);
        Err(Failed)
    }
}
