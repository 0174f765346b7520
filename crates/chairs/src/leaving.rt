//! How a chair was left.

ghost use Rattle.std.specs.Prelude.{◌≡◌};
ghost use Rattle.chairs.specs.Turns.{is_kept};

use crate::page::PageKey;

/// How long a chair that a page left is kept for it, in milliseconds.
pub const KEPT: u64 = 10_000;

/// How a chair was left by whoever sat there.
#[derive(Clone, Copy)]
pub struct Leaving {
    /// It was left as the so-manieth, counted from 1. From 2^64 - 1 on all have that number.
    pub number: u64,
    /// When it was left, in milliseconds of the caller's clock.
    pub time: u64,
    /// The page that left it; none for a connection.
    pub page: Option<PageKey>,
}

impl Leaving {
    /// Whether the chair is kept for the page that left it. A clock that was set back has the page have left just now.
    pub(crate) fn is_kept(&self, now: u64) -> bool
        ensures { result ≡ is_kept now self.now }
    {
        self.page.is_some() && now.saturating_sub(self.time) < KEPT
    }
}
