//! A chair.

ghost use Rattle.std.specs.Prelude.{◌≡◌, ◌↔◌, IsTrue, Some};
ghost use Rattle.chairs.specs.Turns.{turn_of};
ghost use Rattle.chairs.specs.Pages.{key_of};

use crate::leaving::Leaving;
use crate::page::{PageKey, same_key};

/// What is known of a chair.
#[derive(Clone, Copy)]
pub enum Chair {
    /// Nobody has sat there yet.
    Fresh,
    /// Somebody sits there: a page by its key, or a connection, which has none.
    Taken(Option<PageKey>),
    /// Whoever sat there has left it.
    Left(Leaving),
}

impl Chair {
    /// When its turn comes to be given to whoever has no chair of their own, if it does: first what is fresh, then what
    /// was left, in that order, but for what is kept for a page.
    pub(crate) fn turn(&self, now: u64) -> Option<u64>
        ensures { result ≡ turn_of now self.now }
    {
        match self {
            Chair::Fresh => Some(0),
            Chair::Taken(_) => None,
            Chair::Left(leaving) if leaving.is_kept(now) => None,
            Chair::Left(leaving) => Some(leaving.number),
        }
    }

    /// Whether a page's key is at it: the page sits there, or was the last to leave it.
    pub(crate) fn has_key(&self, key: &PageKey) -> bool
        ensures { IsTrue result ↔ (key_of self.now ≡ Some key.now) }
    {
        match self.key() {
            None => false,
            Some(own) => same_key(&own, key),
        }
    }

    /// The key that is at it, if there is one.
    fn key(&self) -> Option<PageKey>
        ensures { result ≡ key_of self.now }
    {
        match self {
            Chair::Fresh => None,
            Chair::Taken(page) => *page,
            Chair::Left(leaving) => leaving.page,
        }
    }
}
