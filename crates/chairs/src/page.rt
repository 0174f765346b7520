//! Browsers' pages.

ghost use Rattle.std.specs.Prelude.{◌≡◌, ◌↔◌, IsTrue};
ghost use Rattle.chairs.specs.Pages.{chair_of};

/// What a page draws, and comes back by after a reload: 32 hexadecimal digits.
pub type PageKey = [u8; 32];

/// Where a page is given its seat.
#[derive(Clone, Copy)]
pub enum PagePlace {
    /// At this chair nobody sits.
    Free(usize),
    /// It is the page's own chair, at which it sits by an earlier socket. The caller ends that socket, and does not
    /// call `leave` for it.
    Own(usize),
}

impl PagePlace {
    /// The chair.
    pub fn chair(&self) -> usize
        ensures { result ≡ chair_of self.now }
    {
        match self {
            PagePlace::Free(at) | PagePlace::Own(at) => *at,
        }
    }
}

/// Whether two keys are one.
pub(crate) fn same_key(one: &PageKey, other: &PageKey) -> bool
    ensures { IsTrue result ↔ (one.now ≡ other.now) }
{
    one == other
}
