//! Edits of the client's own that the board has.

ghost use Rattle.std.specs.Prelude.{◌≡◌, IsTrue};
ghost use Rattle.board_client.specs.Hearing.{IsTaken};

use crate::pushed::Pushed;
use crate::server::Server;
use devices::{Sink, Source};
use replica_core::Replica;
use std::time::Clock;

/// An edit that the board has, and its place in the journal of the replica that took it.
#[derive(Drop)]
pub(crate) struct Own {
    pub(crate) pushed: Pushed,
    pub(crate) place: usize,
}

impl<'a, C: Clock, S: Source + Drop, K: Sink + Drop> Server<'a, C, S, K> {
    /// Keeps an edit, to know it as it comes back. One for which there is no memory is taken again then.
    pub(crate) fn keep_own(&mut self, own: Own)
        ensures { self.new ≡ self.old }
    {
        let _kept = self.own.push_back(own);
    }

    /// Whether a text is that of the own edit that comes back next, and a replica has taken it.
    pub(crate) fn is_own(&self, replica: &Replica, text: &[u8]) -> bool
        ensures { IsTrue result → IsTaken replica.now text.now replica.now }
    {
        match self.own.front() {
            Some(own) => own.pushed.is_taken_already(replica, own.place, text),
            None => false,
        }
    }

    /// Forgets the own edit that came back.
    pub(crate) fn forget_own(&mut self)
        ensures { self.new ≡ self.old }
    {
        let _back = self.own.pop_front();
    }

    /// Forgets all of them: a whole plane has those that the board published, so that none of these comes back. One
    /// that was published behind it comes, and is taken again.
    pub(crate) fn forget_all_own(&mut self)
        ensures { self.new ≡ self.old }
    {
        self.own.clear();
    }
}
