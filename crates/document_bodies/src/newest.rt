//! The newest counters that were seen.

ghost use Rattle.std.specs.Prelude.{◌≡◌, ◌<◌, ◌↔◌, ℕ, false, IfOk, IsTrue};
ghost use Rattle.edit_stamps.specs.Stamp.{counter_in, replica_in};
ghost use Rattle.document_bodies.specs.Counters.{HaveSeen, counter_of};

use edit_stamps::Stamp;
use std::alloc::{AllocError, Global};
use std::marker::Model;

/// How many replicas there are, the number 0 included, which is no replica's.
const REPLICAS: usize = 1 << 16;

/// The greatest counter of each replica among the stamps that were seen: half a megabyte, in which a
/// counter is found by its replica's number alone.
#[derive(Drop)]
pub struct Newest {
    counters: Vec<u64>,
}

impl Model for Newest {
    ghost use Rattle.std.specs.Prelude.{◌≡◌, ◌^◌, ℕ, List, length};

    ghost Value = { List ℕ };

    ghost view = { λ newest. newest.counters.items };

    ghost invariant = { λ newest. length newest.counters.items ≡ 2 ^ 16 };
}

impl Newest {
    /// No stamp was seen: each counter is 0.
    pub fn new(alloc: Global) -> Result<Newest, AllocError>
        ensures { IfOk result (λ newest. (replica : ℕ) → counter_of newest replica ≡ 0) }
    {
        Ok(Newest {
            counters: vec![in alloc; 0; REPLICAS]?,
        })
    }

    /// The greatest counter of a replica; 0 where none was seen.
    pub fn of(&self, replica: u16) -> u64
        ensures { result ≡ counter_of self.now replica }
    {
        self.counters[usize::from(replica)]
    }

    /// Sees a stamp: whether its counter is above that of its replica. Then it is its replica's, and else
    /// nothing changes.
    pub fn see(&mut self, stamp: Stamp) -> bool
        ensures newer { IsTrue result ↔ (counter_of self.old (replica_in stamp) < counter_in stamp) }
        ensures seen { HaveSeen self.old stamp self.new }
        ensures same { result ≡ false → self.new ≡ self.old }
    {
        let replica = usize::from(stamp.replica());
        if stamp.counter() <= self.counters[replica] {
            return false;
        }
        self.counters[replica] = stamp.counter();
        true
    }
}
