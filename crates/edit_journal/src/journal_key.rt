//! The key by which a journal hashes its edits.

ghost use Rattle.std.specs.Prelude.{◌≡◌};
ghost use Rattle.std.specs.Hash.DefaultHasher.{with_keys};

use core::hash::keyed_hasher;
use std::hash::{BuildHasher, DefaultHasher};

/// The two words of a key of SipHash-1-3 (Aumasson and Bernstein 2012), a keyed pseudorandom
/// function.
#[derive(Clone, Copy, Debug)]
pub struct JournalKey {
    key0: u64,
    key1: u64,
}

impl JournalKey {
    pub fn of_words(key0: u64, key1: u64) -> JournalKey
        ensures { result ≡ record { key0 = key0; key1 = key1 } }
    {
        JournalKey { key0, key1 }
    }
}

impl BuildHasher for JournalKey {
    type Hasher = DefaultHasher;

    ghost build_hasher = { λ key. with_keys key.key0 key.key1 };

    fn build_hasher(&self) -> DefaultHasher {
        keyed_hasher(self.key0, self.key1)
    }
}
