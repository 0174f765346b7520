//! Hashes with a key, for tables whose keys a sender may choose.
//!
//! A public hash lets a sender make up keys that all fall together, so that a table of them costs the
//! square of their number. Here each number of a key goes into a sum of products with numbers that a
//! sender does not know (NH, of UMAC: Black, Halevi, Krawczyk, Krovetz and Rogaway 1999).
#![tactic(auto)]

mod hasher;
mod key;
mod random;

pub use hasher::KeyedHasher;
pub use key::{HashKey, KEY_BYTES};
pub use random::RandomBytes;
