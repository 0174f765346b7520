//! Keys: how they are drawn, and what is made by one keeps it.

use crate::telling::{blank, brians_brain};
use delta_exchange::{ReadFault, read_within, write_state};
use generations_rule::Rule;
use keyed_hash::{HashKey, KEY_BYTES, RandomBytes};
use replica_core::Replica;
use stamped_tree::{Limits, Plane};
use std::alloc::{AllocError, Global};
use std::io;
use std::random::RandomSource;
use std::test::Fail;

/// A source that gives nothing.
#[derive(Drop)]
struct Dry;

impl RandomSource for Dry {
    fn fill_bytes(&self, _buf: &mut [u8]) -> io::Result<()> {
        Err(io::Error::from(io::ErrorKind::Other))
    }
}

/// Eight bytes of 7, as a number.
const SEVENS: u64 = 0x0707_0707_0707_0707;

#[test]
fn a_key_is_made_of_what_the_source_gives(rt: HostRuntime) -> Result<(), Fail> {
    let bytes = [7; KEY_BYTES + 1];
    let mut left = &bytes[..];
    let key = HashKey::drawn(&mut left).ok().ok_or("key")?;
    assert_eq!(rt; key.pair(), (SEVENS, SEVENS));
    assert_eq!(rt; left.len(), 1);
    assert!(rt; HashKey::drawn(&mut &bytes[2..]).is_err());
    assert!(rt; HashKey::drawn(&mut RandomBytes::of(Dry)).is_err());
    Ok(())
}

#[test]
fn two_keys_of_the_system_differ(rt: HostRuntime) -> Result<(), Fail> {
    let one = HashKey::drawn(&mut RandomBytes::of(rt)).ok().ok_or("key")?;
    let other = HashKey::drawn(&mut RandomBytes::of(rt)).ok().ok_or("key")?;
    assert!(rt; one.pair() != other.pair());
    assert!(rt; one.pair() != HashKey::fixed().pair());
    Ok(())
}

/// The two numbers of the key by which a plane finds its squares.
fn pair_of(plane: &Plane) -> (u64, u64) {
    plane.key().pair()
}

/// Those of a plane that is read by a key.
fn pair_read(alloc: Global, rule: &Rule, key: HashKey) -> Result<Option<(u64, u64)>, ReadFault> {
    let text = unwritten(alloc, rule)?;
    let message = read_within(alloc, rule, &text, Limits { room: 9, key })?;
    Ok(message.plane().map(pair_of))
}

/// The state of the plane where nothing was written.
fn unwritten(alloc: Global, rule: &Rule) -> Result<Vec<u8>, AllocError> {
    write_state(alloc, rule, &blank(alloc, rule)?)
}

/// No result depends on a key, so contracts do not tell which one is kept.
#[test]
fn what_is_made_by_a_key_keeps_it(rt: HostRuntime) -> Result<(), Fail> {
    let alloc = rt.alloc();
    let rule = brians_brain()?;
    let key = HashKey::of_bytes(&[7; KEY_BYTES]);
    let limits = Limits { room: 9, key };
    let pair = (SEVENS, SEVENS);
    let plane = Plane::within(alloc, limits)?;
    assert_eq!(rt; pair_of(&plane), pair);
    assert_eq!(rt; pair_of(&plane.copy()?), pair);
    assert_eq!(rt; pair_read(alloc, &rule, key)?, Some(pair));
    let replica = Replica::within(alloc, rule, 1, limits)?;
    assert_eq!(rt; pair_of(replica.plane()), pair);
    Ok(())
}
