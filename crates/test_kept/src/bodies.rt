//! Bodies and their records, for tests.

use kept_devices::{Keep, Reopen};
use kept_log::{FindFault, Log, LogFault, Reopened, reopen};
use kept_records::{MOST_BODY, push_record};
use std::alloc::{AllocError, Global};

/// The delta of no edit under `23/3/2`.
pub static HEAD: &[u8] = b"GLWD\x01\x0623/3/2\0\0\0\0";

/// The delta of the edit of counter 1 by replica 65 that writes state 1 at 0 0.
pub static EDIT: &[u8] =
    b"GLWD\x01\x0623/3/2\0\0\0\x01\0\0\0\0\0\x01\0\x41\0\0\0\0\x01\x40\0\0\0\x40\0\0\0\x01";

/// Ten bodies: those two, one of no byte, and seven of up to 63 bytes.
pub fn ten(alloc: Global) -> Result<Vec<Vec<u8>>, AllocError> {
    let mut bodies = Vec::new(alloc);
    bodies.push(HEAD.to_vec(alloc)?)?;
    bodies.push(EDIT.to_vec(alloc)?)?;
    bodies.push(Vec::new(alloc))?;
    for number in 1..8u8 {
        bodies.push(filled(alloc, number)?)?;
    }
    Ok(bodies)
}

/// Nine bytes for each of a number, which go up by it and begin again.
fn filled(alloc: Global, number: u8) -> Result<Vec<u8>, AllocError> {
    let mut body = Vec::new(alloc);
    let mut byte = number;
    for _ in 0..9 * u32::from(number) {
        byte = byte.wrapping_mul(3).wrapping_add(number);
        body.push(byte)?;
    }
    Ok(body)
}

/// The records of bodies, one behind another; none of them where one is too long.
pub fn records(alloc: Global, bodies: &[Vec<u8>]) -> Result<Vec<u8>, AllocError> {
    let mut text = Vec::new(alloc);
    for body in bodies {
        if body.len() > MOST_BODY {
            return Err(AllocError);
        }
        push_record(&mut text, body)?;
    }
    Ok(text)
}

/// Where each record ends.
pub fn ends(alloc: Global, bodies: &[Vec<u8>]) -> Result<Vec<usize>, AllocError> {
    let mut ends = Vec::new(alloc);
    let mut end = 0usize;
    for body in bodies {
        end = end.saturating_add(20).saturating_add(body.len());
        ends.push(end)?;
    }
    Ok(ends)
}

/// How many of these are at most so much.
pub fn count_up_to(ends: &[usize], most: usize) -> usize {
    ends.iter().filter(|end| **end <= most).count()
}

/// The bodies from a place on, up to another.
pub fn part(bodies: &[Vec<u8>], from: usize, to: usize) -> &[Vec<u8>] {
    let to = to.min(bodies.len());
    &bodies[from.min(to)..to]
}

/// The first bytes of a text.
pub fn front(text: &[u8], len: usize) -> &[u8] {
    &text[..len.min(text.len())]
}

/// What stands behind these.
pub fn back(text: &[u8], len: usize) -> &[u8] {
    &text[len.min(text.len())..]
}

/// Whether some bodies are the first of others.
pub fn are_first(some: &[Vec<u8>], all: &[Vec<u8>]) -> bool {
    for place in 0..some.len() {
        match all.get(place) {
            Some(other) if other.as_slice() == some[place].as_slice() => {}
            _ => return false,
        }
    }
    true
}

/// Commits bodies, where none is too long.
pub fn commit<K: Keep>(
    alloc: Global,
    log: &mut Log<K>,
    bodies: &[Vec<u8>],
) -> Result<(), LogFault> {
    if bodies.iter().any(|body| body.len() > MOST_BODY) {
        return Err(LogFault::Memory);
    }
    log.commit(alloc, bodies)
}

/// Puts the head of a document into a file of no byte.
pub fn begin<K: Reopen>(alloc: Global, log: &mut Log<K>) -> Result<(), LogFault> {
    let head = HEAD;
    if head.len() > MOST_BODY {
        return Err(LogFault::Memory);
    }
    log.begin(alloc, head)
}

/// Opens a file of which it is not asked again.
pub fn opened<K: Reopen + Drop>(alloc: Global, keep: K) -> Result<Reopened<K>, FindFault> {
    match reopen(alloc, keep) {
        Ok(reopened) => Ok(reopened),
        Err((fault, _keep)) => Err(fault),
    }
}

/// The head and the bodies behind it.
pub fn listed(
    alloc: Global,
    head: &Option<Vec<u8>>,
    bodies: &[Vec<u8>],
) -> Result<Vec<Vec<u8>>, AllocError> {
    let mut all = Vec::new(alloc);
    if let Some(head) = head {
        all.push(head.to_vec(alloc)?)?;
    }
    for body in bodies {
        all.push(body.to_vec(alloc)?)?;
    }
    Ok(all)
}
