//! Records, read.

ghost use Rattle.std.specs.Prelude.{◌≡◌, ◌≤◌, ◌+◌, ◌-◌, ◌++◌, ◌^◌, ◌↔◌, ℕ, length, take, drop, map, IfSome, IfOk, IsTrue, None};
ghost use Rattle.kept_records.specs.Records.{AreRead, BeginsNone, IsBody, IsNextWhole, full, head_text, lack_at, record_text, records_text, size_at};

use crate::writing::{HEAD_BYTES, MOST_BODY, head_of};
use std::alloc::{AllocError, Global};

/// The body of the record that stands at the front, and the bytes behind it; nothing where none stands.
///
/// It looks at eight bytes where these are no length and what that lacks, and else at the whole body.
pub fn next_record(bytes: &[u8]) -> Option<(&[u8], &[u8])>
    ensures some { IfSome result (λ p. IsBody p.0.now × (bytes.now ≡ record_text p.0.now ++ p.1.now)) }
    ensures none { result ≡ None → BeginsNone bytes.now }
{
    if bytes.len() < HEAD_BYTES {
        return None;
    }
    let (head, behind) = bytes.split_at(HEAD_BYTES);
    let size = size_at(head);
    if size > MOST_BODY || size > behind.len() {
        return None;
    }
    if !tells_lack(head, size) {
        return None;
    }
    let (body, rest) = behind.split_at(size);
    if !is_head(head, body) {
        return None;
    }
    Some((body, rest))
}

/// The bodies of the records from the front on, up to where none begins, and how many bytes these have.
pub fn read_records(alloc: Global, bytes: &[u8]) -> Result<(Vec<Vec<u8>>, usize), AllocError>
    ensures read { IfOk result (λ r. AreRead bytes.now (map (λ v. v.items) r.0.items) (drop r.1 bytes.now)) }
    ensures whole { IfOk result (λ r. (r.1 ≤ length bytes.now) × (records_text (map (λ v. v.items) r.0.items) ≡ take r.1 bytes.now)) }
{
    let mut bodies = Vec::new(alloc);
    let mut rest = bytes;
    while let Some((body, behind)) = next_record(rest) {
        bodies.push(body.to_vec(alloc)?)?;
        rest = behind;
    }
    Ok((bodies, bytes.len() - rest.len()))
}

/// The first record that begins at a place from `from` on, counted from 0: where it begins, and its body. So
/// whole records are found behind damage, wherever they stand. Bytes within a body may look like a record:
/// where one is found, the search goes on behind it, at `start + 20 + body.len()`.
///
/// Each place costs eight bytes, and where these are a length and what that lacks, the body too. So records
/// and bytes by chance cost what they have bytes, while bytes made up for the purpose may cost a body of
/// 2^24 bytes at each third place.
pub fn next_whole(bytes: &[u8], from: usize) -> Option<(usize, &[u8])>
    ensures some { IfSome result (λ p. IsNextWhole bytes.now from p.0 p.1.now) }
    ensures within { IfSome result (λ p. p.0 + 20 + length p.1.now ≤ length bytes.now) }
    ensures none { result ≡ None → (n : ℕ) → from ≤ n → BeginsNone (drop n bytes.now) }
{
    for start in from..bytes.len() {
        let (_, rest) = bytes.split_at(start);
        if let Some((body, _)) = next_record(rest) {
            return Some((start, body));
        }
    }
    None
}

/// The length that a head tells.
#[tactic(auto, unfolding(crate::specs::Records::size_at))]
fn size_at(head: &[u8]) -> usize
    requires { length head.now ≡ 20 }
    ensures { result ≡ size_at head.now }
{
    u32::from_be_bytes([head[0], head[1], head[2], head[3]]) as usize
}

/// Whether a head tells behind a length what that lacks of 2^32 - 1.
#[tactic(auto, unfolding(crate::specs::Records::lack_at))]
fn tells_lack(head: &[u8], size: usize) -> bool
    requires head { length head.now ≡ 20 }
    requires size { size ≤ 2 ^ 24 }
    ensures { IsTrue result ↔ (lack_at head.now ≡ full - size) }
{
    u32::from_be_bytes([head[4], head[5], head[6], head[7]]) == u32::MAX - size as u32
}

/// Whether a head is that of a body.
fn is_head(head: &[u8], body: &[u8]) -> bool
    requires { length body.now ≤ 2 ^ 24 }
    ensures { IsTrue result ↔ (head.now ≡ head_text body.now) }
{
    head == head_of(body).as_slice()
}
