//! Records, written.

ghost use Rattle.std.specs.Prelude.{◌≡◌, ◌≤◌, ◌++◌, ◌^◌, length, OnErr, OnOk};
ghost use Rattle.std.specs.List.{sum};
ghost use Rattle.kept_records.specs.Records.{IsBody, digest, head_text, record_text};

use std::alloc::AllocError;
use std::hash::{DefaultHasher, Hasher};

/// How many bytes a head has.
pub const HEAD_BYTES: usize = 20;

/// The greatest number of bytes of a body.
pub const MOST_BODY: usize = 1 << 24;

/// Puts a record behind others: a head of 20 bytes, and the body, which has at most 2^24. Where memory is
/// refused `out` stays as it was.
pub fn push_record(out: &mut Vec<u8>, body: &[u8]) -> Result<(), AllocError>
    requires { length body.now ≤ 2 ^ 24 }
    ensures put { OnOk result (out.new.items ≡ out.old.items ++ record_text body.now) }
    ensures same { OnErr result (out.new.items ≡ out.old.items) }
    ensures body { IsBody body.now }
{
    let before = out.len();
    out.extend_from_slice(&head_of(body))?;
    let added = out.extend_from_slice(body);
    if added.is_err() {
        out.truncate(before);
    }
    added
}

/// The head of a body.
#[tactic(auto, unfolding(crate::specs::Records::head_text))]
pub(crate) fn head_of(body: &[u8]) -> [u8; 20]
    requires { length body.now ≤ 2 ^ 24 }
    ensures { result ≡ head_text body.now }
{
    let [a, b, c, d] = (body.len() as u32).to_be_bytes();
    let [e, f, g, h] = (u32::MAX - body.len() as u32).to_be_bytes();
    let [i, j, k, l] = (u32::MAX - sum_of(body)).to_be_bytes();
    let [m, n, o, p, q, r, s, t] = digest_of(body).to_be_bytes();
    [a, b, c, d, e, f, g, h, i, j, k, l, m, n, o, p, q, r, s, t]
}

/// The sum of a body's bytes.
fn sum_of(body: &[u8]) -> u32
    requires { length body.now ≤ 2 ^ 24 }
    ensures { result ≡ sum body.now }
{
    let mut total = 0u32;
    for byte in body {
        total += u32::from(*byte);
    }
    total
}

/// SipHash-1-3 under the key 0 0.
fn digest_of(body: &[u8]) -> u64
    ensures { result ≡ digest body.now }
{
    let mut hasher = DefaultHasher::new();
    hasher.write(body);
    hasher.finish()
}
