//! Files as they are found, read and not changed.

ghost use Rattle.std.specs.Prelude.{◌≡◌, ◌≢◌, ◌≤◌, ℕ, Bool, List, [], length, drop, false, None, Err, IfErr, IfOk, OnOk};
ghost use Rattle.devices.specs.Count.{failures_after};
ghost use Rattle.kept_records.specs.Records.{BeginsNone};
ghost use Rattle.kept_log.specs.Found.{AreReady, HasNoRecord, IsFound, IsReadTo, Sees, Shows, listed};
ghost use Rattle.kept_log.specs.FindFaults.{failures_of_find};
ghost use Rattle.kept_log.specs.Kept.{Always, Leaves, LeavesNow};

use kept_devices::{Failed, Reopen};
use kept_records::{next_record, read_records};
use std::alloc::{AllocError, Global};

/// Why a file was not read.
#[derive(Clone, Copy, Debug, PartialEq, Eq)]
pub enum FindFault {
    /// Memory was refused.
    Memory,
    /// The file failed.
    Failed,
    /// It has bytes, and no record begins them: it is no file of records, and is not to be changed.
    NoRecord,
}

impl From<AllocError> for FindFault {
    ghost use Rattle.std.specs.Prelude.{◌≡◌};
    ghost use Rattle.kept_log.specs.declared.finding.FindFault.TheVariants.{Memory};

    ghost from_gives = { λ _ fault. fault ≡ Memory };

    fn from(_error: AllocError) -> FindFault {
        FindFault::Memory
    }
}

/// What was read of a file.
#[derive(Drop)]
pub struct Parts {
    /// The first body; none in a file of no byte.
    pub head: Option<Vec<u8>>,
    /// The bodies behind it.
    pub bodies: Vec<Vec<u8>>,
    /// How many bytes the whole records have.
    pub whole: usize,
}

/// A file that was read and not changed, but for a sync. Nothing of it is to be told as kept before it is
/// settled.
#[derive(Drop)]
pub struct Found<K: Reopen> {
    pub keep: K,
    /// All its bytes.
    pub bytes: Vec<u8>,
    pub parts: Parts,
    /// Whether a sync of it failed before, so that a copy of the records is to take its place.
    pub is_doubtful: bool,
}

impl<K: Reopen> Found<K> {
    /// The bytes behind the last whole record.
    pub fn end(&self) -> &[u8]
        requires { self.now.parts.whole ≤ length self.now.bytes.items }
        ensures { result.now ≡ drop self.now.parts.whole self.now.bytes.items }
    {
        &self.bytes[self.parts.whole..]
    }
}

/// Reads the records of a file as another process left it, up to where none begins. It is synced first, so
/// that a crash cannot take back what is read; where that may not help, the file is told as doubtful. Where
/// it is not read the file is handed back, and holds what it held.
pub fn find<K: Reopen>(alloc: Global, keep: K) -> Result<Found<K>, (FindFault, K)>
    ensures found { IfOk result (λ f. IsFound (K.known f.keep) f.is_doubtful f.bytes.items (listed f.parts.head f.parts.bodies.items) f.parts.whole) }
    ensures shows { IfOk result (λ f. Shows f.bytes.items (K.known keep)) }
    ensures head { IfOk result (λ f. f.parts.head ≡ None → (f.bytes.items ≡ []) × (f.parts.bodies.items ≡ [])) }
    ensures none { IfErr result (λ e. e.0 ≡ FindFault.NoRecord → HasNoRecord (K.known keep)) }
    ensures crash { (kept : List (List ℕ)) (all : List (List ℕ)) → LeavesNow kept all (K.known keep) → IfOk result (λ f. Always (Leaves kept all) (K.known keep) (K.known f.keep)) }
    ensures crash_err { (kept : List (List ℕ)) (all : List (List ℕ)) → LeavesNow kept all (K.known keep) → IfErr result (λ e. Always (Leaves kept all) (K.known keep) (K.known e.1)) }
    ensures works { IfOk result (λ f. (K.known f.keep).failures ≡ (K.known keep).failures) }
    ensures same { IfErr result (λ e. Sees (K.known keep) (K.known e.1)) }
    ensures cause { IfErr result (λ e. (K.known e.1).failures ≡ failures_of_find e.0 (K.known keep).failures) }
{
    let mut keep = keep;
    let (bytes, is_doubtful) = match read(alloc, &mut keep) {
        Ok((bytes, is_doubtful)) => (bytes, is_doubtful),
        Err(fault) => return Err((fault, keep)),
    };
    match parts_of(alloc, &bytes) {
        Ok(parts) => Ok(Found {
            keep,
            bytes,
            parts,
            is_doubtful,
        }),
        Err(fault) => Err((fault, keep)),
    }
}

/// Syncs a file, and reads it: its bytes, and whether it is in doubt.
fn read<K: Reopen>(alloc: Global, keep: &mut K) -> Result<(Vec<u8>, bool), FindFault>
    ensures ready { IfOk result (λ r. AreReady r.1 (K.known keep.new)) }
    ensures shows { IfOk result (λ r. Shows r.0.items (K.known keep.new)) }
    ensures shown { IfOk result (λ r. Shows r.0.items (K.known keep.old)) }
    ensures crash { (kept : List (List ℕ)) (all : List (List ℕ)) → LeavesNow kept all (K.known keep.old) → Always (Leaves kept all) (K.known keep.old) (K.known keep.new) }
    ensures same { Sees (K.known keep.old) (K.known keep.new) }
    ensures works { OnOk result ((K.known keep.new).failures ≡ (K.known keep.old).failures) }
    ensures cause { IfErr result (λ fault. (fault ≢ FindFault.NoRecord) × ((K.known keep.new).failures ≡ failures_of_find fault (K.known keep.old).failures)) }
{
    let Ok(is_doubtful) = made_ready(keep) else {
        return Err(FindFault::Failed);
    };
    match keep.read_whole(alloc) {
        Ok(Some(bytes)) => Ok((bytes, is_doubtful)),
        Ok(None) => Err(FindFault::Memory),
        Err(_) => Err(FindFault::Failed),
    }
}

/// Syncs a file, where that says anything. Whether it is in doubt.
fn made_ready<K: Reopen>(keep: &mut K) -> Result<bool, Failed>
    ensures ready { IfOk result (λ d. AreReady d (K.known keep.new)) }
    ensures same { Sees (K.known keep.old) (K.known keep.new) }
    ensures crash { (kept : List (List ℕ)) (all : List (List ℕ)) → LeavesNow kept all (K.known keep.old) → Always (Leaves kept all) (K.known keep.old) (K.known keep.new) }
    ensures cause { (K.known keep.new).failures ≡ failures_after result (K.known keep.old).failures }
{
    if keep.is_doubtful() {
        return Ok(true);
    }
    keep.sync()?;
    Ok(false)
}

/// The head and the bodies of a text.
fn parts_of(alloc: Global, bytes: &[u8]) -> Result<Parts, FindFault>
    ensures read { IfOk result (λ p. IsReadTo bytes.now (listed p.head p.bodies.items) p.whole) }
    ensures head { IfOk result (λ p. p.head ≡ None → (bytes.now ≡ []) × (p.bodies.items ≡ [])) }
    ensures none { result ≡ Err FindFault.NoRecord → BeginsNone bytes.now × (bytes.now ≢ []) }
    ensures works { result ≢ Err FindFault.Failed }
{
    let Some((head, behind)) = next_record(bytes) else {
        if !bytes.is_empty() {
            return Err(FindFault::NoRecord);
        }
        return Ok(Parts {
            head: None,
            bodies: Vec::new(alloc),
            whole: 0,
        });
    };
    let (bodies, whole) = read_records(alloc, behind)?;
    let head = head.to_vec(alloc)?;
    Ok(Parts {
        head: Some(head),
        bodies,
        whole: bytes.len() - behind.len() + whole,
    })
}
