//! Files that were found, opened again.

ghost use Rattle.std.specs.Prelude.{◌≡◌, ◌≢◌, ◌≤◌, ◌-◌, ℕ, List, [], length, None, Ok, Err, IfErr, IfOk, IfSome, OnOk};
ghost use mathlib.Core.List.{IsPrefix};
ghost use Rattle.devices.specs.Count.{failures_after};
ghost use Rattle.kept_log.specs.Found.{HasNoRecord, HasRead, IsFound, Sees, listed};
ghost use Rattle.kept_log.specs.FindFaults.{failures_of_find};
ghost use Rattle.kept_log.specs.Kept.{Always, Keeps, Leaves, LeavesNow};
ghost use Rattle.kept_log.specs.States.{state_by};

use crate::finding::{FindFault, Found, find};
use crate::log::{Log, LogState};
use kept_devices::{Failed, Reopen};
use std::alloc::Global;

/// A log that was opened, and what it holds.
#[derive(Drop)]
pub struct Reopened<K: Reopen> {
    pub log: Log<K>,
    /// The first body; none in a file of no byte.
    pub head: Option<Vec<u8>>,
    /// The bodies behind it.
    pub bodies: Vec<Vec<u8>>,
    /// How many bytes were cut off behind the last record.
    pub lost: usize,
}

/// Opens a file as another process left it: it reads the head and the bodies up to where no record begins,
/// and cuts off what stands behind them. At `Ok` the disk has these, whatever the file had been through, and
/// they are between any two lists that a crash was bound by. The log is open exactly where a head was read,
/// and else empty. Where it fails the file is handed back, and holds what it held unless it failed itself.
pub fn reopen<K: Reopen>(alloc: Global, keep: K) -> Result<Reopened<K>, (FindFault, K)>
    ensures read { IfOk result (λ r. HasRead (K.known keep) (listed r.head r.bodies.items) r.lost) }
    ensures kept { IfOk result (λ r. Keeps (listed r.head r.bodies.items) (K.known r.log.keep)) }
    ensures head { IfOk result (λ r. r.head ≡ None → (r.bodies.items ≡ []) × (r.lost ≡ 0)) }
    ensures between { (kept : List (List ℕ)) (all : List (List ℕ)) → LeavesNow kept all (K.known keep) → IfOk result (λ r. IfSome (K.known keep).held (λ _. IsPrefix kept (listed r.head r.bodies.items) × IsPrefix (listed r.head r.bodies.items) all)) }
    ensures crash { (kept : List (List ℕ)) (all : List (List ℕ)) → LeavesNow kept all (K.known keep) → IfOk result (λ r. Always (Leaves kept all) (K.known keep) (K.known r.log.keep)) }
    ensures crash_err { (kept : List (List ℕ)) (all : List (List ℕ)) → LeavesNow kept all (K.known keep) → IfErr result (λ e. Always (Leaves kept all) (K.known keep) (K.known e.1)) }
    ensures none { IfErr result (λ e. e.0 ≡ FindFault.NoRecord → HasNoRecord (K.known keep)) }
    ensures same { IfErr result (λ e. e.0 ≢ FindFault.Failed → Sees (K.known keep) (K.known e.1)) }
    ensures works { IfOk result (λ r. (r.log.state ≡ state_by r.head) × ((K.known r.log.keep).failures ≡ (K.known keep).failures)) }
    ensures cause { IfErr result (λ e. (K.known e.1).failures ≡ failures_of_find e.0 (K.known keep).failures) }
{
    match find(alloc, keep) {
        Ok(found) => found.settle(),
        Err(refused) => Err(refused),
    }
}

impl<K: Reopen> Found<K> {
    /// Cuts off what stands behind the whole records, or puts a copy of these in the place of a file that is
    /// in doubt. Then the disk has them. The log is open exactly where a head was read, and else empty.
    pub fn settle(self) -> Result<Reopened<K>, (FindFault, K)>
        requires { self.parts.whole ≤ length self.bytes.items }
        ensures kept { IsFound (K.known self.keep) self.is_doubtful self.bytes.items (listed self.parts.head self.parts.bodies.items) self.parts.whole → IfOk result (λ r. Keeps (listed self.parts.head self.parts.bodies.items) (K.known r.log.keep)) }
        ensures same { IfOk result (λ r. (r.head ≡ self.parts.head) × (r.bodies ≡ self.parts.bodies) × (r.lost ≡ length self.bytes.items - self.parts.whole)) }
        ensures crash { IsFound (K.known self.keep) self.is_doubtful self.bytes.items (listed self.parts.head self.parts.bodies.items) self.parts.whole → (kept : List (List ℕ)) (all : List (List ℕ)) → LeavesNow kept all (K.known self.keep) → IfOk result (λ r. Always (Leaves kept all) (K.known self.keep) (K.known r.log.keep)) }
        ensures crash_err { IsFound (K.known self.keep) self.is_doubtful self.bytes.items (listed self.parts.head self.parts.bodies.items) self.parts.whole → (kept : List (List ℕ)) (all : List (List ℕ)) → LeavesNow kept all (K.known self.keep) → IfErr result (λ e. Always (Leaves kept all) (K.known self.keep) (K.known e.1)) }
        ensures works { IfOk result (λ r. (r.log.state ≡ state_by r.head) × ((K.known r.log.keep).failures ≡ (K.known self.keep).failures)) }
        ensures cause { IfErr result (λ e. (e.0 ≡ FindFault.Failed) × ((K.known e.1).failures ≡ failures_of_find e.0 (K.known self.keep).failures)) }
    {
        let Found {
            keep,
            bytes,
            parts,
            is_doubtful,
        } = self;
        let mut keep = keep;
        let lost = bytes.len() - parts.whole;
        if end_at(&mut keep, &bytes, parts.whole, is_doubtful).is_err() {
            return Err((FindFault::Failed, keep));
        }
        let state = state_by(&parts.head);
        let log = Log { keep, state };
        Ok(Reopened {
            log,
            head: parts.head,
            bodies: parts.bodies,
            lost,
        })
    }
}

/// What a log takes whose file has this head.
fn state_by(head: &Option<Vec<u8>>) -> LogState
    ensures { result ≡ state_by head.now }
{
    match head {
        Some(_) => LogState::Open,
        None => LogState::Empty,
    }
}

/// Has a file end behind its whole records.
fn end_at<K: Reopen>(
    keep: &mut K,
    bytes: &[u8],
    whole: usize,
    is_doubtful: bool,
) -> Result<(), Failed>
    requires { whole ≤ length bytes.now }
    ensures kept { (bodies : List (List ℕ)) → IsFound (K.known keep.old) is_doubtful bytes.now bodies whole → OnOk result (Keeps bodies (K.known keep.new)) }
    ensures crash { (bodies : List (List ℕ)) → IsFound (K.known keep.old) is_doubtful bytes.now bodies whole → (kept : List (List ℕ)) (all : List (List ℕ)) → LeavesNow kept all (K.known keep.old) → Always (Leaves kept all) (K.known keep.old) (K.known keep.new) }
    ensures cause { (K.known keep.new).failures ≡ failures_after result (K.known keep.old).failures }
{
    if is_doubtful {
        return keep.replace(&bytes[..whole]);
    }
    if whole == bytes.len() {
        return Ok(());
    }
    keep.cut(whole)
}
