//! Lists of bodies that are added to.

ghost use Rattle.std.specs.Prelude.{◌≡◌, ◌≢◌, ◌≤◌, ◌↔◌, ◌^◌, ◌++◌, ◌∷◌, [], ℕ, List, length, map, Err, IfOk, OnErr, OnOk};
ghost use Rattle.std.specs.List.{All};
ghost use Rattle.devices.specs.Count.{failures_after, one_more};
ghost use Rattle.kept_records.specs.Records.{AreBodies, IsBody, record_text, records_text};
ghost use Rattle.kept_log.specs.Faults.{failures_of_begin, failures_of_commit};
ghost use Rattle.kept_log.specs.Kept.{Always, Keeps, Leaves, LeavesEither, StandsBehind};
ghost use Rattle.kept_log.specs.States.{state_after};

use kept_devices::{Failed, Keep, Reopen};
use kept_records::push_record;
use std::alloc::{AllocError, Global};

/// Why nothing was committed.
#[derive(Clone, Copy, Debug, PartialEq, Eq)]
pub enum LogFault {
    /// Memory was refused. The file was not touched.
    Memory,
    /// The file failed, and what was added was cut off again: it holds what it held. It takes nothing more.
    CutBack,
    /// The file failed, and what it holds is in doubt. It takes nothing more.
    Doubtful,
    /// The file failed before. It was not touched.
    Stopped,
    /// The file has its first body, and was not touched.
    Begun,
    /// The file has no first body, and was not touched.
    Unbegun,
}

/// What a log takes.
#[derive(Clone, Copy, Debug, PartialEq, Eq)]
pub enum LogState {
    /// The file has no byte: it takes the first body alone.
    Empty,
    /// The file has its first body: it takes others.
    Open,
    /// The file failed: it takes nothing more, and is to be opened again.
    Failed,
}

/// A file of records that is added to.
#[derive(Drop)]
pub struct Log<K: Keep> {
    pub keep: K,
    pub(crate) state: LogState,
}

impl<K: Keep> Log<K> {
    /// The file alone.
    pub fn into_keep(self) -> K
        ensures { result ≡ self.keep }
    {
        let Log { keep, state: _ } = self;
        keep
    }

    /// What it takes.
    pub fn state(&self) -> LogState
        ensures { result ≡ self.now.state }
    {
        self.state
    }

    /// Adds bodies at the end, by one push and one sync: at `Ok` they are on the disk. A crash at any moment
    /// of it leaves the bodies from before, and of these the first, in order. Where the file fails, what was
    /// added is cut off again. It is refused as `Unbegun` where the log is empty, and as `Stopped` where it
    /// failed.
    pub fn commit(&mut self, alloc: Global, bodies: &[Vec<u8>]) -> Result<(), LogFault>
        requires { All (λ v. length v.items ≤ 2 ^ 24) bodies.now }
        ensures kept { (list : List (List ℕ)) → Keeps list (K.known self.old.keep) → OnOk result (Keeps (list ++ map (λ v. v.items) bodies.now) (K.known self.new.keep)) }
        ensures back { (list : List (List ℕ)) → Keeps list (K.known self.old.keep) → result ≡ Err LogFault.CutBack → Keeps list (K.known self.new.keep) }
        ensures crash { (list : List (List ℕ)) → Keeps list (K.known self.old.keep) → Always (Leaves list (list ++ map (λ v. v.items) bodies.now)) (K.known self.old.keep) (K.known self.new.keep) }
        ensures cause { (K.known self.new.keep).failures ≡ failures_of_commit result (K.known self.old.keep).failures }
        ensures state { self.new.state ≡ state_after result self.old.state }
        ensures memory { result ≡ Err LogFault.Memory → self.new ≡ self.old }
        ensures unbegun { (result ≡ Err LogFault.Unbegun) ↔ (self.old.state ≡ LogState.Empty) }
        ensures stopped { (result ≡ Err LogFault.Stopped) ↔ (self.old.state ≡ LogState.Failed) }
        ensures never { result ≢ Err LogFault.Begun }
        ensures untouched { self.old.state ≢ LogState.Open → self.new ≡ self.old }
    {
        match self.state {
            LogState::Empty => return Err(LogFault::Unbegun),
            LogState::Open => {}
            LogState::Failed => return Err(LogFault::Stopped),
        }
        let Ok(text) = text_of(alloc, bodies) else {
            return Err(LogFault::Memory);
        };
        match write(&mut self.keep, &text) {
            Ok(()) => Ok(()),
            Err(_) => {
                self.state = LogState::Failed;
                match self.keep.cut_back() {
                    Ok(()) => Err(LogFault::CutBack),
                    Err(_) => Err(LogFault::Doubtful),
                }
            }
        }
    }
}

impl<K: Reopen> Log<K> {
    /// Puts the first body into a file that holds none, as a new file that takes its place: a crash at any
    /// moment leaves a file of no byte or the whole record. It is refused as `Begun` where the log is open,
    /// and as `Stopped` where it failed.
    pub fn begin(&mut self, alloc: Global, head: &[u8]) -> Result<(), LogFault>
        requires { length head.now ≤ 2 ^ 24 }
        ensures kept { Keeps [] (K.known self.old.keep) → OnOk result (Keeps (head.now ∷ []) (K.known self.new.keep)) }
        ensures crash { Keeps [] (K.known self.old.keep) → Always (LeavesEither [] (record_text head.now)) (K.known self.old.keep) (K.known self.new.keep) }
        ensures cause { (K.known self.new.keep).failures ≡ failures_of_begin result (K.known self.old.keep).failures }
        ensures state { self.new.state ≡ state_after result self.old.state }
        ensures memory { result ≡ Err LogFault.Memory → self.new ≡ self.old }
        ensures never { (result ≢ Err LogFault.CutBack) × (result ≢ Err LogFault.Unbegun) }
        ensures begun { (result ≡ Err LogFault.Begun) ↔ (self.old.state ≡ LogState.Open) }
        ensures stopped { (result ≡ Err LogFault.Stopped) ↔ (self.old.state ≡ LogState.Failed) }
        ensures untouched { self.old.state ≢ LogState.Empty → self.new ≡ self.old }
    {
        match self.state {
            LogState::Empty => {}
            LogState::Open => return Err(LogFault::Begun),
            LogState::Failed => return Err(LogFault::Stopped),
        }
        let Ok(text) = record_of(alloc, head) else {
            return Err(LogFault::Memory);
        };
        match self.keep.replace(&text) {
            Ok(()) => {
                self.state = LogState::Open;
                Ok(())
            }
            Err(_) => {
                self.state = LogState::Failed;
                Err(LogFault::Doubtful)
            }
        }
    }
}

/// The record of a body.
fn record_of(alloc: Global, body: &[u8]) -> Result<Vec<u8>, AllocError>
    requires { length body.now ≤ 2 ^ 24 }
    ensures text { IfOk result (λ text. text.items ≡ record_text body.now) }
    ensures body { IsBody body.now }
{
    let mut text = Vec::new(alloc);
    push_record(&mut text, body)?;
    Ok(text)
}

/// The records of some bodies, one after another.
fn text_of(alloc: Global, bodies: &[Vec<u8>]) -> Result<Vec<u8>, AllocError>
    requires { All (λ v. length v.items ≤ 2 ^ 24) bodies.now }
    ensures text { IfOk result (λ text. text.items ≡ records_text (map (λ v. v.items) bodies.now)) }
    ensures bodies { IfOk result (λ _. AreBodies (map (λ v. v.items) bodies.now)) }
{
    let mut text = Vec::new(alloc);
    for body in bodies {
        push_record(&mut text, body)?;
    }
    Ok(text)
}

/// Adds the text of some bodies to a file, and syncs it.
fn write<K: Keep>(keep: &mut K, text: &[u8]) -> Result<(), Failed>
    ensures kept { (list : List (List ℕ)) (more : List (List ℕ)) → Keeps list (K.known keep.old) → AreBodies more → text.now ≡ records_text more → OnOk result (Keeps (list ++ more) (K.known keep.new)) }
    ensures behind { (list : List (List ℕ)) (more : List (List ℕ)) → Keeps list (K.known keep.old) → AreBodies more → text.now ≡ records_text more → OnErr result (StandsBehind list more (K.known keep.new)) }
    ensures crash { (list : List (List ℕ)) (more : List (List ℕ)) → Keeps list (K.known keep.old) → AreBodies more → text.now ≡ records_text more → Always (Leaves list (list ++ more)) (K.known keep.old) (K.known keep.new) }
    ensures cause { (K.known keep.new).failures ≡ failures_after result (K.known keep.old).failures }
{
    keep.push_all(text)?;
    keep.sync()
}
