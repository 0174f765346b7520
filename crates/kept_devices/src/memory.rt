//! A file in memory, which may be told to fail.

ghost use Rattle.std.specs.Prelude.{◌≡◌, ◌≤◌, [], length, map, Some, IfOk, OnErr, OnOk};
ghost use Rattle.devices.specs.Count.{one_more};
ghost use Rattle.kept_devices.specs.Standing.{added, cutting, in_doubt, moves_to, replacing, stands, synced};
ghost use Rattle.kept_devices.specs.Keep.{Cuts, Pushes, Syncs};
ghost use Rattle.kept_devices.specs.Reopen.{Replaces};
ghost use Rattle.kept_devices.specs.Memory.{history_of, standing_of};

use crate::keep::Keep;
use crate::moment::Moment;
use crate::reopen::Reopen;
use devices::Failed;
use std::alloc::{AllocError, Global};
use std::mem;

/// A file in memory. It keeps how it stood at each moment before, and fails at calls that are named: each
/// call of `Keep` and `Reopen` but `is_doubtful` counts, from 0. A call that fails so does what it can do
/// half: a push adds half of its bytes, a cut and a replacement are not synced.
#[derive(Drop)]
pub struct MemoryKeep {
    alloc: Global,
    moment: Moment,
    past: Vec<Moment>,
    calls: u64,
    fails_from: u64,
    fails_at: Vec<u64>,
    failures: u64,
}

impl MemoryKeep {
    /// A file of these bytes, all on the disk. It fails only where memory is refused.
    pub fn new(alloc: Global, bytes: &[u8]) -> Result<MemoryKeep, AllocError>
        ensures { IfOk result (λ k. history_of k ≡ record { past = []; now = stands bytes.now }) }
    {
        Ok(MemoryKeep {
            alloc,
            moment: Moment::standing(alloc, bytes)?,
            past: Vec::new(alloc),
            calls: 0,
            fails_from: u64::MAX,
            fails_at: Vec::new(alloc),
            failures: 0,
        })
    }

    /// The same, but each call from this one on fails.
    pub fn failing_from(self, call: u64) -> MemoryKeep
        ensures { result ≡ record self { fails_from = call } }
    {
        let mut keep = self;
        keep.fails_from = call;
        keep
    }

    /// The same, but these calls fail.
    pub fn failing_at(self, calls: Vec<u64>) -> MemoryKeep
        ensures { result ≡ record self { fails_at = calls } }
    {
        let mut keep = self;
        keep.fails_at = calls;
        keep
    }

    /// As the next process finds it when this one was killed: it stands as it did, and no call fails.
    pub fn killed(self) -> MemoryKeep
        ensures { history_of result ≡ record { past = []; now = standing_of self.moment } }
    {
        MemoryKeep {
            alloc: self.alloc,
            moment: self.moment,
            past: Vec::new(self.alloc),
            calls: 0,
            fails_from: u64::MAX,
            fails_at: Vec::new(self.alloc),
            failures: 0,
        }
    }

    /// How it stands.
    pub fn now(&self) -> &Moment
        ensures { result.now ≡ self.now.moment }
    {
        &self.moment
    }

    /// How it stood before, the earliest first.
    pub fn past(&self) -> &[Moment]
        ensures { result.now ≡ self.now.past.items }
    {
        &self.past
    }

    /// How many calls were made.
    pub fn calls(&self) -> u64
        ensures { result ≡ self.now.calls }
    {
        self.calls
    }

    /// Counts a call. Whether it fails.
    fn is_failing(&mut self) -> bool
        ensures { self.new ≡ record self.old { calls = self.new.calls } }
    {
        let call = self.calls;
        self.calls = call.saturating_add(1);
        call >= self.fails_from || self.fails_at.contains(&call)
    }

    /// Notes how it stood, and has it stand otherwise.
    fn go_on(&mut self, next: Moment) -> Result<(), Failed>
        ensures ok { OnOk result (history_of self.new ≡ moves_to (history_of self.old) (standing_of next)) }
        ensures err { OnErr result (history_of self.new ≡ history_of self.old) }
        ensures failures { self.new.failures ≡ self.old.failures }
    {
        let before = mem::replace(&mut self.moment, next);
        match self.past.push(before) {
            Ok(()) => Ok(()),
            Err(refused) => {
                self.moment = refused.value;
                Err(Failed)
            }
        }
    }

    fn add(&mut self, bytes: &[u8]) -> Result<(), Failed>
        ensures ok { OnOk result (history_of self.new ≡ moves_to (history_of self.old) (added bytes.now (history_of self.old).now)) }
        ensures err { OnErr result (history_of self.new ≡ history_of self.old) }
        ensures failures { self.new.failures ≡ self.old.failures }
    {
        let Ok(next) = self.moment.added(self.alloc, bytes) else {
            return Err(Failed);
        };
        self.go_on(next)
    }

    fn doubt(&mut self) -> Result<(), Failed>
        ensures ok { OnOk result (history_of self.new ≡ moves_to (history_of self.old) (in_doubt (history_of self.old).now)) }
        ensures err { OnErr result (history_of self.new ≡ history_of self.old) }
        ensures failures { self.new.failures ≡ self.old.failures }
    {
        let Ok(next) = self.moment.in_doubt(self.alloc) else {
            return Err(Failed);
        };
        self.go_on(next)
    }

    fn make_durable(&mut self) -> Result<(), Failed>
        ensures ok { OnOk result (history_of self.new ≡ moves_to (history_of self.old) (synced (history_of self.old).now)) }
        ensures err { OnErr result (history_of self.new ≡ history_of self.old) }
        ensures failures { self.new.failures ≡ self.old.failures }
    {
        let Ok(next) = self.moment.synced(self.alloc) else {
            return Err(Failed);
        };
        self.go_on(next)
    }

    fn begin_cut(&mut self, len: usize) -> Result<(), Failed>
        requires { len ≤ length self.old.moment.durable.items }
        ensures ok { OnOk result (history_of self.new ≡ moves_to (history_of self.old) (cutting len (history_of self.old).now)) }
        ensures err { OnErr result (history_of self.new ≡ history_of self.old) }
        ensures failures { self.new.failures ≡ self.old.failures }
    {
        let Ok(next) = self.moment.cutting(self.alloc, len) else {
            return Err(Failed);
        };
        self.go_on(next)
    }

    fn begin_replace(&mut self, bytes: &[u8]) -> Result<(), Failed>
        ensures ok { OnOk result (history_of self.new ≡ moves_to (history_of self.old) (replacing bytes.now (history_of self.old).now)) }
        ensures err { OnErr result (history_of self.new ≡ history_of self.old) }
        ensures failures { self.new.failures ≡ self.old.failures }
    {
        let Ok(next) = self.moment.replacing(self.alloc, bytes) else {
            return Err(Failed);
        };
        self.go_on(next)
    }

    /// Has it stand with these bytes alone, on the disk.
    fn stand(&mut self, bytes: &[u8]) -> Result<(), Failed>
        ensures ok { OnOk result (history_of self.new ≡ moves_to (history_of self.old) (stands bytes.now)) }
        ensures err { OnErr result (history_of self.new ≡ history_of self.old) }
        ensures failures { self.new.failures ≡ self.old.failures }
    {
        let Ok(next) = Moment::standing(self.alloc, bytes) else {
            return Err(Failed);
        };
        self.go_on(next)
    }

    /// Has it stand with its durable bytes alone.
    fn end_cut(&mut self) -> Result<(), Failed>
        ensures ok { OnOk result (history_of self.new ≡ moves_to (history_of self.old) (stands self.old.moment.durable.items)) }
        ensures err { OnErr result (history_of self.new ≡ history_of self.old) }
        ensures failures { self.new.failures ≡ self.old.failures }
    {
        let Ok(next) = Moment::standing(self.alloc, &self.moment.durable) else {
            return Err(Failed);
        };
        self.go_on(next)
    }

    fn try_push(&mut self, bytes: &[u8]) -> Result<(), Failed>
        ensures held { Pushes bytes.now result (history_of self.old) (history_of self.new) }
        ensures failures { self.new.failures ≡ self.old.failures }
    {
        if self.is_failing() {
            let half = bytes.len() / 2;
            let _added = self.add(&bytes[..half]);
            return Err(Failed);
        }
        self.add(bytes)
    }

    fn try_sync(&mut self) -> Result<(), Failed>
        ensures held { Syncs result (history_of self.old) (history_of self.new) }
        ensures failures { self.new.failures ≡ self.old.failures }
    {
        if self.is_failing() {
            let _doubted = self.doubt();
            return Err(Failed);
        }
        if self.moment.is_doubtful {
            return Ok(());
        }
        self.make_durable()
    }

    fn try_cut(&mut self, len: usize) -> Result<(), Failed>
        ensures held { len ≤ length self.old.moment.durable.items → Cuts len result (history_of self.old) (history_of self.new) }
        ensures failures { self.new.failures ≡ self.old.failures }
    {
        let is_failing = self.is_failing();
        if len > self.moment.durable.len() {
            return Err(Failed);
        }
        if is_failing {
            let _begun = self.begin_cut(len);
            return Err(Failed);
        }
        self.begin_cut(len)?;
        self.end_cut()
    }

    fn try_replace(&mut self, bytes: &[u8]) -> Result<(), Failed>
        ensures held { Replaces bytes.now result (history_of self.old) (history_of self.new) }
        ensures failures { self.new.failures ≡ self.old.failures }
    {
        if self.is_failing() {
            let _begun = self.begin_replace(bytes);
            return Err(Failed);
        }
        self.begin_replace(bytes)?;
        self.stand(bytes)
    }

    fn count_failure(&mut self)
        ensures { self.new ≡ record self.old { failures = one_more self.old.failures } }
    {
        self.failures = self.failures.saturating_add(1);
    }
}

impl Keep for MemoryKeep {
    ghost known = { λ k. record { failures = k.failures; held = Some (history_of k) } };

    fn push_all(&mut self, bytes: &[u8]) -> Result<(), Failed> {
        match self.try_push(bytes) {
            Ok(()) => Ok(()),
            Err(failed) => {
                self.count_failure();
                Err(failed)
            }
        }
    }

    fn sync(&mut self) -> Result<(), Failed> {
        match self.try_sync() {
            Ok(()) => Ok(()),
            Err(failed) => {
                self.count_failure();
                Err(failed)
            }
        }
    }

    fn cut_back(&mut self) -> Result<(), Failed> {
        let len = self.moment.durable.len();
        match self.try_cut(len) {
            Ok(()) => Ok(()),
            Err(failed) => {
                self.count_failure();
                Err(failed)
            }
        }
    }
}

impl Reopen for MemoryKeep {
    fn is_doubtful(&self) -> bool {
        self.moment.is_doubtful
    }

    fn read_whole(&mut self, alloc: Global) -> Result<Option<Vec<u8>>, Failed> {
        if self.is_failing() {
            self.count_failure();
            return Err(Failed);
        }
        Ok(self.moment.seen(alloc).ok())
    }

    fn cut(&mut self, len: usize) -> Result<(), Failed> {
        match self.try_cut(len) {
            Ok(()) => Ok(()),
            Err(failed) => {
                self.count_failure();
                Err(failed)
            }
        }
    }

    fn replace(&mut self, bytes: &[u8]) -> Result<(), Failed> {
        match self.try_replace(bytes) {
            Ok(()) => Ok(()),
            Err(failed) => {
                self.count_failure();
                Err(failed)
            }
        }
    }
}
