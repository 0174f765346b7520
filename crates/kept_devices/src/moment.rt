//! How a file in memory stands at one moment, and what a crash leaves of it then.

ghost use Rattle.std.specs.Prelude.{◌≡◌, ◌≤◌, ◌++◌, length, map, IfOk};
ghost use Rattle.kept_records.specs.Laws.{IsLowered};
ghost use Rattle.kept_devices.specs.Standing.{Has, MayLeave, added, cutting, in_doubt, replacing, stands, synced};
ghost use Rattle.kept_devices.specs.Memory.{standing_of};

use crate::chance::Chance;
use std::alloc::{AllocError, Global};

/// How a file stands at one moment.
#[derive(Drop)]
pub struct Moment {
    /// The bytes on the disk.
    pub durable: Vec<u8>,
    /// What was added behind them since the last sync.
    pub pending: Vec<u8>,
    /// What was durable and was cut off, where that is not on the disk yet.
    pub cut_durable: Vec<u8>,
    /// What was pending behind it.
    pub cut_pending: Vec<u8>,
    /// What was put in its place, where that is not on the disk yet.
    pub others: Vec<Vec<u8>>,
    /// Whether a sync failed, or such a cut or replacement.
    pub is_doubtful: bool,
}

impl Moment {
    /// These bytes, all of them on the disk.
    pub fn standing(alloc: Global, bytes: &[u8]) -> Result<Moment, AllocError>
        ensures { IfOk result (λ m. standing_of m ≡ stands bytes.now) }
    {
        let durable = bytes.to_vec(alloc)?;
        Ok(Moment {
            durable,
            pending: Vec::new(alloc),
            cut_durable: Vec::new(alloc),
            cut_pending: Vec::new(alloc),
            others: Vec::new(alloc),
            is_doubtful: false,
        })
    }

    /// What a reader sees: what was not synced too.
    pub fn seen(&self, alloc: Global) -> Result<Vec<u8>, AllocError>
        ensures { IfOk result (λ v. v.items ≡ self.now.durable.items ++ self.now.pending.items) }
    {
        joined(alloc, &self.durable, &self.pending)
    }

    /// What a crash leaves, by chance.
    pub fn after_crash(&self, alloc: Global, chance: &mut Chance) -> Result<Vec<u8>, AllocError>
        ensures { IfOk result (λ v. MayLeave (standing_of self.now) v.items) }
    {
        if !self.others.is_empty() && chance.up_to(1) == 0 {
            return self.replaced(alloc, chance);
        }
        if self.cut_durable.is_empty() && self.cut_pending.is_empty() {
            return self.added_in_part(alloc, chance);
        }
        if chance.up_to(1) == 0 {
            return self.cut_in_part(alloc, chance);
        }
        self.uncut(alloc, chance)
    }

    /// With bytes added behind it.
    pub(crate) fn added(&self, alloc: Global, bytes: &[u8]) -> Result<Moment, AllocError>
        ensures { IfOk result (λ m. standing_of m ≡ added bytes.now (standing_of self.now)) }
    {
        let mut next = self.copied(alloc)?;
        next.pending.extend_from_slice(bytes)?;
        Ok(next)
    }

    /// With all that was added on the disk.
    pub(crate) fn synced(&self, alloc: Global) -> Result<Moment, AllocError>
        ensures { IfOk result (λ m. standing_of m ≡ synced (standing_of self.now)) }
    {
        let all = self.seen(alloc)?;
        Moment::standing(alloc, &all)
    }

    /// Behind a sync that failed.
    pub(crate) fn in_doubt(&self, alloc: Global) -> Result<Moment, AllocError>
        ensures { IfOk result (λ m. standing_of m ≡ in_doubt (standing_of self.now)) }
    {
        let mut next = self.copied(alloc)?;
        next.is_doubtful = true;
        Ok(next)
    }

    /// Cut to a length, and not synced.
    pub(crate) fn cutting(&self, alloc: Global, len: usize) -> Result<Moment, AllocError>
        requires { len ≤ length self.now.durable.items }
        ensures { IfOk result (λ m. standing_of m ≡ cutting len (standing_of self.now)) }
    {
        let (front, back) = self.durable.split_at(len);
        let durable = front.to_vec(alloc)?;
        let cut_durable = back.to_vec(alloc)?;
        let cut_pending = self.pending.to_vec(alloc)?;
        Ok(Moment {
            durable,
            pending: Vec::new(alloc),
            cut_durable,
            cut_pending,
            others: Vec::new(alloc),
            is_doubtful: true,
        })
    }

    /// With other bytes in its place, and not synced.
    pub(crate) fn replacing(&self, alloc: Global, bytes: &[u8]) -> Result<Moment, AllocError>
        ensures { IfOk result (λ m. standing_of m ≡ replacing bytes.now (standing_of self.now)) }
    {
        let mut next = self.copied(alloc)?;
        next.others.push(bytes.to_vec(alloc)?)?;
        next.is_doubtful = true;
        Ok(next)
    }

    fn copied(&self, alloc: Global) -> Result<Moment, AllocError>
        ensures { IfOk result (λ m. standing_of m ≡ standing_of self.now) }
    {
        let durable = self.durable.to_vec(alloc)?;
        let pending = self.pending.to_vec(alloc)?;
        let cut_durable = self.cut_durable.to_vec(alloc)?;
        let cut_pending = self.cut_pending.to_vec(alloc)?;
        let others = copies(alloc, &self.others)?;
        Ok(Moment {
            durable,
            pending,
            cut_durable,
            cut_pending,
            others,
            is_doubtful: self.is_doubtful,
        })
    }

    /// One of what was put in its place.
    fn replaced(&self, alloc: Global, chance: &mut Chance) -> Result<Vec<u8>, AllocError>
        ensures { IfOk result (λ v. MayLeave (standing_of self.now) v.items) }
    {
        let place = chance.up_to(self.others.len());
        if place < self.others.len() {
            return self.others[place].to_vec(alloc);
        }
        self.added_in_part(alloc, chance)
    }

    /// Some of what was added since the last sync.
    fn added_in_part(&self, alloc: Global, chance: &mut Chance) -> Result<Vec<u8>, AllocError>
        ensures { IfOk result (λ v. MayLeave (standing_of self.now) v.items) }
    {
        let end = lowered(alloc, &self.pending, chance)?;
        joined(alloc, &self.durable, &end)
    }

    /// Some of what was being cut off.
    fn cut_in_part(&self, alloc: Global, chance: &mut Chance) -> Result<Vec<u8>, AllocError>
        ensures { IfOk result (λ v. MayLeave (standing_of self.now) v.items) }
    {
        let left = chance.up_to(self.cut_durable.len());
        joined(alloc, &self.durable, &self.cut_durable[..left])
    }

    /// All of it, and some of what was pending behind.
    fn uncut(&self, alloc: Global, chance: &mut Chance) -> Result<Vec<u8>, AllocError>
        ensures { IfOk result (λ v. MayLeave (standing_of self.now) v.items) }
    {
        let end = lowered(alloc, &self.cut_pending, chance)?;
        let back = joined(alloc, &self.cut_durable, &end)?;
        joined(alloc, &self.durable, &back)
    }
}

/// Two texts, one behind the other.
fn joined(alloc: Global, front: &[u8], back: &[u8]) -> Result<Vec<u8>, AllocError>
    ensures { IfOk result (λ v. v.items ≡ front.now ++ back.now) }
{
    let mut all = front.to_vec(alloc)?;
    all.extend_from_slice(back)?;
    Ok(all)
}

fn copies(alloc: Global, texts: &[Vec<u8>]) -> Result<Vec<Vec<u8>>, AllocError>
    ensures { IfOk result (λ v. map (λ t. t.items) v.items ≡ map (λ t. t.items) texts.now) }
{
    let mut all = Vec::new(alloc);
    for text in texts {
        all.push(text.to_vec(alloc)?)?;
    }
    Ok(all)
}

/// The first of some bytes, by chance how many; each as it is, or less. One crash in two leaves as many, and
/// how many bytes are less is by chance too: from all of them to one in two hundred.
fn lowered(alloc: Global, bytes: &[u8], chance: &mut Chance) -> Result<Vec<u8>, AllocError>
    ensures { IfOk result (λ v. IsLowered v.items bytes.now) }
{
    let mut left = Vec::new(alloc);
    let steady = chance.up_to(400);
    let front = &bytes[..count_left(bytes.len(), chance)];
    for byte in front {
        left.push(less(*byte, steady, chance))?;
    }
    Ok(left)
}

fn count_left(count: usize, chance: &mut Chance) -> usize
    ensures { result ≤ count }
{
    if chance.up_to(1) == 0 {
        return count;
    }
    chance.up_to(count)
}

/// A byte as it is, or less: the more seldom the steadier.
fn less(byte: u8, steady: usize, chance: &mut Chance) -> u8
    ensures { result ≤ byte }
{
    match chance.up_to(steady) {
        0 => 0,
        1 => byte / 2,
        _ => byte,
    }
}
