//! Writes and stamps, as they stand in messages.

use crate::fields::Fields;
use delta_exchange::ReadFault;

/// A stamp's number and a state.
#[derive(Clone, Copy, PartialEq, Eq)]
pub struct SlowWrite {
    pub stamp: u64,
    pub state: u8,
}

/// Where nothing was written.
pub const NOTHING: SlowWrite = SlowWrite { stamp: 0, state: 0 };

/// How many writes a leaf has.
pub const LEAF: usize = 64;

/// Whether counter and replica are not 0.
fn is_stamp(number: u64) -> bool {
    number >> 16 != 0 && number & 0xffff != 0
}

/// The stamp of an edit.
pub fn stamp(fields: &mut Fields<'_>) -> Result<u64, ReadFault> {
    let number = fields.long()?;
    if is_stamp(number) {
        Ok(number)
    } else {
        Err(ReadFault::StampRange)
    }
}

/// The stamp of a blank: 0 says that nothing was written.
pub fn blank(fields: &mut Fields<'_>) -> Result<u64, ReadFault> {
    let number = fields.long()?;
    if number == 0 || is_stamp(number) {
        Ok(number)
    } else {
        Err(ReadFault::StampRange)
    }
}

/// A write in a leaf.
pub fn write(fields: &mut Fields<'_>, states: u16) -> Result<SlowWrite, ReadFault> {
    let mut group = Fields::of(fields.take(9)?);
    let stamp = blank(&mut group)?;
    let state = group.byte()?;
    if stamp == 0 && state != 0 {
        return Err(ReadFault::StampRange);
    }
    if u16::from(state) >= states {
        return Err(ReadFault::StateRange);
    }
    Ok(SlowWrite { stamp, state })
}

/// The stamp with which all of some writes are blank, if they are.
pub fn blank_stamp(writes: &[SlowWrite]) -> Option<u64> {
    let first = writes.first()?;
    for write in writes {
        if write.state != 0 || write.stamp != first.stamp {
            return None;
        }
    }
    Some(first.stamp)
}
