//! Messages of either kind, read field by field.

use crate::fields::Fields;
use crate::slow::deltas::{SlowEdit, edits};
use crate::slow::entries::read_listed;
use crate::slow::map::SlowMap;
use crate::slow::squares::pieces;
use delta_exchange::ReadFault;
use std::alloc::Global;

/// A rule, as far as messages know it.
#[derive(Clone, Copy)]
pub struct SlowRule {
    /// Its printed form.
    pub text: &'static [u8],
    pub states: u16,
}

/// What a message says.
#[derive(Drop)]
pub enum Heard {
    Edits(Vec<SlowEdit>),
    Map(SlowMap),
}

/// What stands behind a head.
#[derive(Clone, Copy)]
enum Kind {
    Delta,
    FirstState,
    State,
}

/// The message of a text under a rule, or the first fault from the left.
pub fn hear(alloc: Global, rule: SlowRule, text: &[u8]) -> Result<Heard, ReadFault> {
    let mut fields = Fields::of(text);
    let kind = head(&mut fields, rule)?;
    let heard = match kind {
        Kind::Delta => Heard::Edits(edits(alloc, &mut fields, rule.states)?),
        Kind::FirstState => Heard::Map(SlowMap::Pieces(pieces(alloc, &mut fields, rule.states)?)),
        Kind::State => Heard::Map(SlowMap::Listed(read_listed(alloc, &mut fields, rule.states)?)),
    };
    if fields.is_empty() {
        Ok(heard)
    } else {
        Err(ReadFault::Trailing)
    }
}

fn head(fields: &mut Fields<'_>, rule: SlowRule) -> Result<Kind, ReadFault> {
    let magic = fields.take(4)?;
    let is_delta = magic == b"GLWD".as_slice();
    if !is_delta && magic != b"GLWS".as_slice() {
        return Err(ReadFault::Magic);
    }
    let kind = match (is_delta, fields.byte()?) {
        (true, 1) => Kind::Delta,
        (false, 1) => Kind::FirstState,
        (false, 2) => Kind::State,
        _ => return Err(ReadFault::Version),
    };
    let length = fields.byte()?;
    if fields.take(usize::from(length))? != rule.text {
        return Err(ReadFault::OtherRule);
    }
    Ok(kind)
}
