//! Rules, stamps and heads of messages by chance.

use crate::chance::Chance;
use crate::draw::{deltas, states};
use crate::slow::message::SlowRule;
use std::alloc::{AllocError, Global};

/// The rule of Brian's Brain.
pub const BRAIN: SlowRule = SlowRule {
    text: b"/2/3",
    states: 3,
};

/// The rule of Life.
pub const LIFE: SlowRule = SlowRule {
    text: b"23/3/2",
    states: 2,
};

/// Rules under which messages are read.
pub static RULES: [SlowRule; 3] = [
    BRAIN,
    LIFE,
    SlowRule {
        text: b"345/2/4",
        states: 4,
    },
];

/// Stamps that come up again, so that squares are alike.
static STAMPS: [u64; 8] = [
    0x1_0001,
    0x1_0002,
    0x2_0001,
    0xff_ffff,
    0x8000_0000_0001_0001,
    0x9e37_79b9_7f4a_7c15,
    0xffff_ffff_ffff_0001,
    u64::MAX,
];

/// The stamp of an edit.
pub fn stamp(chance: &mut Chance) -> u64 {
    chance.one_of(&STAMPS, 0x1_0001)
}

/// The stamp of a blank: in half of all cases nothing was written.
pub fn blank(chance: &mut Chance) -> u64 {
    if chance.is_one_in(2) {
        0
    } else {
        stamp(chance)
    }
}

/// A state below so many.
pub fn state(chance: &mut Chance, states: u16) -> u8 {
    (chance.below(usize::from(states)) & 0xff) as u8
}

/// The head of a message.
pub fn push_head(
    text: &mut Vec<u8>,
    magic: &[u8; 4],
    version: u8,
    rule: SlowRule,
) -> Result<(), AllocError> {
    text.extend_from_slice(magic)?;
    text.extend_from_slice(&[version, (rule.text.len() & 0xff) as u8])?;
    text.extend_from_slice(rule.text)
}

/// The kinds of messages.
#[derive(Clone, Copy)]
pub enum Kind {
    Delta,
    FirstState,
    State,
}

/// A message of a kind.
pub fn message(
    alloc: Global,
    chance: &mut Chance,
    kind: Kind,
    rule: SlowRule,
) -> Result<Vec<u8>, AllocError> {
    let mut text = Vec::new(alloc);
    match kind {
        Kind::Delta => {
            push_head(&mut text, b"GLWD", 1, rule)?;
            let count = chance.below(4);
            deltas::push_edits(&mut text, chance, rule.states, count)?;
        }
        Kind::FirstState => {
            push_head(&mut text, b"GLWS", 1, rule)?;
            states::push_square(&mut text, chance, rule.states, 28)?;
        }
        Kind::State => {
            push_head(&mut text, b"GLWS", 2, rule)?;
            states::push_entries(alloc, &mut text, chance, rule.states)?;
        }
    }
    Ok(text)
}
