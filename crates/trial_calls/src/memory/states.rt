//! States, and messages of either kind.

use crate::memory::{edits, is_fault, is_text, planes, tell_all};
use delta_exchange::{Message, ReadFault, read, write_state};
use generations_rule::Rule;
use stamped_tree::Plane;
use std::alloc::{AllocError, Global};
use std::io;

/// How many bytes the 29 entries of a state of one leaf have: of the leaf its level and 64 writes, of each
/// square its level, three blanks and the entry before.
pub const ENTRIES: usize = 1501;

const LEAF: usize = 577;

const SQUARE: usize = 33;

/// The entries of the state of one leaf that begins with some writes and is the plane's first one beside
/// the middle: squares whose first quarter is the entry before; of the plane it is the last one. All else
/// was not written.
pub fn entries(writes: &[u8]) -> [u8; 1501] {
    let mut text = [0; ENTRIES];
    text[0] = 3;
    for (byte, write) in text[1..LEAF].iter_mut().zip(writes) {
        *byte = *write;
    }
    for entry in 0..27_u8 {
        let start = LEAF + SQUARE * usize::from(entry);
        text[start] = entry + 4;
        text[start + 1] = 1;
        text[start + 5] = entry;
    }
    text[ENTRIES - SQUARE] = 31;
    text[ENTRIES - 5] = 1;
    text[ENTRIES - 1] = 27;
    text
}

/// The head of a state, and the number of its entries.
const HEAD: [u8; 17] = *b"GLWS\x02\x07345/2/4\0\0\0\x1d";

/// The writes of the row of states 2, 3 and 0.
const WRITES: &[u8] = b"\0\0\0\0\0\x01\0\x01\x02\0\0\0\0\0\x01\0\x01\x03\0\0\0\0\0\x01\0\x01\0";

/// The state of that row.
fn text() -> [u8; 1518] {
    let mut text = [0; 1518];
    text[..17].copy_from_slice(&HEAD);
    text[17..].copy_from_slice(&entries(WRITES));
    text
}

/// A plane under `/2/3` where nothing was written, in the version that is written and in the one before.
const EMPTY: &[u8] = b"GLWS\x02\x04/2/3\0\0\0\0\0\0\0\0\0\0\0\0";

const EMPTY_BEFORE: &[u8] = b"GLWS\x01\x04/2/3\0\0\0\0\0\0\0\0\0";

/// The same with each quarter told, which is not how it is written.
const QUARTERED: &[u8] = b"GLWS\x02\x04/2/3\0\0\0\x01\x1f\
    \0\0\0\0\0\0\0\0\0\0\0\0\0\0\0\0\0\0\0\0\0\0\0\0\0\0\0\0\0\0\0\0\0\0\0\0";

const QUARTERED_BEFORE: &[u8] = b"GLWS\x01\x04/2/3\x02\
    \0\0\0\0\0\0\0\0\0\0\0\0\0\0\0\0\0\0\0\0\0\0\0\0\0\0\0\0\0\0\0\0\0\0\0\0";

/// Texts of states under `/2/3`, and why they are none.
static FAULTS: [(&[u8], ReadFault); 6] = [
    (QUARTERED, ReadFault::NotCanonical),
    (QUARTERED_BEFORE, ReadFault::NotCanonical),
    (
        b"GLWS\x02\x04/2/3\0\0\0\0\0\0\0\0\0\0\0\0\0",
        ReadFault::Trailing,
    ),
    (b"GLWS\x01\x04/2/3\0\0\0\0\0\0\0\0\0\0", ReadFault::Trailing),
    (b"GLWS\x03", ReadFault::Version),
    (b"GLWS\x02\x04/3/3", ReadFault::OtherRule),
];

pub fn tell_calls(rt: &impl Print, alloc: Global) -> io::Result<()> {
    tell_all(
        rt,
        "states",
        &[
            ("write_state", state_is_written(alloc)),
            ("read of a state", state_is_read(alloc)),
            ("read of an empty state", empty_states_are_read(alloc)),
            ("read of a state's fault", fault_is_told(alloc)),
            ("read of faulty states", faults_are_told(alloc)),
            ("read of short states", short_texts_are_refused(alloc)),
            ("read of a delta", delta_is_read(alloc)),
        ],
    )
}

fn state_is_written(alloc: Global) -> bool {
    match (edits::rule(), planes::row(alloc)) {
        (Some(rule), Some(plane)) => is_written(alloc, &rule, &plane),
        _ => false,
    }
}

fn is_written(alloc: Global, rule: &Rule, plane: &Plane) -> bool {
    is_text(again!(AllocError, write_state(alloc, rule, plane)), &text())
}

/// The message of a text.
pub fn message(alloc: Global, rule: &Rule, text: &[u8]) -> Result<Message, ReadFault> {
    again!(ReadFault::Memory, read(alloc, rule, text))
}

/// The message of the state of that row.
pub fn state(alloc: Global) -> Option<Message> {
    message(alloc, &edits::rule()?, &text()).ok()
}

fn state_is_read(alloc: Global) -> bool {
    let Some(message) = state(alloc) else {
        return false;
    };
    let Some(plane) = message.plane() else {
        return false;
    };
    planes::shown(plane) == planes::ROW && plane.nodes() == 30
}

fn is_refused(alloc: Global, rule: &Rule, text: &[u8], fault: ReadFault) -> bool {
    is_fault(message(alloc, rule, text), fault)
}

/// The third write's state is one that the rule does not have.
fn fault_is_told(alloc: Global) -> bool {
    let mut text = text();
    text[44] = 4;
    match edits::rule() {
        Some(rule) => is_refused(alloc, &rule, &text, ReadFault::StateRange),
        None => false,
    }
}

fn faults_are_told(alloc: Global) -> bool {
    let Ok(rule) = Rule::parse(b"/2/3") else {
        return false;
    };
    for (text, fault) in &FAULTS {
        if !is_refused(alloc, &rule, text, *fault) {
            return false;
        }
    }
    true
}

/// Whether each text that ends before this one is too short.
fn are_short(alloc: Global, rule: &Rule, text: &[u8]) -> bool {
    for end in 0..text.len() {
        if !is_refused(alloc, rule, &text[..end], ReadFault::Short) {
            return false;
        }
    }
    true
}

fn short_texts_are_refused(alloc: Global) -> bool {
    let Ok(rule) = Rule::parse(b"/2/3") else {
        return false;
    };
    are_short(alloc, &rule, QUARTERED) && are_short(alloc, &rule, QUARTERED_BEFORE)
}

/// Whether a text is read as a plane where nothing was written.
fn is_empty(alloc: Global, rule: &Rule, text: &[u8]) -> bool {
    let Ok(message) = message(alloc, rule, text) else {
        return false;
    };
    let Some(plane) = message.plane() else {
        return false;
    };
    plane.greatest_stamp() == 0 && plane.nodes() == 1
}

fn empty_states_are_read(alloc: Global) -> bool {
    let Ok(rule) = Rule::parse(b"/2/3") else {
        return false;
    };
    is_empty(alloc, &rule, EMPTY) && is_empty(alloc, &rule, EMPTY_BEFORE)
}

fn delta_is_read(alloc: Global) -> bool {
    let Some(rule) = edits::rule() else {
        return false;
    };
    match message(alloc, &rule, &edits::DELTA) {
        Ok(message) => has_row(&message),
        Err(_) => false,
    }
}

fn has_row(message: &Message) -> bool {
    match message.edits() {
        Some(edits) => edits::is_one_row(edits),
        None => false,
    }
}
