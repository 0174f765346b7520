//! The protocol of sessions, as it is written down, over a seat of number 1 whose plane is a block of Life.

use crate::draw::messages::{LIFE, push_head};
use crate::fields::Fields;
use crate::slow::deltas::SlowEdit;
use crate::slow::message::{Heard, hear};
use delta_exchange::ReadFault;
use std::alloc::{AllocError, Global};

/// The last generation that is exported.
const LAST_GENERATION: u32 = 1 << 29;

/// The number of a refusal: an edit of another seat.
const NOT_YOURS: u8 = 28;

/// A generation past the last.
const LATE: u8 = 22;

/// For how many milliseconds news may be awaited at most.
const MOST_WAIT: u32 = 60_000;

/// What is no request.
const NO_REQUEST: u8 = 33;

/// What was pushed and not polled yet, as deltas.
#[derive(Drop)]
pub struct SlowSession {
    alloc: Global,
    fresh: Vec<Vec<u8>>,
}

impl SlowSession {
    pub fn new(alloc: Global) -> SlowSession {
        SlowSession {
            alloc,
            fresh: Vec::new(alloc),
        }
    }

    /// The bodies of the reply to a request.
    pub fn reply(&mut self, request: &[u8]) -> Result<Vec<Vec<u8>>, AllocError> {
        match request {
            [1] => self.hello(),
            [2, delta @ ..] => self.push(delta),
            [3] => self.poll(),
            [4] => self.whole(),
            [5, a, b, c, d] => {
                let text = self.export(u32::from_be_bytes([*a, *b, *c, *d]))?;
                self.one(text)
            }
            [6] => self.number(0),
            [7, high, low, generations @ ..]
                if generations.len() == usize::from(u16::from_be_bytes([*high, *low])) * 4 => {
                self.many(&[0, *high, *low], generations)
            }
            [8, a, b, c, d] if u32::from_be_bytes([*a, *b, *c, *d]) <= MOST_WAIT => self.poll(),
            [10, window @ ..] if window.len() == 20 => {
                let text = self.cut(&mut Fields::of(window))?;
                self.one(text)
            }
            [11] => self.pieces(),
            _ => self.number(NO_REQUEST),
        }
    }

    /// A reply of one body.
    fn one(&self, body: Vec<u8>) -> Result<Vec<Vec<u8>>, AllocError> {
        let mut bodies = Vec::new(self.alloc);
        bodies.push(body)?;
        Ok(bodies)
    }

    /// A reply of one byte.
    fn number(&self, number: u8) -> Result<Vec<Vec<u8>>, AllocError> {
        self.one(Vec::from_slice(self.alloc, &[number])?)
    }

    fn hello(&self) -> Result<Vec<Vec<u8>>, AllocError> {
        let mut body = Vec::from_slice(self.alloc, &[0, 0, 1, (LIFE.text.len() & 0xff) as u8])?;
        body.extend_from_slice(LIFE.text)?;
        self.one(body)
    }

    fn push(&mut self, delta: &[u8]) -> Result<Vec<Vec<u8>>, AllocError> {
        match refusal_of(&hear(self.alloc, LIFE, delta))? {
            Some(number) => self.number(number),
            None => {
                self.fresh.push(Vec::from_slice(self.alloc, delta)?)?;
                self.number(0)
            }
        }
    }

    fn poll(&mut self) -> Result<Vec<Vec<u8>>, AllocError> {
        let fresh = std::mem::replace(&mut self.fresh, Vec::new(self.alloc));
        let count = u32::try_from(fresh.len()).unwrap_or(u32::MAX);
        let mut body = Vec::from_slice(self.alloc, &[0])?;
        body.extend_from_slice(&count.to_be_bytes())?;
        let mut bodies = self.one(body)?;
        for delta in fresh {
            bodies.push(delta)?;
        }
        Ok(bodies)
    }

    fn whole(&self) -> Result<Vec<Vec<u8>>, AllocError> {
        let mut body = Vec::from_slice(self.alloc, &[0])?;
        push_state(&mut body)?;
        self.one(body)
    }

    /// The plane in one piece, of as many edits as were fresh; none of them is polled later.
    fn pieces(&mut self) -> Result<Vec<Vec<u8>>, AllocError> {
        let fresh = std::mem::replace(&mut self.fresh, Vec::new(self.alloc));
        let mut head = Vec::from_slice(self.alloc, &[0])?;
        head.extend_from_slice(&(fresh.len() as u64).to_be_bytes())?;
        head.extend_from_slice(&[0, 0, 0, 1])?;
        let mut piece = Vec::new(self.alloc);
        push_state(&mut piece)?;
        let mut bodies = self.one(head)?;
        bodies.push(piece)?;
        Ok(bodies)
    }

    /// The block stays as it is; a generation that is too late is refused.
    fn export(&self, generation: u32) -> Result<Vec<u8>, AllocError> {
        if generation > LAST_GENERATION {
            return Vec::from_slice(self.alloc, &[LATE]);
        }
        let text = format!(in self.alloc;
            "\0#CXRLE Pos=0,0 Gen={generation}\nx = 2, y = 2, rule = 23/3/2\n2o$2o!\n"
        )?;
        Vec::from_slice(self.alloc, text.as_bytes())
    }

    /// What a window shows of the block, which is that of an export where it has all of it.
    fn cut(&self, window: &mut Fields) -> Result<Vec<u8>, AllocError> {
        let mut words = [0_u32; 5];
        for word in words.iter_mut() {
            *word = window.word().unwrap_or(0);
        }
        let [x, y, width, height, generation] = words;
        if generation > LAST_GENERATION {
            return Vec::from_slice(self.alloc, &[LATE]);
        }
        let (left, columns) = seen(x, width);
        let (top, rows) = seen(y, height);
        let text = match (columns, rows) {
            (0, _) | (_, 0) => format!(in self.alloc;
                "\0#CXRLE Pos=0,0 Gen={generation}\nx = 0, y = 0, rule = 23/3/2\n!\n"
            )?,
            _ => {
                let row = if columns == 2 { "2o" } else { "o" };
                let rest = if rows == 2 {
                    format!(in self.alloc; "${row}")?
                } else {
                    String::new(self.alloc)
                };
                format!(in self.alloc;
                    "\0#CXRLE Pos={left},{top} Gen={generation}\nx = {columns}, y = {rows}, rule = 23/3/2\n{row}{rest}!\n"
                )?
            }
        };
        Vec::from_slice(self.alloc, text.as_bytes())
    }

    fn many(&self, head: &[u8], generations: &[u8]) -> Result<Vec<Vec<u8>>, AllocError> {
        let mut bodies = self.one(Vec::from_slice(self.alloc, head)?)?;
        let mut fields = Fields::of(generations);
        for _ in 0..generations.len() {
            let Ok(generation) = fields.word() else {
                break;
            };
            bodies.push(self.export(generation)?)?;
        }
        Ok(bodies)
    }
}

/// The first of the columns 0 and 1 that a window has, by its first, with a sign, and how many it has; and rows likewise.
fn seen(first: u32, count: u32) -> (i64, i64) {
    let first = i64::from(i32::from_be_bytes(first.to_be_bytes()));
    let begin = first.max(0);
    let end = first.saturating_add(i64::from(count)).min(2);
    (begin, end.saturating_sub(begin).max(0))
}

/// The number with which a push of this is refused, if it is.
fn refusal_of(heard: &Result<Heard, ReadFault>) -> Result<Option<u8>, AllocError> {
    match heard {
        Err(ReadFault::Memory) => Err(AllocError),
        Err(fault) => Ok(Some(number_of(*fault))),
        Ok(Heard::Edits(edits)) => Ok(refusal_of_edits(edits)),
        Ok(Heard::Map(_)) => Ok(Some(NO_REQUEST)),
    }
}

/// One edit may be pushed, if its replica is the seat's.
fn refusal_of_edits(edits: &[SlowEdit]) -> Option<u8> {
    match edits {
        [edit] if edit.stamp & 0xffff == 1 => None,
        [_] => Some(NOT_YOURS),
        _ => Some(NO_REQUEST),
    }
}

/// The writes of a leaf with the block in its first corner, of counter 1 and replica 1.
fn push_block(body: &mut Vec<u8>) -> Result<(), AllocError> {
    for place in 0..64_u8 {
        let write = match place {
            0 | 1 | 8 | 9 => [0, 0, 0, 0, 0, 1, 0, 1, 1],
            _ => [0; 9],
        };
        body.extend_from_slice(&write)?;
    }
    Ok(())
}

/// The number of a fault in the table of faults.
fn number_of(fault: ReadFault) -> u8 {
    match fault {
        ReadFault::TooMany => 8,
        ReadFault::Nothing => 9,
        ReadFault::OutOfPlane => 10,
        ReadFault::StateRange => 11,
        ReadFault::StoreFull => 13,
        ReadFault::Magic => 14,
        ReadFault::Version => 15,
        ReadFault::OtherRule => 16,
        ReadFault::Short => 17,
        ReadFault::StampRange => 18,
        ReadFault::NotCanonical => 19,
        ReadFault::Trailing => 20,
        ReadFault::Memory => 255,
    }
}

/// The state of the block: its leaf, and squares on it, up to the plane's last quarter.
fn push_state(text: &mut Vec<u8>) -> Result<(), AllocError> {
    push_head(text, b"GLWS", 2, LIFE)?;
    text.extend_from_slice(&[0, 0, 0, 29, 3])?;
    push_block(text)?;
    for level in 4..31_u8 {
        text.extend_from_slice(&[level, 1, 0, 0, 0, level - 4])?;
        text.extend_from_slice(&[0; 27])?;
    }
    text.extend_from_slice(&[31])?;
    text.extend_from_slice(&[0; 27])?;
    text.extend_from_slice(&[1, 0, 0, 0, 27])
}
