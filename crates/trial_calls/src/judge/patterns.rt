//! `parse` beside the slow reader of RLE texts.

use crate::slow::patterns::{SlowPattern, pattern};
use crate::verdict::Verdict;
use multistate_rle::{RleFault, parse};
use pattern_cells::Pattern;
use std::alloc::{AllocError, Global};

/// The verdict on an RLE text.
pub fn judged(alloc: Global, text: &[u8]) -> Result<Verdict, AllocError> {
    match (pattern(alloc, text), parse(alloc, text)) {
        (Err(RleFault::Memory), _) | (_, Err(RleFault::Memory)) => Err(AllocError),
        (Err(slow), Err(fault)) => Ok(Verdict::refused_if(slow == fault)),
        (Ok(slow), Ok(pattern)) => Ok(Verdict::accepted_if(is_same(&slow, &pattern))),
        _ => Ok(Verdict::Differs),
    }
}

fn is_same(slow: &SlowPattern, pattern: &Pattern) -> bool {
    let (x, y) = pattern.pos();
    slow.width == pattern.width()
        && slow.height == pattern.height()
        && slow.position == (i64::from(x), i64::from(y))
        && slow.generation == pattern.generation()
        && slow.cells.as_slice() == pattern.cells()
}
