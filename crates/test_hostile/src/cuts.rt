//! Texts that are cut off, or go on: each beginning of a message is short, and bytes behind it are told.

use crate::shapes::{checkered, even, first_in_corner};
use crate::spelling::{DELTA, text_of};
use crate::telling::{brians_brain, fault_of};
use delta_exchange::{ReadFault, read};
use generations_rule::Rule;
use std::alloc::{AllocError, Global};
use std::test::Fail;

/// Two edits, one of them with an area, a cell of which is listed.
const TWO_EDITS: &str = "00000002 \
    0000000000010001 00 00000002 3fffffff 40000000 01 40000000 40000000 02 \
    ffffffffffffffff 01 40000000 40000000 00000002 00000001 00000001 40000001 40000000 01";

/// Messages of each kind.
fn messages(alloc: Global) -> Result<Vec<Vec<u8>>, AllocError> {
    let mut texts = Vec::new(alloc);
    texts.push(text_of(alloc, DELTA, TWO_EDITS)?)?;
    texts.push(even(alloc)?)?;
    texts.push(checkered(alloc)?)?;
    texts.push(first_in_corner(alloc, 0, 0)?)?;
    texts.push(first_in_corner(alloc, 3, 63)?)?;
    Ok(texts)
}

/// How many bytes a text has at its first beginning that is not short.
fn first_not_short(alloc: Global, rule: &Rule, text: &[u8]) -> usize {
    for len in 0..text.len() {
        if !matches!(read(alloc, rule, &text[..len]), Err(ReadFault::Short)) {
            return len;
        }
    }
    text.len()
}

#[test]
fn each_beginning_is_short(rt: HostRuntime) -> Result<(), Fail> {
    let rule = brians_brain()?;
    let texts = messages(rt.alloc())?;
    assert_eq!(rt; texts.len(), 5);
    for text in &texts {
        assert_eq!(rt; first_not_short(rt.alloc(), &rule, text), text.len());
        assert_eq!(rt; fault_of(rt.alloc(), text)?, None);
    }
    Ok(())
}

/// Whether bytes behind a text are told: itself, one 0, or many others.
fn are_told_behind(alloc: Global, text: &[u8]) -> Result<bool, Fail> {
    let all: [&[u8]; 3] = [text, &[0], &[255; 600]];
    for behind in all {
        let mut longer = Vec::from_slice(alloc, text)?;
        longer.extend_from_slice(behind)?;
        if fault_of(alloc, &longer)? != Some(ReadFault::Trailing) {
            return Ok(false);
        }
    }
    Ok(true)
}

#[test]
fn nothing_may_stand_behind_a_message(rt: HostRuntime) -> Result<(), Fail> {
    let texts = messages(rt.alloc())?;
    assert_eq!(rt; texts.len(), 5);
    for text in &texts {
        assert!(rt; are_told_behind(rt.alloc(), text)?);
    }
    Ok(())
}
