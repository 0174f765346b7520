//! Records of which bytes are missing or changed.

use crate::bodies::{EDIT, HEAD, are_first, back, count_up_to, ends, front, records, ten};
use hex::encode;
use kept_records::{next_whole, read_records};
use std::alloc::{AllocError, Global};
use std::test::Fail;

/// The two worked records of docs/FORMATS.md; their last eight numbers of the heads are SipHash-1-3, as a
/// program in another language reckoned them.
static WORKED: &str = "00000010ffffffeffffffda223b5691f96771aaa474c5744010632332f332f3200000000\
00000026ffffffd9fffffcdd906ae7acf0e5a229474c5744010632332f332f320000000100000000000100410000000001\
400000004000000001";

#[test]
fn worked_records(rt: HostRuntime) -> Result<(), Fail> {
    let alloc = rt.alloc();
    let mut bodies = Vec::new(alloc);
    bodies.push(HEAD.to_vec(alloc)?)?;
    bodies.push(EDIT.to_vec(alloc)?)?;
    let text = records(alloc, &bodies)?;
    assert_eq!(rt; encode(alloc, text.as_slice())?.as_str(), WORKED);
    Ok(())
}

#[test]
fn each_length(rt: HostRuntime) -> Result<(), Fail> {
    let alloc = rt.alloc();
    let bodies = ten(alloc)?;
    let ends = ends(alloc, &bodies)?;
    let text = records(alloc, &bodies)?;
    assert_eq!(rt; ends.last().copied(), Some(text.len()));
    for len in 0..text.len().saturating_add(1) {
        let (got, whole) = read_records(alloc, front(&text, len))?;
        let count = count_up_to(&ends, len);
        assert!(rt; got.len() == count && are_first(&got, &bodies), "at {len}");
        assert!(rt; count_up_to(&ends, whole) == count, "at {len}");
        assert!(rt; whole == 0 || ends.as_slice().contains(&whole), "at {len}");
    }
    Ok(())
}

#[test]
fn each_changed_byte(rt: HostRuntime) -> Result<(), Fail> {
    let alloc = rt.alloc();
    let bodies = ten(alloc)?;
    let ends = ends(alloc, &bodies)?;
    let text = records(alloc, &bodies)?;
    for place in 0..text.len() {
        let before = count_up_to(&ends, place);
        // the records behind the damaged one
        let next = ends.get(before).copied().unwrap_or(0);
        let left = bodies.len().saturating_sub(before).saturating_sub(1);
        for change in &[1u8, 0x55, 0x80, 0xff] {
            let changed = with_change(alloc, &text, place, *change)?;
            let (got, whole) = read_records(alloc, &changed)?;
            assert!(rt;
                got.len() == before && are_first(&got, &bodies),
                "at {place}"
            );
            assert_eq!(rt;
                found_behind(alloc, &changed, whole)?,
                (next, left),
                "at {place}"
            );
        }
    }
    Ok(())
}

/// A text of which the bits of one byte are changed.
fn with_change(
    alloc: Global,
    text: &[u8],
    place: usize,
    change: u8,
) -> Result<Vec<u8>, AllocError> {
    let mut changed = text.to_vec(alloc)?;
    if let Some(byte) = changed.get_mut(place) {
        *byte ^= change;
    }
    Ok(changed)
}

/// Where the first record begins from a place on, or where the text ends; and how many whole records there
/// are from there on.
fn found_behind(alloc: Global, text: &[u8], from: usize) -> Result<(usize, usize), AllocError> {
    match next_whole(text, from) {
        None => Ok((text.len(), 0)),
        Some((start, _body)) => {
            let (bodies, _whole) = read_records(alloc, back(text, start))?;
            Ok((start, bodies.len()))
        }
    }
}

#[test]
fn a_record_within_a_body(rt: HostRuntime) -> Result<(), Fail> {
    let alloc = rt.alloc();
    let mut inner = Vec::new(alloc);
    inner.push(EDIT.to_vec(alloc)?)?;
    let body = records(alloc, &inner)?;
    let mut outer = Vec::new(alloc);
    outer.push(body)?;
    let text = records(alloc, &outer)?;
    assert_eq!(rt;
        next_whole(&text, 0).map(|found| (found.0, found.1.len())),
        Some((0, 58))
    );
    assert_eq!(rt;
        next_whole(&text, 1).map(|found| (found.0, found.1.len())),
        Some((20, 38))
    );
    assert!(rt; next_whole(&text, 21).is_none());
    assert!(rt; next_whole(&text, usize::MAX).is_none());
    assert!(rt; next_whole(b"", 0).is_none());
    Ok(())
}
