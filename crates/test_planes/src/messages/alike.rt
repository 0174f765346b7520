//! The text of a state with two equal leaves, which are one entry: each byte of it, and each room.

use crate::messages::deltas::brians_brain;
use crate::messages::states::{TWO_ALIKE, is_retold_within, plane_of, text_of_cells, values_read};
use delta_exchange::ReadFault;
use generations_rule::Rule;
use std::alloc::Global;
use std::test::Fail;

/// Whether a byte set to each of its 256 values makes a text that is refused, or read and written as it is;
/// the value that it has is read.
fn is_told_exactly(alloc: Global, rule: &Rule, text: &[u8], place: usize) -> Result<bool, Fail> {
    let read = values_read(alloc, rule, text, place)?;
    Ok(1 <= read && read <= 256)
}

/// The head, the first leaf's writes, and some of its blank ones.
#[test]
fn each_byte_of_equal_squares_is_refused_or_told(rt: HostRuntime) -> Result<(), Fail> {
    let rule = brians_brain()?;
    let text = text_of_cells(rt.alloc(), &TWO_ALIKE)?;
    for place in 0..151 {
        assert!(rt;
            is_told_exactly(rt.alloc(), &rule, &text, place)?,
            "{place}"
        );
    }
    Ok(())
}

/// Each 13th byte behind them, to the last square of four.
#[test]
fn bytes_further_on_are_refused_or_told(rt: HostRuntime) -> Result<(), Fail> {
    let rule = brians_brain()?;
    let text = text_of_cells(rt.alloc(), &TWO_ALIKE)?;
    for step in 0..105_usize {
        assert!(rt;
            is_told_exactly(rt.alloc(), &rule, &text, 151 + step * 13)?,
            "{step}"
        );
    }
    Ok(())
}

/// With room for fewer squares than the plane has its text is not read, and from there on it is.
#[test]
fn equal_squares_want_room_once(rt: HostRuntime) -> Result<(), Fail> {
    let rule = brians_brain()?;
    let text = text_of_cells(rt.alloc(), &TWO_ALIKE)?;
    let squares = plane_of(rt.alloc(), &rule, &TWO_ALIKE)?.copy()?.nodes();
    for room in 1..60_u32 {
        let answer = is_retold_within(rt.alloc(), &rule, &text, room);
        let wanted = if room < squares {
            Err(ReadFault::StoreFull)
        } else {
            Ok(true)
        };
        assert_eq!(rt; answer, wanted);
    }
    assert!(rt; 2 <= squares && squares < 59);
    Ok(())
}
