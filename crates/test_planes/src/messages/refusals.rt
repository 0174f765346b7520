//! What is refused in deltas, by the first fault from the left.

use crate::messages::deltas::{ONE_CELL, told};
use delta_exchange::ReadFault;
use std::alloc::Global;
use std::test::Fail;

/// What stands behind a head under Brian's Brain, and why it is refused.
#[derive(Clone, Copy)]
struct Refused {
    rest: &'static [u8],
    fault: ReadFault,
}

/// One edit of counter 1 and replica 1 begins.
static EDIT: &[u8] = b"\0\0\0\x01\0\0\0\0\0\x01\0\x01";

/// A flag that is none; areas that leave the plane and are empty, are empty, or leave the plane by
/// their width; cells that are none, too many, of no state or place, and twice one cell.
static IN_AN_EDIT: [Refused; 9] = [
    Refused {
        rest: b"\x02",
        fault: ReadFault::NotCanonical,
    },
    Refused {
        rest: b"\x01\x80\0\0\0\x40\0\0\0\0\0\0\0\0\0\0\x01",
        fault: ReadFault::OutOfPlane,
    },
    Refused {
        rest: b"\x01\x40\0\0\0\x40\0\0\0\0\0\0\0\0\0\0\x01",
        fault: ReadFault::Nothing,
    },
    Refused {
        rest: b"\x01\x40\0\0\0\x40\0\0\0\x40\0\0\x01\0\0\0\x01",
        fault: ReadFault::OutOfPlane,
    },
    Refused {
        rest: b"\0\0\0\0\0",
        fault: ReadFault::Nothing,
    },
    Refused {
        rest: b"\0\0\x10\0\x01",
        fault: ReadFault::TooMany,
    },
    Refused {
        rest: b"\0\0\0\0\x01\x80\0\0\0\x40\0\0\0\x03",
        fault: ReadFault::StateRange,
    },
    Refused {
        rest: b"\0\0\0\0\x01\x80\0\0\0\x40\0\0\0\x02",
        fault: ReadFault::OutOfPlane,
    },
    Refused {
        rest: b"\0\0\0\0\x02\x40\0\0\0\x40\0\0\0\x01\x40\0\0\0\x40\0\0\0\x01",
        fault: ReadFault::NotCanonical,
    },
];

fn told_in_an_edit(alloc: Global, rest: &[u8]) -> Result<Result<usize, ReadFault>, Fail> {
    let mut text = Vec::from_slice(alloc, &ONE_CELL[..10])?;
    text.extend_from_slice(EDIT)?;
    text.extend_from_slice(rest)?;
    told(alloc, &text)
}

#[test]
fn faults_of_an_edit_are_told(rt: HostRuntime) -> Result<(), Fail> {
    for refused in &IN_AN_EDIT {
        assert_eq!(rt;
            told_in_an_edit(rt.alloc(), refused.rest)?,
            Err(refused.fault)
        );
    }
    Ok(())
}

/// Texts that are no head of a delta under this rule.
static HEADS: [Refused; 5] = [
    Refused {
        rest: b"",
        fault: ReadFault::Short,
    },
    Refused {
        rest: b"GL",
        fault: ReadFault::Short,
    },
    Refused {
        rest: b"XXXX",
        fault: ReadFault::Magic,
    },
    Refused {
        rest: b"GLWD\x02",
        fault: ReadFault::Version,
    },
    Refused {
        rest: b"GLWD\x01\x04/3/3",
        fault: ReadFault::OtherRule,
    },
];

#[test]
fn faults_of_a_head_are_told(rt: HostRuntime) -> Result<(), Fail> {
    for refused in &HEADS {
        assert_eq!(rt; told(rt.alloc(), refused.rest)?, Err(refused.fault));
    }
    Ok(())
}
