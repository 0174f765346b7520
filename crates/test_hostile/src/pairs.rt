//! Texts with two faults: the one further to the left is told. With that one mended it is the other.

use crate::spelling::{DELTA, FIRST, STATE, text_of};
use crate::telling::fault_of;
use delta_exchange::ReadFault;
use std::alloc::Global;
use std::test::Fail;

/// A text with two faults, and the same with the first of them mended.
struct Pair {
    head: &'static str,
    both: &'static str,
    first: ReadFault,
    mended: &'static str,
    second: ReadFault,
}

static HEADS: [Pair; 5] = [
    Pair {
        head: "",
        both: "58585858 03",
        first: ReadFault::Magic,
        mended: "474c5753 03",
        second: ReadFault::Version,
    },
    Pair {
        head: "",
        both: "474c5744 02 04 2f332f33",
        first: ReadFault::Version,
        mended: "474c5744 01 04 2f332f33",
        second: ReadFault::OtherRule,
    },
    Pair {
        head: "",
        both: "474c5753 03 04 2f332f33",
        first: ReadFault::Version,
        mended: "474c5753 01 04 2f332f33",
        second: ReadFault::OtherRule,
    },
    Pair {
        head: "",
        both: "474c5753 02 04 2f332f33",
        first: ReadFault::OtherRule,
        mended: "474c5753 02 04 2f322f33",
        second: ReadFault::Short,
    },
    // The rule's bytes are not all there, though those that are there are another's.
    Pair {
        head: "",
        both: "474c5744 01 04 2f332f",
        first: ReadFault::Short,
        mended: "474c5744 01 04 2f332f33",
        second: ReadFault::OtherRule,
    },
];

static EDITS: [Pair; 6] = [
    Pair {
        head: DELTA,
        both: "00000001 0000000000010000 02",
        first: ReadFault::StampRange,
        mended: "00000001 0000000000010001 02",
        second: ReadFault::NotCanonical,
    },
    Pair {
        head: DELTA,
        both: "00000001 0000000000010001 02 00100001",
        first: ReadFault::NotCanonical,
        mended: "00000001 0000000000010001 00 00100001",
        second: ReadFault::TooMany,
    },
    Pair {
        head: DELTA,
        both: "00000001 0000000000010001 01 40000000 80000000 00000001 00000000",
        first: ReadFault::OutOfPlane,
        mended: "00000001 0000000000010001 01 40000000 7fffffff 00000001 00000000",
        second: ReadFault::Nothing,
    },
    Pair {
        head: DELTA,
        both: "00000001 0000000000010001 01 40000000 40000000 00000001 00000000 00100001",
        first: ReadFault::Nothing,
        mended: "00000001 0000000000010001 01 40000000 40000000 00000001 00000001 00100001",
        second: ReadFault::TooMany,
    },
    // The second edit's stamp is none.
    Pair {
        head: DELTA,
        both: "00000002 0000000000010001 00 00000000 0000000000000000",
        first: ReadFault::Nothing,
        mended: "00000002 0000000000010001 00 00000001 40000000 40000000 01 0000000000000000",
        second: ReadFault::StampRange,
    },
    // The text ends behind the stamp.
    Pair {
        head: DELTA,
        both: "00000001 0001000000000000",
        first: ReadFault::StampRange,
        mended: "00000001 0001000000000001",
        second: ReadFault::Short,
    },
];

static CELLS: [Pair; 7] = [
    Pair {
        head: DELTA,
        both: "00000001 0000000000010001 00 00000001 80000000 40000000 03",
        first: ReadFault::StateRange,
        mended: "00000001 0000000000010001 00 00000001 80000000 40000000 02",
        second: ReadFault::OutOfPlane,
    },
    // The second cell leaves the plane, and its row comes before the first's.
    Pair {
        head: DELTA,
        both: "00000001 0000000000010001 00 00000002 40000000 40000000 01 80000000 3fffffff 01",
        first: ReadFault::OutOfPlane,
        mended: "00000001 0000000000010001 00 00000002 40000000 40000000 01 7fffffff 3fffffff 01",
        second: ReadFault::NotCanonical,
    },
    // A cell that is not all there says nothing of its coordinates.
    Pair {
        head: DELTA,
        both: "00000001 0000000000010001 00 00000001 80000000 80000000",
        first: ReadFault::Short,
        mended: "00000001 0000000000010001 00 00000001 80000000 80000000 01",
        second: ReadFault::OutOfPlane,
    },
    // A dead cell within an area, and a second one of no state.
    Pair {
        head: DELTA,
        both: "00000001 0000000000010001 01 40000000 40000000 00000002 00000001 00000002 \
        40000000 40000000 00 40000001 40000000 ff",
        first: ReadFault::NotCanonical,
        mended: "00000001 0000000000010001 01 40000000 40000000 00000002 00000001 00000002 \
        40000000 40000000 01 40000001 40000000 ff",
        second: ReadFault::StateRange,
    },
    // A cell outside the area of its edit, and a byte behind the message.
    Pair {
        head: DELTA,
        both: "00000001 0000000000010001 01 40000000 40000000 00000001 00000001 00000001 \
        40000001 40000000 01 00",
        first: ReadFault::NotCanonical,
        mended: "00000001 0000000000010001 01 40000000 40000000 00000001 00000001 00000001 \
        40000000 40000000 01 00",
        second: ReadFault::Trailing,
    },
    // One cell twice, and the second edit's flag is none.
    Pair {
        head: DELTA,
        both: "00000002 0000000000010001 00 00000002 40000000 40000000 01 40000000 40000000 01 \
        0000000000020001 02",
        first: ReadFault::NotCanonical,
        mended: "00000002 0000000000010001 00 00000002 40000000 40000000 01 40000001 40000000 01 \
        0000000000000001 02",
        second: ReadFault::StampRange,
    },
    // More cells than may be, and bytes behind what stands for them.
    Pair {
        head: DELTA,
        both: "00000001 0000000000010001 00 ffffffff 40000000 40000000 03",
        first: ReadFault::TooMany,
        mended: "00000001 0000000000010001 00 00100000 40000000 40000000 03",
        second: ReadFault::StateRange,
    },
];

static SQUARES: [Pair; 9] = [
    Pair {
        head: STATE,
        both: "00000000 0000000000000001 00",
        first: ReadFault::StampRange,
        mended: "00000000 0000000000010001 00",
        second: ReadFault::Trailing,
    },
    Pair {
        head: STATE,
        both: "00000001 02 0000000000000001",
        first: ReadFault::NotCanonical,
        mended: "00000001 03 0000000000000001 00",
        second: ReadFault::StampRange,
    },
    Pair {
        head: STATE,
        both: "00000001 03 0000000000000000 03",
        first: ReadFault::StampRange,
        mended: "00000001 03 0000000000010001 03",
        second: ReadFault::StateRange,
    },
    Pair {
        head: STATE,
        both: "00000001 03 0000000000010001 03 0000000000000001 00",
        first: ReadFault::StateRange,
        mended: "00000001 03 0000000000010001 02 0000000000000001 00",
        second: ReadFault::StampRange,
    },
    Pair {
        head: STATE,
        both: "00000001 1f 00 0001000000000000 02",
        first: ReadFault::StampRange,
        mended: "00000001 1f 00 0001000000000001 02",
        second: ReadFault::NotCanonical,
    },
    // An entry that names itself, and a stamp that is none.
    Pair {
        head: STATE,
        both: "00000001 1f 01 00000000 00 0000000000000001",
        first: ReadFault::NotCanonical,
        mended: "00000001 1f 00 0000000000000000 00 0000000000000001",
        second: ReadFault::StampRange,
    },
    // A blank spelt out, before the text ends with an entry missing.
    Pair {
        head: STATE,
        both: "00000002 1f 00 0000000000010001 00 0000000000010001 00 0000000000010001 00 0000000000010001",
        first: ReadFault::NotCanonical,
        mended: "00000002 1f 00 0000000000010001 00 0000000000010001 00 0000000000010001 00 0000000000020001",
        second: ReadFault::Short,
    },
    // An entry that the walk does not meet, and a byte behind the message.
    Pair {
        head: STATE,
        both: "00000002 1f 00 0000000000010001 00 0000000000000000 00 0000000000000000 00 0000000000000000 \
        1f 00 0000000000020001 00 0000000000000000 00 0000000000000000 00 0000000000000000 00",
        first: ReadFault::NotCanonical,
        mended: "00000001 1f 00 0000000000020001 00 0000000000000000 00 0000000000000000 00 0000000000000000 00",
        second: ReadFault::Trailing,
    },
    // The last entry is of level 30, and a byte stands behind the message.
    Pair {
        head: STATE,
        both: "00000001 1e 00 0000000000010001 00 0000000000000000 00 0000000000000000 00 0000000000000000 00",
        first: ReadFault::NotCanonical,
        mended: "00000001 1f 00 0000000000010001 00 0000000000000000 00 0000000000000000 00 0000000000000000 00",
        second: ReadFault::Trailing,
    },
];

static FIRST_SQUARES: [Pair; 4] = [
    Pair {
        head: FIRST,
        both: "00 0000000000000001 00",
        first: ReadFault::StampRange,
        mended: "00 0000000000010001 00",
        second: ReadFault::Trailing,
    },
    Pair {
        head: FIRST,
        both: "02 00 0000000000000001 03",
        first: ReadFault::StampRange,
        mended: "02 00 0000000000010001 03",
        second: ReadFault::NotCanonical,
    },
    Pair {
        head: FIRST,
        both: "02 03 00 0000000000000001",
        first: ReadFault::NotCanonical,
        mended: "02 00 0000000000000000 00 0000000000000001",
        second: ReadFault::StampRange,
    },
    Pair {
        head: FIRST,
        both: "02 00 0000000000000000 00 0000000000000000 00 0000000000000000 00 0000000000000000 00",
        first: ReadFault::NotCanonical,
        mended: "02 00 0000000000010001 00 0000000000000000 00 0000000000000000 00 0000000000000000 00",
        second: ReadFault::Trailing,
    },
];

/// The faults of a pair's two texts.
fn faults(alloc: Global, pair: &Pair) -> Result<[Option<ReadFault>; 2], Fail> {
    let both = text_of(alloc, pair.head, pair.both)?;
    let mended = text_of(alloc, pair.head, pair.mended)?;
    Ok([fault_of(alloc, &both)?, fault_of(alloc, &mended)?])
}

/// The first pair of which something else is told, by its place.
fn first_amiss(alloc: Global, pairs: &[Pair]) -> Result<Option<usize>, Fail> {
    for (place, pair) in pairs.iter().enumerate() {
        if faults(alloc, pair)? != [Some(pair.first), Some(pair.second)] {
            return Ok(Some(place));
        }
    }
    Ok(None)
}

#[test]
fn the_first_fault_of_a_head_is_told(rt: HostRuntime) -> Result<(), Fail> {
    assert_eq!(rt; first_amiss(rt.alloc(), &HEADS)?, None);
    Ok(())
}

#[test]
fn the_first_fault_of_a_delta_is_told(rt: HostRuntime) -> Result<(), Fail> {
    assert_eq!(rt; first_amiss(rt.alloc(), &EDITS)?, None);
    assert_eq!(rt; first_amiss(rt.alloc(), &CELLS)?, None);
    Ok(())
}

#[test]
fn the_first_fault_of_a_state_is_told(rt: HostRuntime) -> Result<(), Fail> {
    assert_eq!(rt; first_amiss(rt.alloc(), &SQUARES)?, None);
    assert_eq!(rt; first_amiss(rt.alloc(), &FIRST_SQUARES)?, None);
    Ok(())
}
