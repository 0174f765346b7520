//! Macrocells that files are converted to. What stands behind the first line is what bgolly 3.3 writes.

use crate::told::macrocell;
use std::alloc::AllocError;

/// Files, generations later, rules, and their macrocells.
pub static MADE: [(&str, Option<u32>, &str, &str); 7] = [
    (
        "#CXRLE Pos=0,0 Gen=5\nx = 2, y = 2, rule = /2/3\nAB$A!",
        None,
        "",
        "[M2] (pazgrot)\n#R /2/3\n#G 5\n1 0 0 1 2\n1 1 0 0 0\n2 0 1 0 2\n",
    ),
    (
        "!\n.O\n..O\nOOO",
        Some(4),
        "23/3/2",
        "[M2] (pazgrot)\n#R B3/S23\n#G 4\n..*$...*$.***$\n4 0 0 0 1\n",
    ),
    (
        "#CXRLE Pos=0,0 Gen=4\nx = 3, y = 3, rule = B3/S23\nbo$2bo$3o!",
        None,
        "",
        "[M2] (pazgrot)\n#R B3/S23\n#G 4\n$$$$$$$.*$\n..*$***$\n4 0 1 0 2\n",
    ),
    (
        "#CXRLE Pos=-1,0\nx = 2, y = 2, rule = 345/2/4\nA$.C!",
        None,
        "",
        "[M2] (pazgrot)\n#R 345/2/4\n1 1 0 0 3\n",
    ),
    ("!\n", None, "/2/3", "[M2] (pazgrot)\n#R /2/3\n"),
    (
        "#CXRLE Pos=1073741824,0\nx = 1, y = 1, rule = /2/3\nA!",
        None,
        "",
        "refused 10 OutOfPlane",
    ),
    ("!\nO", Some(536870913), "/2/3", "refused 22 GenRange"),
];

#[test]
fn files_are_made_macrocells(rt: HostRuntime) -> Result<(), AllocError> {
    for (file, generation, rule, want) in MADE {
        assert_eq!(rt;
            macrocell(rt.alloc(), file.as_bytes(), generation, rule)?.as_str(),
            want
        );
    }
    Ok(())
}

/// 1 and 2 in the corners of the plane.
pub const CORNERS: &str =
    "#CXRLE Pos=-1073741824,-1073741824\nx = 2147483648, y = 2147483648, rule = /2/3\n\
    A2147483647$2147483647.B!";

#[test]
fn cells_in_the_corners_of_the_plane_have_lines_of_their_own(
    rt: HostRuntime,
) -> Result<(), AllocError> {
    let text = macrocell(rt.alloc(), CORNERS.as_bytes(), None, "")?;
    assert_eq!(rt; text.len(), 751);
    Ok(())
}
