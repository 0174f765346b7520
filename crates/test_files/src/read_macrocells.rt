//! Macrocells that files are made of, and that are read back.

use crate::macrocells::{CORNERS, MADE};
use crate::told::{converted, macrocell};
use std::alloc::{AllocError, Global};

/// Macrocells, generations later, rules, and the RLE texts that they are converted to, with their bounds.
static READ: [(&str, Option<u32>, &str, &str); 12] = [
    (
        "[M2] (pazgrot)\n#R /2/3\n#G 5\n1 0 0 1 2\n1 1 0 0 0\n2 0 1 0 2\n",
        None,
        "",
        "#CXRLE Pos=0,0 Gen=5\nx = 2, y = 2, rule = /2/3\nAB$A!\n",
    ),
    (
        "[M2] (pazgrot)\n#R B3/S23\n#G 4\n$$$$$$$.*$\n..*$***$\n4 0 1 0 2\n",
        None,
        "",
        "#CXRLE Pos=0,0 Gen=4\nx = 3, y = 3, rule = B3/S23\nbo$2bo$3o!\n",
    ),
    (
        "[M2] (golly 3.3)\r\n#R B3/S23:T800,600\r\n#G 4\r\n$$$$$$$.*$\r\n..*$***$\r\n4 0 1 0 2\r\n",
        Some(4),
        "",
        "#CXRLE Pos=1,1 Gen=8\nx = 3, y = 3, rule = B3/S23\nbo$2bo$3o!\nT800,600",
    ),
    (
        "[M2]\n$$$$$$$.*$\n..*$***$\n4 0 1 0 2\n",
        None,
        "23/36/2",
        "#CXRLE Pos=0,0 Gen=0\nx = 3, y = 3, rule = B36/S23\nbo$2bo$3o!\n",
    ),
    (
        "[M2] (pazgrot)\n#R /2/3\n",
        None,
        "",
        "#CXRLE Pos=0,0 Gen=0\nx = 0, y = 0, rule = /2/3\n!\n",
    ),
    (
        "[M2]\n1 0 0 0 1\n",
        None,
        "",
        "no rule is told: give one by --rule",
    ),
    (
        "[M2]\n#R Q\n1 0 0 0 1\n",
        None,
        "",
        "no rule at byte 8: give one by --rule",
    ),
    (
        "[M2]\n#R /2/3\n#G 18446744073709551615\n",
        Some(1),
        "",
        "refused 22 GenRange",
    ),
    (
        "[M2]\n#R /2/3\n1 0 0 0 3\n",
        None,
        "",
        "refused 11 StateRange",
    ),
    (
        "[M2]\n#R /2/3\n1 1 0 0 0\n2 1 0 0 0\n1 0 2 0 0\n3 2 0 0 0\n3 0 2 0 0\n",
        None,
        "",
        "#CXRLE Pos=0,-3 Gen=0\nx = 1, y = 1, rule = /2/3\nA!\n",
    ),
    (
        "#CXRLE Pos=0,0\n[M2]\n#R /2/3\n",
        None,
        "",
        "refused 4 Header",
    ),
    (
        "[M2]\n#R /2/3\n2 0 1 0 0\n",
        None,
        "",
        "refused 44 Square 17",
    ),
];

#[test]
fn macrocells_are_converted(rt: HostRuntime) -> Result<(), AllocError> {
    for (file, generation, rule, want) in READ {
        assert_eq!(rt;
            converted(rt.alloc(), file.as_bytes(), generation, rule)?.as_str(),
            want
        );
    }
    Ok(())
}

/// The RLE text of the macrocell of a file.
fn through(
    alloc: Global,
    file: &str,
    generation: Option<u32>,
    rule: &str,
) -> Result<String, AllocError> {
    let written = macrocell(alloc, file.as_bytes(), generation, rule)?;
    converted(alloc, written.as_bytes(), None, "")
}

#[test]
fn what_is_written_reads_as_the_same_cells(rt: HostRuntime) -> Result<(), AllocError> {
    let alloc = rt.alloc();
    for (file, generation, rule, want) in MADE {
        if want.starts_with("[M2]") {
            let direct = converted(alloc, file.as_bytes(), generation, rule)?;
            let read = through(alloc, file, generation, rule)?;
            // A macrocell has no comments.
            assert!(rt; read.starts_with("#CXRLE") && direct.ends_with(read.as_str()));
        }
    }
    Ok(())
}

/// Two cells in the plane's corners: a text of 751 bytes, and the header of their box.
#[test]
fn cells_in_the_corners_of_the_plane_are_read_back(rt: HostRuntime) -> Result<(), AllocError> {
    let alloc = rt.alloc();
    assert_eq!(rt;
        through(alloc, CORNERS, None, "")?.as_str(),
        converted(alloc, CORNERS.as_bytes(), None, "")?.as_str()
    );
    Ok(())
}

/// A macrocell is written of one that is read, the same but for its first line.
#[test]
fn a_macrocell_is_written_of_one(rt: HostRuntime) -> Result<(), AllocError> {
    let golly = "[M2] (golly 3.3)\n#R /2/3\n#G 5\n1 0 0 1 2\n1 1 0 0 0\n2 0 1 0 2\n";
    assert_eq!(rt;
        macrocell(rt.alloc(), golly.as_bytes(), None, "")?.as_str(),
        "[M2] (pazgrot)\n#R /2/3\n#G 5\n1 0 0 1 2\n1 1 0 0 0\n2 0 1 0 2\n"
    );
    Ok(())
}
