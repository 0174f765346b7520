//! Texts of which nothing is drawn.

use crate::texts::GLIDER;
use crate::told::{ALL, later, shown, under};
use std::alloc::AllocError;

/// Texts, and why nothing is drawn of them.
static REFUSED: [(&str, &str); 11] = [
    ("", "refused 4 Header, 0 bytes"),
    ("y = 1\no!", "refused 4 Header, 0 bytes"),
    (
        "x = 1, y = 1, rule = 23/3/2\n?!",
        "refused 5 Tag 28, 0 bytes",
    ),
    (
        "x = 1, y = 1, rule = 23/3/2\n0o!",
        "refused 6 Count 28, 0 bytes",
    ),
    (
        "x = 1, y = 1, rule = 23/3/2\nyP!",
        "refused 7 State 28, 0 bytes",
    ),
    (
        "x = 1, y = 1, rule = 23/3/2\n1048577o!",
        "refused 8 TooMany, 0 bytes",
    ),
    (
        "x = 1, y = 1\no!",
        "no rule is told: give one by --rule, 0 bytes",
    ),
    (
        "x = 1, y = 1, rule = Q\no!",
        "no rule at byte 21: give one by --rule, 0 bytes",
    ),
    (
        "x = 1, y = 1, rule = B2e3/S23:T9\no!",
        "the rule at byte 21 is of another family (letters behind counts): this program has Golly's Generations without letters alone, 0 bytes",
    ),
    (
        "#CXRLE Pos=2147483647,0\nx = 2, y = 1, rule = 23/3/2\nBo!",
        "refused 10 OutOfPlane, 0 bytes",
    ),
    (
        "x = 1, y = 1, rule = 23/3/2\nB!",
        "refused 11 StateRange, 0 bytes",
    ),
];

#[test]
fn faults_are_told(rt: HostRuntime) -> Result<(), AllocError> {
    for (text, want) in REFUSED {
        assert_eq!(rt; shown(rt.alloc(), &ALL, text.as_bytes())?.as_str(), want);
    }
    Ok(())
}

/// What is wrong with a text is told before its rule is looked for, and that before its cells.
#[test]
fn first_faults_are_told(rt: HostRuntime) -> Result<(), AllocError> {
    let alloc = rt.alloc();
    assert_eq!(rt;
        shown(alloc, &ALL, b"x = 1, y = 1\n?!")?.as_str(),
        "refused 5 Tag 13, 0 bytes"
    );
    let far = "#CXRLE Pos=2147483647,0\nx = 2, y = 1\nBo!";
    let want = "no rule is told: give one by --rule, 0 bytes";
    assert_eq!(rt; shown(alloc, &ALL, far.as_bytes())?.as_str(), want);
    assert_eq!(rt;
        shown(alloc, &under("23/3/2"), far.as_bytes())?.as_str(),
        "refused 10 OutOfPlane, 0 bytes"
    );
    Ok(())
}

/// Where it is run, a cell has to lie in the plane of edits.
#[test]
fn far_cells_are_not_run(rt: HostRuntime) -> Result<(), AllocError> {
    let alloc = rt.alloc();
    let far = "#CXRLE Pos=1073741824,0\nx = 1, y = 1, rule = 23/3/2\no!";
    assert_eq!(rt; shown(alloc, &ALL, far.as_bytes())?.as_str(), "O\n");
    assert_eq!(rt;
        shown(alloc, &later(0), far.as_bytes())?.as_str(),
        "refused 10 OutOfPlane, 0 bytes"
    );
    let near = "#CXRLE Pos=1073741823,-1073741824\nx = 1, y = 1, rule = 23/3/2\no!";
    assert_eq!(rt; shown(alloc, &later(0), near.as_bytes())?.as_str(), "O\n");
    Ok(())
}

#[test]
fn no_later_generation_is_run(rt: HostRuntime) -> Result<(), AllocError> {
    let alloc = rt.alloc();
    let want = "refused 22 GenRange, 0 bytes";
    assert_eq!(rt;
        shown(alloc, &later(536_870_913), GLIDER.as_bytes())?.as_str(),
        want
    );
    assert_eq!(rt;
        shown(
            alloc,
            &later(536_870_912),
            b"x = 2, y = 2, rule = 23/3/2\n2o$2o!"
        )?
        .as_str(),
        "OO\nOO\n"
    );
    Ok(())
}
