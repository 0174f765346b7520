//! Texts that files are converted to.

use crate::told::converted;
use std::alloc::AllocError;

/// Files, generations later, rules, and what they are converted to.
static MADE: [(&str, Option<u32>, &str, &str); 7] = [
    (
        "#MCell 2.0\n#RULE 2/234/5\n#BOARD 200x200\n#D a spiral\n#L .D$.AAD$.3A$DAAD\n",
        None,
        "",
        "#C a spiral\n#CXRLE Pos=-2,-2 Gen=0\nx = 4, y = 4, rule = 2/234/5\n.D$.2AD$.3A$D2AD!\nP200,200",
    ),
    (
        "!Name: Glider\n!\n.O.\n..O\nOOO\n",
        None,
        "23/3/2",
        "#C Name: Glider\n#C\n#CXRLE Pos=0,0 Gen=0\nx = 3, y = 3, rule = B3/S23\nbo$2bo$3o!\n",
    ),
    (
        "#N Glider\n#CXRLE Pos=5,6 Gen=7\n#C  a\nx = 3, y = 3, rule = B3/S23:T8,8\nbo$2bo$3o!\n#O b",
        Some(4),
        "",
        "#N Glider\n#C  a\n#O b\n#CXRLE Pos=6,7 Gen=11\nx = 3, y = 3, rule = B3/S23\nbo$2bo$3o!\nT8,8",
    ),
    ("!\nO", None, "", "no rule is told: give one by --rule"),
    (
        "#CXRLE Gen=18446744073709551615\nx = 1, y = 1, rule = 23/3/2\no!",
        Some(1),
        "",
        "refused 22 GenRange",
    ),
    (
        "#MCell\n#RULE 2/234/5\n#L .E",
        None,
        "",
        "refused 11 StateRange",
    ),
    (
        "#CXRLE Pos=2147483647,0\nx = 2, y = 1, rule = 23/3/2\nBo!",
        None,
        "",
        "refused 10 OutOfPlane",
    ),
];

#[test]
fn files_are_converted(rt: HostRuntime) -> Result<(), AllocError> {
    for (file, generation, rule, want) in MADE {
        assert_eq!(rt;
            converted(rt.alloc(), file.as_bytes(), generation, rule)?.as_str(),
            want
        );
    }
    Ok(())
}
