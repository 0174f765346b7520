//! Worked files, and what is read of them. Cells and places of the MCell files are those that bgolly 3.3 tells.

use crate::told::cells_of;
use cell_files::{CellFormat, comment_lines, file_bounds, file_rule};
use std::alloc::AllocError;

/// Files and their cells.
static FILES: [(&str, &str); 9] = [
    (
        "#MCell 2.0\n#RULE 2/234/5\n#BOARD 200x200\n#L .D$.AAD$.3A$DAAD\n",
        "4 4 at -2 -2 gen 0, 1 0 4, 1 1 1, 2 1 1, 3 1 4, 1 2 1, 2 2 1, 3 2 1, 0 3 4, 1 3 1, 2 3 1, 3 3 4",
    ),
    (
        "#MCell\n#BOARD 200x200\n#L 50.A\n",
        "51 1 at 0 0 gen 0, 50 0 1",
    ),
    (
        "#MCell\n#BOARD 200x200\n#L 50.A3.A\n",
        "55 1 at -2 0 gen 0, 50 0 1, 54 0 1",
    ),
    (
        "#MCell\n#BOARD 201x200\n#L 7$50.A4.A\n",
        "56 8 at -2 0 gen 0, 50 7 1, 55 7 1",
    ),
    (
        "#MCell\n#BOARD 5x2\n#L 7$50.A40.A\n",
        "92 8 at -20 0 gen 0, 50 7 1, 91 7 1",
    ),
    (
        "#MCell\n#RULE 2/234/30\n#L 3.aA.aB\n",
        "6 1 at 0 0 gen 0, 3 0 25, 5 0 26",
    ),
    (
        "#MCell\r\n#L 2\r\n#L .A\r\n#GAME Life\r\n#LA\r\n",
        "3 1 at 0 0 gen 0, 2 0 1",
    ),
    (
        "!Name\n.O\n\n.O*\r\n..O\rO\n! c\nOO\n",
        "3 6 at 0 0 gen 0, 1 0 1, 1 2 1, 2 2 1, 2 3 1, 0 4 1, 0 5 1, 1 5 1",
    ),
    (".O\nO", "2 2 at 0 0 gen 0, 1 0 1, 0 1 1"),
];

#[test]
fn files_are_read(rt: HostRuntime) -> Result<(), AllocError> {
    for (file, want) in FILES {
        assert_eq!(rt; cells_of(rt.alloc(), file.as_bytes())?.as_str(), want);
    }
    Ok(())
}

/// Files, and how they begin to be told.
static FORMATS: [(&str, CellFormat); 7] = [
    ("x = 1, y = 1\no!", CellFormat::Rle),
    ("", CellFormat::Rle),
    ("#MCell", CellFormat::MCell),
    ("!", CellFormat::Plaintext),
    ("...\n", CellFormat::Plaintext),
    ("[M2]", CellFormat::Macrocell),
    ("GLWS", CellFormat::State),
];

#[test]
fn formats_are_told(rt: HostRuntime) -> Result<(), AllocError> {
    for (file, want) in FORMATS {
        assert!(rt; CellFormat::of(file.as_bytes()) == want);
    }
    assert!(rt; CellFormat::of(b"01234567890123456789GLWD\x01") == CellFormat::Document);
    Ok(())
}

/// Files, and the bounds that they tell.
static BOUNDS: [(&str, &str); 5] = [
    ("x = 1, y = 1, rule = B3/S23:T800,800 \no!", "T800,800"),
    ("#MCell\n#BOARD 80x40", "P80,40"),
    ("#MCell\n#WRAP 1\n#BOARD 80x40\n#BOARD 10x0", "T10,0"),
    ("#MCell\n#BOARD 0x0", ""),
    ("!x = 1, y = 1, rule = B3/S23:T8\nO", ""),
];

#[test]
fn bounds_are_told(rt: HostRuntime) -> Result<(), AllocError> {
    let alloc = rt.alloc();
    for (file, want) in BOUNDS {
        let told = match file_bounds(alloc, file.as_bytes())? {
            Some(bounds) => bounds,
            None => Vec::new(alloc),
        };
        assert!(rt; told.as_slice() == want.as_bytes());
    }
    Ok(())
}

#[test]
fn rules_are_told(rt: HostRuntime) -> Result<(), AllocError> {
    match file_rule(b"#MCell 4.0\n#RULE 23/3\n#RULE  2/13/21 x\n") {
        Some(told) => {
            assert_eq!(rt; told.place, 29);
            assert_eq!(rt; told.length, 7);
            match told.rule {
                Ok(rule) => assert_eq!(rt; rule.states(), 21),
                Err(_) => assert!(rt; false, "it is a rule"),
            }
        }
        None => assert!(rt; false, "a rule is told"),
    }
    assert!(rt; file_rule(b"!rule = B3/S23\nO").is_none());
    Ok(())
}

/// Comments of files.
static COMMENTS: [(CellFormat, &str, &str); 3] = [
    (
        CellFormat::Rle,
        "#N a\n#CXRLE Pos=1,1\n#C  b\n#r 23/3\n#C\n#Oc\nx = 1, y = 1\no!\n#O c\r\n",
        "#N a\n#C  b\n#C\n#O c\n",
    ),
    (CellFormat::MCell, "#MCell\n#D a\n#D\n#N b\n", "#C a\n#C\n"),
    (
        CellFormat::Plaintext,
        "!XRLE Pos=1,1\n.O\n! a\n",
        "#C XRLE Pos=1,1\n#C a\n",
    ),
];

#[test]
fn comments_are_kept(rt: HostRuntime) -> Result<(), AllocError> {
    for (format, file, want) in COMMENTS {
        let lines = comment_lines(rt.alloc(), format, file.as_bytes())?;
        assert!(rt; lines.as_slice() == want.as_bytes());
    }
    Ok(())
}
