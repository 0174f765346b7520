//! Patterns as plain text.

use crate::told::{ALL, at, bounds_of, later, shown, under};
use genedit_view::Form;
use std::alloc::AllocError;

/// A glider.
pub const GLIDER: &str = "x = 3, y = 3, rule = 23/3/2\nbo$2bo$3o!\n";

/// Patterns, and their pictures.
static PICTURES: [(&str, &str); 8] = [
    (GLIDER, ".O.\n..O\nOOO\n"),
    (
        "x = 3, y = 3, rule = B3/S23\nbo$2bo$3o!\n",
        ".O.\n..O\nOOO\n",
    ),
    ("x = 9, y = 9, rule = 23/3/2\n!\n", ""),
    ("x = 9, y = 9, rule = /2/3\n2bA$2bB2.A!\n", "A...\nB..A\n"),
    ("#CXRLE Pos=-7,9\nx = 1, y = 1, rule = /2/25\n.AX!", "AX\n"),
    ("x = 5, y = 1, rule = /2/256\npApBqNqOyO!", "YZ9##\n"),
    ("x = 1, y = 1, rule = 23/3/2\no2bo!", "O..O\n"),
    ("x = 1, y = 1, rule = 23/3/2\no3$o!", "O\n.\n.\nO\n"),
];

/// Files in other formats than RLE, and their pictures.
static FILES: [(&str, &str); 2] = [
    (
        "#MCell 2.0\n#RULE 2/234/5\n#BOARD 200x200\n#L .D$.AAD$.3A$DAAD\n",
        ".D..\n.AAD\n.AAA\nDAAD\n",
    ),
    ("#MCell 4.0\n#RULE 23/3\n#L .A$2\n#L .A\n", "O.\n.O\n"),
];

#[test]
fn files_are_shown(rt: HostRuntime) -> Result<(), AllocError> {
    for (text, want) in FILES {
        assert_eq!(rt; shown(rt.alloc(), &ALL, text.as_bytes())?.as_str(), want);
    }
    let rows = b"!Name: Glider\n.O.\n..O\nOOO\n";
    assert_eq!(rt;
        shown(rt.alloc(), &under("23/3/2"), rows)?.as_str(),
        ".O.\n..O\nOOO\n"
    );
    Ok(())
}

/// Files, and the bounds that they tell.
static BOUNDED: [(&str, &str); 4] = [
    ("x = 1, y = 1, rule = B3/S23:T800,800\no!", "T800,800"),
    ("x = 1, y = 1, rule = B3/S23\no!", ""),
    ("#MCell\n#RULE 23/3\n#BOARD 80x40\n#L A", "P80,40"),
    ("#MCell\n#RULE 23/3\n#BOARD 80x40\n#WRAP 1\n#L A", "T80,40"),
];

#[test]
fn bounds_are_told(rt: HostRuntime) -> Result<(), AllocError> {
    for (text, want) in BOUNDED {
        assert_eq!(rt; bounds_of(rt.alloc(), text.as_bytes())?.as_str(), want);
    }
    Ok(())
}

#[test]
fn patterns_are_shown(rt: HostRuntime) -> Result<(), AllocError> {
    for (text, want) in PICTURES {
        assert_eq!(rt; shown(rt.alloc(), &ALL, text.as_bytes())?.as_str(), want);
    }
    Ok(())
}

/// Windows on a glider, and what they show.
static WINDOWS: [(&str, &str, &str); 7] = [
    ("-1,-1", "5,2", ".....\n..O..\n"),
    ("0,0", "2,3", ".O\n..\nOO\n"),
    ("2,2", "2,2", "O.\n..\n"),
    ("1,0", "1,1", "O\n"),
    ("3,0", "2,1", "..\n"),
    ("-2147483648,2", "1,1", ".\n"),
    ("2147483646,2147483647", "2,1", "..\n"),
];

#[test]
fn windows_are_shown(rt: HostRuntime) -> Result<(), AllocError> {
    for (corner, size, want) in WINDOWS {
        let options = at(Form::Plain, corner, size);
        assert_eq!(rt;
            shown(rt.alloc(), &options, GLIDER.as_bytes())?.as_str(),
            want
        );
    }
    Ok(())
}

/// A cell in the last place that there is, and one in the first.
#[test]
fn edges_are_shown(rt: HostRuntime) -> Result<(), AllocError> {
    let last = "#CXRLE Pos=2147483647,2147483647\nx = 1, y = 1, rule = 23/3/2\no!";
    let options = at(Form::Plain, "2147483646,2147483646", "2,2");
    assert_eq!(rt;
        shown(rt.alloc(), &options, last.as_bytes())?.as_str(),
        "..\n.O\n"
    );
    let first = "#CXRLE Pos=-2147483648,-2147483648\nx = 1, y = 1, rule = 23/3/2\no!";
    let options = at(Form::Plain, "-2147483648,-2147483648", "2,1");
    assert_eq!(rt;
        shown(rt.alloc(), &options, first.as_bytes())?.as_str(),
        "O.\n"
    );
    Ok(())
}

#[test]
fn wide_boxes_are_cut(rt: HostRuntime) -> Result<(), AllocError> {
    let text = "x = 129, y = 1, rule = 23/3/2\n129o!";
    let mut want = String::new(rt.alloc());
    for _column in 0..128 {
        want.push('O')?;
    }
    want.push_str("\ncut: 129 by 1\n")?;
    assert_eq!(rt;
        shown(rt.alloc(), &ALL, text.as_bytes())?.as_str(),
        want.as_str()
    );
    Ok(())
}

#[test]
fn high_boxes_are_cut(rt: HostRuntime) -> Result<(), AllocError> {
    let text = "x = 1, y = 65, rule = 23/3/2\no64$o!";
    let mut want = String::from_str(rt.alloc(), "O\n")?;
    for _row in 0..63 {
        want.push_str(".\n")?;
    }
    want.push_str("cut: 1 by 65\n")?;
    assert_eq!(rt;
        shown(rt.alloc(), &ALL, text.as_bytes())?.as_str(),
        want.as_str()
    );
    Ok(())
}

/// A box of 128 columns is not cut, and a window that is asked for is not either.
#[test]
fn others_are_not_cut(rt: HostRuntime) -> Result<(), AllocError> {
    let alloc = rt.alloc();
    let line = shown(alloc, &ALL, b"x = 128, y = 1, rule = 23/3/2\n128o!")?;
    assert_eq!(rt; line.len(), 129);
    let window = shown(alloc, &at(Form::Plain, "0,0", "129,1"), GLIDER.as_bytes())?;
    assert_eq!(rt; window.len(), 130);
    Ok(())
}

/// After four generations a glider is one column and one row further.
#[test]
fn gliders_go_on(rt: HostRuntime) -> Result<(), AllocError> {
    let alloc = rt.alloc();
    assert_eq!(rt;
        shown(alloc, &later(4), GLIDER.as_bytes())?.as_str(),
        ".O.\n..O\nOOO\n"
    );
    let mut options = at(Form::Plain, "0,0", "4,4");
    options.generation = Some(4);
    let want = "....\n..O.\n...O\n.OOO\n";
    assert_eq!(rt; shown(alloc, &options, GLIDER.as_bytes())?.as_str(), want);
    assert_eq!(rt;
        shown(alloc, &later(0), b"x = 0, y = 0, rule = 23/3/2\n!")?.as_str(),
        ""
    );
    Ok(())
}

/// The rule that is given counts, and not the header's: under it an `o` is `A`.
#[test]
fn given_rules_count(rt: HostRuntime) -> Result<(), AllocError> {
    assert_eq!(rt;
        shown(rt.alloc(), &under("/2/3"), GLIDER.as_bytes())?.as_str(),
        ".A.\n..A\nAAA\n"
    );
    assert_eq!(rt;
        shown(rt.alloc(), &under("/2/3"), b"x = 1, y = 1\no!")?.as_str(),
        "A\n"
    );
    Ok(())
}
