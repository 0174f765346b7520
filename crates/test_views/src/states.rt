//! States as pictures.

use crate::told::{ALL, later, shown, under};
use delta_exchange::write_state;
use edit_stamps::{Cell, Edit, Stamp};
use generations_rule::Rule;
use stamped_tree::Plane;
use std::alloc::Global;
use std::test::Fail;

/// A blinker that stands upright at -1, -1.
static BLINKER: [Cell; 3] = [
    Cell {
        x: -1,
        y: -2,
        state: 1,
    },
    Cell {
        x: -1,
        y: -1,
        state: 1,
    },
    Cell {
        x: -1,
        y: 0,
        state: 1,
    },
];

/// The state of a plane with these cells.
fn state(alloc: Global, rule: &str, cells: &[Cell]) -> Result<Vec<u8>, Fail> {
    let rule = Rule::parse(rule.as_bytes())?;
    let stamp = Stamp::new(1, 1).ok_or("a stamp in range")?;
    let edit = Edit::cells(alloc, &rule, stamp, cells)?;
    Ok(write_state(alloc, &rule, &Plane::of_edit(alloc, &edit)?)?)
}

#[test]
fn states_are_shown(rt: HostRuntime) -> Result<(), Fail> {
    let alloc = rt.alloc();
    let text = state(alloc, "23/3/2", &BLINKER)?;
    assert_eq!(rt; shown(alloc, &ALL, &text)?.as_str(), "O\nO\nO\n");
    assert_eq!(rt; shown(alloc, &later(1), &text)?.as_str(), "OOO\n");
    assert_eq!(rt;
        shown(alloc, &under("23/3/2"), &text)?.as_str(),
        "O\nO\nO\n"
    );
    Ok(())
}

#[test]
fn faulty_states_are_told(rt: HostRuntime) -> Result<(), Fail> {
    let alloc = rt.alloc();
    let mut text = state(alloc, "23/3/2", &BLINKER)?;
    assert_eq!(rt;
        shown(alloc, &under("/2/3"), &text)?.as_str(),
        "refused 16 OtherRule, 0 bytes"
    );
    text.push(0)?;
    assert_eq!(rt;
        shown(alloc, &ALL, &text)?.as_str(),
        "refused 20 Trailing, 0 bytes"
    );
    let want = "no rule is told: give one by --rule, 0 bytes";
    assert_eq!(rt; shown(alloc, &ALL, b"GLWS")?.as_str(), want);
    assert_eq!(rt;
        shown(alloc, &under("23/3/2"), b"GLWS")?.as_str(),
        "refused 17 Short, 0 bytes"
    );
    assert_eq!(rt;
        shown(alloc, &under("23/3/2"), b"GLWS\x03")?.as_str(),
        "refused 15 Version, 0 bytes"
    );
    Ok(())
}
