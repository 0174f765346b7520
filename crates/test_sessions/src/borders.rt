//! Replies at the border of 2^24 bytes of a body: one byte more is refused, and the session goes on.

ghost use Rattle.std.specs.Prelude.{IfOk};
ghost use Rattle.edit_stamps.specs.PlaneMap.{HasStatesBelow};
ghost use Rattle.stamped_tree.specs.Plane.{map_of};

use crate::dialogues::dialogue;
use edit_stamps::Cell;
use generations_rule::Rule;
use memory_hub::MemoryHub;
use replica_sessions::Session;
use samples::plane_of;
use stamped_tree::Plane;
use std::alloc::{AllocError, Global};
use std::test::Fail;
use std::thread::Threads;
use tree_join::{join, join_laws};

/// How many squares of 8 by 8 cells have two cells; one more has one.
const SQUARES: i32 = 28_722;

/// Two cells in each square, no two alike, so that the state's text has an entry for each: 2^24 - 11 bytes
/// and the rule's text.
fn squares(alloc: Global) -> Result<Vec<Cell>, AllocError> {
    let mut cells = Vec::new(alloc);
    for square in 0..SQUARES {
        let (x, y) = (square % 400 * 8, square / 400 * 8);
        cells.push(cell(x, y, square / 255 % 255 + 1))?;
        cells.push(cell(x + 1, y, square % 255 + 1))?;
    }
    cells.push(cell(8192, 8192, 1))?;
    Ok(cells)
}

/// How many rows have a cell.
const ROWS: i32 = 1_270_995;

/// A cell at the plane's right edge in each row up to one, and one at the left in the first of all, so that
/// the RLE has 13 bytes for each row, and one for five: 2^24 - 13 bytes and the rule's text.
fn edge(alloc: Global, from: i32, to: i32) -> Result<Vec<Cell>, AllocError> {
    let mut cells = Vec::new(alloc);
    cells.push(cell(i32::MIN / 2, 0, 1))?;
    for row in from..to {
        cells.push(cell(i32::MAX / 2, row, 1))?;
    }
    Ok(cells)
}

/// The plane of all rows, which are more than an edit may have cells.
fn far(alloc: Global, rule: &Rule) -> Result<Plane, Fail>
    ensures { IfOk result (λ plane. HasStatesBelow rule.now.states (map_of plane)) }
{
    join_laws();
    let mut plane = plane_of(alloc, rule, &edge(alloc, 0, ROWS / 2)?)?;
    let other = plane_of(alloc, rule, &edge(alloc, ROWS / 2, ROWS)?)?;
    join(alloc, &mut plane, &other)?;
    Ok(plane)
}

fn cell(x: i32, y: i32, state: i32) -> Cell {
    Cell {
        x,
        y,
        state: u8::try_from(state).unwrap_or(1),
    }
}

/// What a session answers over a hub with this plane, which is said to have 2,000 edits behind it.
fn replies<R: Threads + Sync + Drop>(
    rt: R,
    alloc: Global,
    rule: Rule,
    plane: Plane,
    requests: &str,
) -> Result<String, AllocError>
    requires { HasStatesBelow rule.states (map_of plane) }
{
    let hub = MemoryHub::new(alloc, rule, 1, plane, 2000);
    let mut session = Session::new(rt, alloc, hub);
    dialogue(alloc, &mut session, requests)
}

/// A state's text of 2^24 - 1 bytes.
const BELOW: &str = "\
03 -> 00000005 00ffffffff, 00ffffff 47..
04 -> 01000000 00..
";

/// One of 2^24 bytes: alone it goes into a frame, and behind a reply's first byte it does not.
const AT: &str = "\
03 -> 00000005 00ffffffff, 01000000 47..
04 -> 00000001 15
";

/// One of 2^24 + 1 bytes, whose plane is not kept for another poll.
const ABOVE: &str = "\
04 -> 00000001 15
03 -> 00000001 15
03 -> 00000005 0000000000
01 -> 00000010 0000010c3031323334352f322f323536
";

/// What is answered of the squares under a rule.
fn states<R: Threads + Sync + Drop>(
    rt: R,
    alloc: Global,
    rule: &str,
    requests: &str,
) -> Result<String, Fail> {
    let rule = Rule::parse(rule.as_bytes())?;
    let plane = plane_of(alloc, &rule, &squares(alloc)?)?;
    Ok(replies(rt, alloc, rule, plane, requests)?)
}

#[test]
fn a_state_is_sent_up_to_16777216_bytes(rt: HostRuntime) -> Result<(), Fail> {
    let alloc = rt.alloc();
    assert_eq!(rt; states(rt, alloc, "0123/2/256", BELOW)?.as_str(), BELOW);
    assert_eq!(rt; states(rt, alloc, "01234/2/256", AT)?.as_str(), AT);
    assert_eq!(rt; states(rt, alloc, "012345/2/256", ABOVE)?.as_str(), ABOVE);
    Ok(())
}

/// An RLE of 2^24 - 1 bytes.
const LAST: &str = "\
05 00000000 -> 01000000 00..
07 0001 00000000 -> 00000003 000001, 01000000 00..
";

/// One of 2^24 bytes.
const BEYOND: &str = "\
05 00000000 -> 00000001 15
07 0001 00000000 -> 00000003 000001, 00000001 15
01 -> 00000011 0000010d3031323334353637382f322f33
";

/// What is answered of the rows under a rule.
fn exports<R: Threads + Sync + Drop>(
    rt: R,
    alloc: Global,
    rule: &str,
    requests: &str,
) -> Result<String, Fail> {
    let rule = Rule::parse(rule.as_bytes())?;
    let plane = far(alloc, &rule)?;
    Ok(replies(rt, alloc, rule, plane, requests)?)
}

#[test]
fn an_export_is_sent_up_to_16777215_bytes(rt: HostRuntime) -> Result<(), Fail> {
    let alloc = rt.alloc();
    assert_eq!(rt; exports(rt, alloc, "01234567/2/3", LAST)?.as_str(), LAST);
    assert_eq!(rt;
        exports(rt, alloc, "012345678/2/3", BEYOND)?.as_str(),
        BEYOND
    );
    Ok(())
}
