//! Squares of a macrocell about its middle.

ghost use Rattle.std.specs.Prelude.{◌≡◌, ◌≤◌, ◌<◌, ◌-◌, ◌+◌, true};
ghost use Rattle.macrocell_text.specs.Macrocells.{AreLevelled, AreSquares, are_entries, squares_of};
ghost use Rattle.macrocell_text.specs.Maps.{map_of_root};
ghost use Rattle.macrocell_universes.specs.Middles.{IsMiddleOf, LiesInPlane};
ghost use Rattle.macrocell_universes.specs.Numbered.{IsNumbered, square_of};

use crate::lowering::quarters_of;
use crate::quarters::{Numbered, Quarters};
use macrocell_text::Entry;

/// The greatest level of four squares about the middle that lie in the universe, one row further down.
const GREATEST: u8 = 31;

/// Four squares of a level about the middle of a macrocell, by what stands for them.
#[derive(Clone, Copy)]
pub(crate) struct Middle {
    pub level: u8,
    pub four: Quarters,
}

/// Those that lie in the universe and have all live cells of a root, which lie in the plane.
pub(crate) fn middle_of(entries: &[Entry], root: Numbered) -> Middle
    requires squares { AreSquares (squares_of entries.now) }
    requires levels { AreLevelled entries.now }
    requires entries { are_entries entries.now ≡ true }
    requires level { 3 < root.level }
    requires is { IsNumbered entries.now root }
    requires plane { LiesInPlane (map_of_root (square_of entries.now root)) }
    ensures middle { IsMiddleOf entries.now (map_of_root (square_of entries.now root)) result }
    ensures least { 3 ≤ result.level }
    ensures most { result.level ≤ 31 }
{
    let mut middle = Middle {
        level: root.level - 1,
        four: quarters_of(entries, root),
    };
    while middle.level > GREATEST {
        middle = inner(entries, root, middle);
    }
    middle
}

/// Those of the level below. The root is named in the contract alone.
fn inner(entries: &[Entry], root: Numbered, middle: Middle) -> Middle
    requires squares { AreSquares (squares_of entries.now) }
    requires levels { AreLevelled entries.now }
    requires entries { are_entries entries.now ≡ true }
    requires level { 31 < middle.level }
    requires middle { IsMiddleOf entries.now (map_of_root (square_of entries.now root)) middle }
    requires plane { LiesInPlane (map_of_root (square_of entries.now root)) }
    ensures middle { IsMiddleOf entries.now (map_of_root (square_of entries.now root)) result }
    ensures level { result.level + 1 ≡ middle.level }
{
    let _ = root;
    let nw = quarters_of(entries, numbered(middle.level, middle.four.nw));
    let ne = quarters_of(entries, numbered(middle.level, middle.four.ne));
    let sw = quarters_of(entries, numbered(middle.level, middle.four.sw));
    let se = quarters_of(entries, numbered(middle.level, middle.four.se));
    Middle {
        level: middle.level - 1,
        four: Quarters {
            nw: nw.se,
            ne: ne.sw,
            sw: sw.ne,
            se: se.nw,
        },
    }
}

fn numbered(level: u8, number: u32) -> Numbered
    ensures { result ≡ record { level = level; number = number } }
{
    Numbered {
        level,
        number: number as usize,
    }
}
