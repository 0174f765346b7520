//! Squares of a universe about its middle.

ghost use Rattle.std.specs.Prelude.{◌≡◌, ◌<◌, ◌≤◌, ◌-◌};
ghost use Rattle.square_store.specs.Squares.{IsAt};
ghost use Rattle.macrocell_lines.specs.Middle.{IsMiddle};

use generation_engine::EngineLeaf;
use square_store::{Part, Store};

/// How many levels a universe's root is above a leaf.
const ROOT_ABOVE_LEAF: u32 = 30;

/// Four squares of a level above a leaf about the middle of a universe.
#[derive(Clone, Copy)]
pub(crate) struct Middle {
    pub level: u32,
    pub nw: Part,
    pub ne: Part,
    pub sw: Part,
    pub se: Part,
}

/// Those of a level.
pub(crate) fn middle_of(store: &Store<EngineLeaf>, root: Part, level: u32) -> Middle
    requires root { IsAt store.now 30 root }
    requires level { level ≤ 29 }
    ensures middle { IsMiddle store.now root result }
    ensures level { result.level ≡ level }
{
    let mut middle = outermost(store, root);
    while middle.level > level {
        middle = inner(store, root, middle);
    }
    middle
}

/// The quarters of a universe.
fn outermost(store: &Store<EngineLeaf>, root: Part) -> Middle
    requires { IsAt store.now 30 root }
    ensures middle { IsMiddle store.now root result }
    ensures level { result.level ≡ 29 }
{
    let [nw, ne, sw, se] = store.quarters(ROOT_ABOVE_LEAF, root);
    Middle {
        level: ROOT_ABOVE_LEAF - 1,
        nw,
        ne,
        sw,
        se,
    }
}

/// Those of the level below. The universe's root is named in the contract alone.
fn inner(store: &Store<EngineLeaf>, root: Part, middle: Middle) -> Middle
    requires middle { IsMiddle store.now root middle }
    requires above { 0 < middle.level }
    requires most { middle.level ≤ 29 }
    ensures middle { IsMiddle store.now root result }
    ensures level { result.level ≡ middle.level - 1 }
{
    let _ = root;
    let nw = store.quarters(middle.level, middle.nw);
    let ne = store.quarters(middle.level, middle.ne);
    let sw = store.quarters(middle.level, middle.sw);
    let se = store.quarters(middle.level, middle.se);
    Middle {
        level: middle.level - 1,
        nw: nw[3],
        ne: ne[2],
        sw: sw[1],
        se: se[0],
    }
}
