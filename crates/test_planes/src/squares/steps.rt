//! Steps that the tests share.

ghost use Rattle.std.specs.Prelude.{◌-◌, ◌<◌, IsTrue};
ghost use Rattle.square_store.specs.Seen.{AreAt};

use edit_stamps::Write;
use samples::Single;
use square_store::{LeafKind, Part, Store, StoreFault};

/// A leaf of one write.
pub fn single(stamp: u64, state: u8) -> Single {
    Single {
        write: Write { stamp, state },
    }
}

/// Whether four parts may be those of a square of a level.
fn are_at<L: LeafKind>(store: &Store<L>, level: u32, parts: [Part; 4]) -> bool
    requires { 0 < level }
    ensures { IsTrue result → AreAt store.now (level - 1) parts }
{
    store.is_at(parts[0], level - 1)
        && store.is_at(parts[1], level - 1)
        && store.is_at(parts[2], level - 1)
        && store.is_at(parts[3], level - 1)
}

/// The square of four parts; `Memory` where they are not of the level below.
pub fn four<L: LeafKind>(
    store: &mut Store<L>,
    level: u32,
    parts: [Part; 4],
) -> Result<Part, StoreFault> {
    if level == 0 || !are_at(store, level, parts) {
        return Err(StoreFault::Memory);
    }
    store.add_four(level, parts)
}
