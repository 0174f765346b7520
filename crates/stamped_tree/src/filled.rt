//! Squares over which areas were written.

ghost use Rattle.std.specs.Prelude.{◌≡◌, IfSome, IfErr};
ghost use Rattle.stamped_tree.specs.Filled.{IsFilled, AreFilled};

use crate::area::Area;
use crate::leaf_kind::PlaneLeaf;
use indexmap::IndexMap;
use keyed_hash::HashKey;
use square_store::{Part, Store, StoreFault};

/// A level, a square of that level, and an area of it.
#[derive(Clone, Copy, PartialEq, Eq, Hash)]
pub struct AreaKey {
    pub level: u32,
    pub part: Part,
    pub area: Area,
}

/// The square with an area written over it that was made before.
pub fn filled(
    kept: &IndexMap<AreaKey, Part, HashKey>,
    store: &Store<PlaneLeaf>,
    stamp: u64,
    key: &AreaKey,
) -> Option<Part>
    requires { AreFilled store.now stamp kept.now }
    ensures { IfSome result (IsFilled store.now stamp key.now.level key.now.area key.now.part) }
{
    kept.get(key).copied()
}

/// Keeps the square with an area written over it.
pub fn keep(
    kept: &mut IndexMap<AreaKey, Part, HashKey>,
    store: &Store<PlaneLeaf>,
    stamp: u64,
    key: AreaKey,
    drawn: Part,
) -> Result<(), StoreFault>
    requires kept { AreFilled store.now stamp kept.old }
    requires filled { IsFilled store.now stamp key.level key.area key.part drawn }
    ensures kept { AreFilled store.now stamp kept.new }
    ensures err { IfErr result (λ fault. fault ≡ StoreFault.Memory) }
{
    match kept.insert(key, drawn) {
        Ok(_) => Ok(()),
        Err(_) => Err(StoreFault::Memory),
    }
}
