//! What an engine stores, for those who go down its squares themselves.

ghost use Rattle.std.specs.Prelude.{◌≡◌};

use crate::engine::Engine;
use crate::leaf_kind::EngineLeaf;
use square_store::{Part, Store};

impl Engine {
    /// The squares that it stores.
    pub fn store(&self) -> &Store<EngineLeaf>
        ensures { result.now ≡ self.now.store }
    {
        let _ = &self.root;
        self.squares.store()
    }

    /// The square that is the whole universe, of level 33: 30 levels above a leaf.
    pub fn root(&self) -> Part
        ensures { result ≡ self.now.root }
    {
        let _ = &self.generation;
        self.root
    }
}
