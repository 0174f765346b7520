//! Squares of a plane, and what is seen of them.

use crate::leaf_kind::{PlaneLeaf, StampBounds};
use leaf_merge_lanes::Leaf;
use square_store::{Part, Store};
use std::marker::Model;

/// A square of a plane, by its part in the plane's store.
#[derive(Drop)]
pub struct Square<'a> {
    store: &'a Store<PlaneLeaf>,
    part: Part,
}

impl<'a> Model for Square<'a> {
    ghost use Rattle.square_store.specs.Store.{IsHeld};
    ghost use Rattle.stamped_tree.specs.PlaneSquare.{PlaneSquare};

    ghost Value = { PlaneSquare };

    ghost view = { λ q. record { store = q.store.now; part = q.part } };

    ghost invariant = { λ q. IsHeld q.store.now q.part };
}

/// A square, one step deep.
#[derive(Drop)]
pub enum View<'a> {
    /// State 0 at every place, written with one stamp; stamp 0 where nothing was written. It is seen
    /// so at every level.
    Blank(u64),
    /// 8 by 8 writes that are no blank: a square of level 3.
    Leaf(&'a Leaf),
    /// Four squares of the level below, NW, NE, SW, SE, that together are no blank.
    Four {
        nw: Square<'a>,
        ne: Square<'a>,
        sw: Square<'a>,
        se: Square<'a>,
    },
}

impl<'a> Square<'a> {
    ghost use Rattle.std.specs.Prelude.{◌≡◌};
    ghost use Rattle.square_store.specs.Store.{IsHeld};
    ghost use Rattle.stamped_tree.specs.View.{AreBoundsOf, IsView, square_at};

    /// The square at a part of a store.
    pub(crate) fn at(store: &'a Store<PlaneLeaf>, part: Part) -> Square<'a>
        requires { IsHeld store.now part }
        ensures { result ≡ square_at store.now part }
    {
        Square { store, part }
    }

    /// Its place among the squares of its plane: equal parts of one level are equal squares.
    pub fn part(&self) -> Part
        ensures { result ≡ self.now.part }
    {
        self.part
    }

    /// The least and the greatest stamp of its writes, in constant time.
    pub fn bounds(&self) -> StampBounds
        ensures { AreBoundsOf self.now result }
    {
        self.store.summary(self.part)
    }

    /// What stands there.
    pub fn view(&self) -> View<'a>
        ensures { IsView self.now result }
    {
        match self.store.square(self.part) {
            square_store::Square::Blank(stamp) => View::Blank(stamp),
            square_store::Square::Leaf(leaf) => {
                let _first = leaf.leaf.get(0);
                View::Leaf(&leaf.leaf)
            }
            square_store::Square::Four { parts, .. } => View::Four {
                nw: Square::at(self.store, parts[0]),
                ne: Square::at(self.store, parts[1]),
                sw: Square::at(self.store, parts[2]),
                se: Square::at(self.store, parts[3]),
            },
        }
    }
}
