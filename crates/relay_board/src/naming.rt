//! Which board and which inbox, as a type.

use std::marker::Brand;

/// The name of a board, by its history and its rule's number of states, and of an inbox, by its table. It
/// stands in types and proofs alone: a seat that comes back from a thread is still of its board, since its
/// type says so. A function over a `J: Naming` is called with `Brand`, and the call picks what it names.
pub trait Naming {
    ghost use Rattle.board.specs.Showing.{Origin};
    ghost use Rattle.atomic_table.specs.Seated.{TableId};

    ghost origin: { Origin };

    ghost inbox: { TableId };
}

impl Naming for Brand {
    ghost use Rattle.std.specs.Prelude.{[]};
    ghost use Rattle.board.specs.Sights.{no_origin};

    ghost origin = { no_origin };

    ghost inbox = { record { words = 0; slots = 0; views_name = 0; atom = 0; block = 0; offset = 0; slot_names = [] } };
}
