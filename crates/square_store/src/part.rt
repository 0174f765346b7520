//! Places in a store.

ghost use Rattle.std.specs.Prelude.{◌≡◌, ◌==◌, refl};
ghost use Rattle.std.specs.Cmp.{nat_eq_equiv, partial_equiv_from_equiv};

use std::marker::Model;

/// A square of a store, by its place there. Of two parts of one store and one level, equal ones are
/// squares with the same writes, and squares with the same writes are equal parts.
#[derive(Clone, Copy, Debug, Hash)]
pub struct Part {
    pub(crate) place: u32,
}

impl Model for Part {
    ghost use Rattle.std.specs.Prelude.{ℕ};

    ghost Value = { ℕ };

    ghost view = { λ part. part.place };

    ghost inverse = { λ place. record { place = place } };
}

impl Part {
    /// How many squares of its store were added before this one.
    pub fn place(self) -> u32
        ensures { result ≡ self }
    {
        self.place
    }
}

impl PartialEq for Part {
    ghost eq = { λ a b. a == b };

    ghost laws = { partial_equiv_from_equiv nat_eq_equiv };

    fn eq(&self, other: &Part) -> bool {
        self.place == other.place
    }
}

impl Eq for Part {
    ghost laws = { nat_eq_equiv };
}
