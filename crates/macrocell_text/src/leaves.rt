//! How the leaves of a macrocell are told.

ghost use Rattle.std.specs.Prelude.{◌≡◌};

/// How all leaves of a macrocell are told.
#[derive(Clone, Copy, Debug, PartialEq, Eq)]
pub enum Leaves {
    /// Squares of level 1, by their states.
    ByStates,
    /// Squares of level 3, by rows of dead and live cells.
    ByRows,
}

impl Leaves {
    ghost use Rattle.macrocell_text.specs.SquareLines.{is_other};

    /// Whether leaves so far are told in the other way.
    pub(crate) fn is_other(self, told: Option<Leaves>) -> bool
        ensures { result ≡ is_other told self }
    {
        match told {
            None => false,
            Some(Leaves::ByStates) => match self {
                Leaves::ByStates => false,
                Leaves::ByRows => true,
            },
            Some(Leaves::ByRows) => match self {
                Leaves::ByStates => true,
                Leaves::ByRows => false,
            },
        }
    }
}
