//! What a macrocell tells.

ghost use Rattle.std.specs.Prelude.{◌≡◌, true};
ghost use Rattle.macrocell_text.specs.Macrocells.{AreLevelled, AreSquares, are_entries, squares_of};
ghost use Rattle.macrocell_text.specs.OneProof.{squares_prop};

use crate::entry::Entry;
use crate::head::RulePlace;

/// What a macrocell tells: where its rule's text stands, its generation and its squares.
#[derive(Drop)]
pub struct Macrocell {
    pub(crate) rule: Option<RulePlace>,
    pub(crate) generation: u64,
    pub(crate) entries: Vec<Entry>,
    ghost levelled: { AreLevelled entries.items },
    ghost bytes: { are_entries entries.items ≡ true },
    ghost squares: { AreSquares (squares_of entries.items) } by { squares_prop (squares_of entries.items) },
}

impl Macrocell {
    ghost use Rattle.std.specs.Prelude.{◌≡◌, true};
    ghost use Rattle.macrocell_text.specs.Macrocells.{AreLevelled, AreSquares, are_entries, squares_of};
    ghost use Rattle.macrocell_text.specs.Readings.{macrocell_told};

    /// Where the text tells the rule, by the last line `#R`.
    pub fn rule(&self) -> Option<RulePlace>
        ensures { result ≡ (macrocell_told self.now).rule }
    {
        self.rule
    }

    /// The generation, by the last line `#G`; 0 where there is none.
    pub fn generation(&self) -> u64
        ensures { result ≡ (macrocell_told self.now).generation }
    {
        self.generation
    }

    /// Its square lines, in order. Each names its own level, and its square has four quarters of the level below.
    pub fn entries(&self) -> &[Entry]
        ensures told { squares_of result.now ≡ (macrocell_told self.now).squares }
        ensures squares { AreSquares (squares_of result.now) }
        ensures levels { AreLevelled result.now }
        ensures entries { are_entries result.now ≡ true }
    {
        &self.entries
    }
}
