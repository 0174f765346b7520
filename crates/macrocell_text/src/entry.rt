//! A square line of a macrocell, in few bytes.

ghost use Rattle.std.specs.Prelude.{◌≡◌};

/// A square line of a macrocell.
#[derive(Clone, Copy, Debug, PartialEq, Eq)]
pub enum Entry {
    /// A square of level 3, a bit for each state: that of column u of row v is 2^(8 v + u).
    Rows(u64),
    /// A square of a level, by what stands for its quarters: at level 1 their states, above it 0 for one whose
    /// states are all 0, and else the number of its square line, from 1.
    Four {
        level: u8,
        nw: u32,
        ne: u32,
        sw: u32,
        se: u32,
    },
}

impl Entry {
    ghost use Rattle.macrocell_text.specs.Macrocells.{entry_level};

    /// The level of its square, which has 2^level columns and rows.
    pub fn level(self) -> u8
        ensures { result ≡ entry_level self }
    {
        match self {
            Entry::Rows(_) => 3,
            Entry::Four { level, .. } => level,
        }
    }
}
