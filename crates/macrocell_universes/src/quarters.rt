//! What stands for the quarters of a square.

ghost use Rattle.std.specs.Prelude.{◌≡◌, ◌≤◌, true, slice_get};
ghost use Rattle.macrocell_text.specs.Macrocells.{AreLevelled, AreSquares, are_entries, squares_of};
ghost use Rattle.macrocell_universes.specs.Numbered.{IsCut, IsNumbered, number_behind, quarter_at};

use macrocell_text::Entry;

/// A square of a level by what stands for it: at level 0 its state; above it 0 where all states are 0, and else the
/// number of its square line, from 1.
#[derive(Clone, Copy)]
pub(crate) struct Numbered {
    pub level: u8,
    pub number: usize,
}

impl Numbered {
    /// One of its quarters, by what stands for it.
    pub(crate) fn quarter(self, number: u32) -> Numbered
        requires { 1 ≤ self.level }
        ensures { result ≡ quarter_at self.level number }
    {
        Numbered {
            level: self.level - 1,
            number: number as usize,
        }
    }
}

/// What stands for the quarters of a square.
#[derive(Clone, Copy)]
pub(crate) struct Quarters {
    pub nw: u32,
    pub ne: u32,
    pub sw: u32,
    pub se: u32,
}

/// A square above level 0, one step deep.
#[derive(Clone, Copy)]
pub(crate) enum Cut {
    /// One of level 3, a bit for each state.
    Rows(u64),
    /// What stands for its quarters.
    Four(Quarters),
}

/// Four squares whose states are all 0.
const DEAD: Quarters = Quarters {
    nw: 0,
    ne: 0,
    sw: 0,
    se: 0,
};

/// A square above level 0, one step deep. A number of no earlier square line stands for states that are all 0.
pub(crate) fn one_step(entries: &[Entry], square: Numbered) -> Cut
    requires squares { AreSquares (squares_of entries.now) }
    requires levels { AreLevelled entries.now }
    requires entries { are_entries entries.now ≡ true }
    requires above { 1 ≤ square.level }
    requires is { IsNumbered entries.now square }
    ensures { IsCut entries.now square result }
{
    if square.number == 0 {
        return Cut::Four(DEAD);
    }
    let index = square.number - 1;
    match entry_at(entries, index) {
        Some(Entry::Rows(rows)) => Cut::Rows(rows),
        Some(
            Entry::Four {
                level,
                nw,
                ne,
                sw,
                se,
            },
        ) => Cut::Four(Quarters {
            nw: number_behind(index, level, nw),
            ne: number_behind(index, level, ne),
            sw: number_behind(index, level, sw),
            se: number_behind(index, level, se),
        }),
        None => Cut::Four(DEAD),
    }
}

/// What stands for a quarter of a square of a level, which has so many square lines before it.
fn number_behind(before: usize, level: u8, number: u32) -> u32
    ensures { result ≡ number_behind before level number }
{
    if level == 1 || number as usize <= before {
        number
    } else {
        0
    }
}

/// The entry at an index, if there is one.
pub(crate) fn entry_at(entries: &[Entry], index: usize) -> Option<Entry>
    ensures { result ≡ slice_get entries.now index }
{
    match entries.get(index) {
        Some(entry) => Some(*entry),
        None => None,
    }
}
