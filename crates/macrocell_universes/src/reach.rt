//! How far the live cells of a square reach.

ghost use Rattle.std.specs.Prelude.{◌≡◌, ◌≤◌, ◌^◌, ◌-◌};
ghost use Rattle.macrocell_universes.specs.Reaches.{Fits, cell_reach, farther, is_within_plane, joined};

/// How far the live cells of a square reach, and the greatest of its states.
#[derive(Clone, Copy)]
pub(crate) struct Reach {
    /// The greatest state.
    pub state: u8,
    /// How many columns there are from the first one that has a live cell on; 0 where none has.
    pub west: u64,
    /// How many columns there are up to the last one that has a live cell.
    pub east: u64,
    /// How many rows there are from the first one that has a live cell on.
    pub north: u64,
    /// How many rows there are up to the last one that has a live cell.
    pub south: u64,
}

/// Half the side of the plane of edits.
const HALF_PLANE: u64 = 0x4000_0000;

impl Reach {
    /// That of a square whose states are all 0.
    pub(crate) const NOTHING: Reach = Reach {
        state: 0,
        west: 0,
        east: 0,
        north: 0,
        south: 0,
    };

    /// That of a cell.
    pub(crate) fn of_cell(state: u8) -> Reach
        ensures { result ≡ cell_reach state }
    {
        let far = u64::from(state != 0);
        Reach {
            state,
            west: far,
            east: far,
            north: far,
            south: far,
        }
    }

    /// That of four squares put together, each of so many columns and rows.
    pub(crate) fn joined(side: u64, nw: Reach, ne: Reach, sw: Reach, se: Reach) -> Reach
        requires side { side ≤ 2 ^ 62 }
        requires nw { Fits side nw }
        requires ne { Fits side ne }
        requires sw { Fits side sw }
        requires se { Fits side se }
        ensures { result ≡ joined side nw ne sw se }
    {
        Reach {
            state: nw.state.max(ne.state).max(sw.state.max(se.state)),
            west: farther(side, ne.west.max(se.west), nw.west.max(sw.west)),
            east: farther(side, nw.east.max(sw.east), ne.east.max(se.east)),
            north: farther(side, sw.north.max(se.north), nw.north.max(ne.north)),
            south: farther(side, nw.south.max(ne.south), sw.south.max(se.south)),
        }
    }

    /// Whether the live cells of a root of a level, one row further down, are all in the plane of edits.
    pub(crate) fn is_within_plane(self, level: u8) -> bool
        requires some { 1 ≤ level }
        requires few { level ≤ 63 }
        ensures { result ≡ is_within_plane level self }
    {
        let most = half_side(level) + HALF_PLANE;
        let in_columns = self.west <= most && self.east <= most;
        let in_rows = self.north <= most + 1 && self.south <= most - 1;
        in_columns && in_rows
    }
}

/// How far something reaches of two halves of so many columns: in the far one, else in the near one.
fn farther(half: u64, near: u64, far: u64) -> u64
    requires half { half ≤ 2 ^ 62 }
    requires far { far ≤ half }
    ensures { result ≡ farther half near far }
{
    if far == 0 { near } else { half + far }
}

/// Half the side of a square of a level.
pub(crate) fn half_side(level: u8) -> u64
    requires some { 1 ≤ level }
    requires few { level ≤ 63 }
    ensures half { result ≡ 2 ^ (level - 1) }
    ensures most { result ≤ 2 ^ 62 }
{
    1 << (level - 1)
}
