//! Squares of level 3 by rows of marks.

ghost use Rattle.std.specs.Prelude.{◌≡◌, ◌+◌, ◌*◌, ◌<◌, ◌≤◌, ◌^◌, ℕ, max, length, IsTrue, true, MatchResult, Ok, Err, if◌then◌else◌};
ghost use Rattle.std.specs.Int.{bit_at};
ghost use Rattle.macrocell_text.specs.Marks.{first_spot, is_in_square, is_live_at, may_stand, rows_told, spot_behind};
ghost use Rattle.macrocell_text.specs.Macrocells.{square_of_bits};

use crate::fault::MacrocellFault;

/// The column and the row at which a mark stands.
#[derive(Clone, Copy)]
pub struct Spot {
    pub column: usize,
    pub row: usize,
}

impl Spot {
    ghost use Rattle.std.specs.Prelude.{◌≡◌, ◌<◌, ◌^◌, ◌+◌};
    ghost use Rattle.macrocell_text.specs.Marks.{is_in_square, may_stand, spot_behind};

    /// The spot behind a mark.
    fn behind(self, mark: u8) -> Spot
        requires column { self.column + 1 < 2 ^ 64 }
        requires row { self.row + 1 < 2 ^ 64 }
        ensures { result ≡ spot_behind self mark }
    {
        if mark == b'$' {
            Spot {
                column: 0,
                row: self.row + 1,
            }
        } else {
            Spot {
                column: self.column + 1,
                row: self.row,
            }
        }
    }

    fn is_in_square(self) -> bool
        ensures { result ≡ is_in_square self }
    {
        self.column < 8 && self.row < 8
    }

    /// Whether a mark may stand there.
    fn takes(self, mark: u8) -> bool
        ensures { result ≡ may_stand self mark }
    {
        mark == b'$' || (mark == b'.' || (mark == b'*' && self.is_in_square()))
    }
}

/// The states of a square of level 3 that marks tell, a bit each, or the first mark that may not stand where it does;
/// the marks begin at this place in the text.
pub(crate) fn rows_told(place: usize, marks: &[u8]) -> Result<u64, MacrocellFault>
    requires { place + length marks.now < 2 ^ 64 }
    ensures { MatchResult result (λ rows. rows_told place marks.now ≡ Ok (square_of_bits rows)) (λ fault. rows_told place marks.now ≡ Err fault) }
{
    let mut rows = 0;
    let mut spot = Spot { column: 0, row: 0 };
    for (i, mark) in marks.iter().enumerate() {
        if !spot.takes(*mark) {
            return Err(MacrocellFault::Tag((place + i) as u64));
        }
        rows = with_mark(rows, spot, *mark);
        spot = spot.behind(*mark);
    }
    Ok(rows)
}

/// The states with that of a mark at a spot.
fn with_mark(rows: u64, spot: Spot, mark: u8) -> u64
    requires { may_stand spot mark ≡ true }
    ensures { (u v : ℕ) → u < 8 → v < 8 → bit_at result (8 * v + u) ≡ max (bit_at rows (8 * v + u)) (if is_live_at spot mark u v then 1 else 0) }
{
    if mark == b'*' {
        rows | 1 << (8 * spot.row + spot.column)
    } else {
        rows
    }
}
