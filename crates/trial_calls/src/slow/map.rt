//! The write at a place of a map that was read slowly, and places where something stands.

use crate::chance::Chance;
use crate::slow::entries::{Listed, Quarter};
use crate::slow::squares::Piece;
use crate::slow::writes::{NOTHING, SlowWrite};

/// A column and a row, counted from the plane's corner.
#[derive(Clone, Copy, PartialEq, Eq)]
pub struct Place {
    pub column: u32,
    pub row: u32,
}

/// A map in either version.
#[derive(Drop)]
pub enum SlowMap {
    Pieces(Vec<Piece>),
    Listed(Listed),
}

impl SlowMap {
    /// The write at a place.
    pub fn at(&self, place: Place) -> SlowWrite {
        match self {
            SlowMap::Pieces(pieces) => at_pieces(pieces, place),
            SlowMap::Listed(listed) => at_listed(listed, place),
        }
    }

    /// A place by chance, where something stands if that can be told.
    pub fn place(&self, chance: &mut Chance) -> Place {
        match self {
            SlowMap::Pieces(pieces) => place_in_pieces(pieces, chance),
            SlowMap::Listed(listed) => place_in_listed(listed, chance),
        }
    }
}

/// The write in the one piece that has the place.
fn at_pieces(pieces: &[Piece], place: Place) -> SlowWrite {
    for piece in pieces {
        let column = place.column.wrapping_sub(piece.column);
        let row = place.row.wrapping_sub(piece.row);
        if column < piece.side && row < piece.side {
            return at_piece(piece, column, row);
        }
    }
    NOTHING
}

/// The write of a piece: its only one, or that at a column and a row of a leaf.
fn at_piece(piece: &Piece, column: u32, row: u32) -> SlowWrite {
    match piece.writes.as_slice() {
        [all] => *all,
        writes => at_leaf(writes, column, row),
    }
}

fn at_leaf(writes: &[SlowWrite], column: u32, row: u32) -> SlowWrite {
    let number = (row % 8) * 8 + column % 8;
    writes.get(number as usize).copied().unwrap_or(NOTHING)
}

/// The write by way of the entries, from the last one down.
fn at_listed(listed: &Listed, place: Place) -> SlowWrite {
    let mut next = match listed.entries.len().checked_sub(1) {
        Some(last) => Quarter::Entry(last),
        None => Quarter::Blank(listed.blank),
    };
    for bit in 0..29_u32 {
        let Quarter::Entry(number) = next else {
            break;
        };
        match listed.entries.get(number) {
            Some(entry) if entry.level == 3 => {
                return at_leaf(&entry.writes, place.column, place.row);
            }
            Some(entry) => next = quarter_at(entry.quarters, place, 30_u32.saturating_sub(bit)),
            None => return NOTHING,
        }
    }
    match next {
        Quarter::Blank(stamp) => SlowWrite { stamp, state: 0 },
        Quarter::Entry(_) => NOTHING,
    }
}

/// The quarter in which a place lies, by one bit of its column and row.
fn quarter_at(quarters: [Quarter; 4], place: Place, bit: u32) -> Quarter {
    let [nw, ne, sw, se] = quarters;
    match (is_set(place.column, bit), is_set(place.row, bit)) {
        (false, false) => nw,
        (true, false) => ne,
        (false, true) => sw,
        (true, true) => se,
    }
}

fn is_set(number: u32, bit: u32) -> bool {
    number.wrapping_shr(bit) & 1 == 1
}

/// Any place of the plane.
fn any_place(chance: &mut Chance) -> Place {
    Place {
        column: chance.word() & 0x7fff_ffff,
        row: chance.word() & 0x7fff_ffff,
    }
}

/// A place in one of the pieces: near its corner, or anywhere in it.
fn place_in_pieces(pieces: &[Piece], chance: &mut Chance) -> Place {
    match pieces.get(chance.below(pieces.len())) {
        Some(piece) => {
            let within = if chance.is_one_in(2) { 8 } else { piece.side };
            Place {
                column: piece.column.wrapping_add(below(chance, within)),
                row: piece.row.wrapping_add(below(chance, within)),
            }
        }
        None => any_place(chance),
    }
}

fn below(chance: &mut Chance, bound: u32) -> u32 {
    chance.word() % bound.max(1)
}

/// A place by quarters by chance, a listed one before a blank.
fn place_in_listed(listed: &Listed, chance: &mut Chance) -> Place {
    let mut place = any_place(chance);
    let mut next = listed.entries.last();
    for bit in 0..28_u32 {
        let Some(entry) = next else {
            break;
        };
        let bit = 30_u32.saturating_sub(bit);
        place = turned(entry.quarters, place, bit, chance);
        next = match quarter_at(entry.quarters, place, bit) {
            Quarter::Entry(number) => listed.entries.get(number),
            Quarter::Blank(_) => None,
        };
    }
    place
}

/// A place whose quarter is listed, if one of three tries by chance finds one.
fn turned(quarters: [Quarter; 4], place: Place, bit: u32, chance: &mut Chance) -> Place {
    let mut place = place;
    for _ in 0..3_u8 {
        if matches!(quarter_at(quarters, place, bit), Quarter::Entry(_)) {
            break;
        }
        place = Place {
            column: place.column ^ (chance.word() & 1).wrapping_shl(bit),
            row: place.row ^ (chance.word() & 1).wrapping_shl(bit),
        };
    }
    place
}
