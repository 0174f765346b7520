//! What a seat reads, in plain values.

use edit_stamps::{Edit, Write};
use relay_board::{News, SeatFault};
use stamped_tree::Plane;

#[derive(Clone, Copy, Debug, PartialEq, Eq)]
pub enum Told {
    /// The counter of the first edit and how many there are, each with a counter of one more than the
    /// edit before it. No edits have the counter 0.
    Edits(u64, usize),
    /// How many edits a plane is of, and how many cells it has.
    Whole(u64, usize),
    /// Edits in another order.
    Mixed,
    Fault(SeatFault),
}

pub fn tell(news: &Result<News, SeatFault>) -> Told {
    match news {
        Ok(News::Edits(edits)) => tell_edits(edits.as_slice()),
        Ok(News::Whole(plane, edits)) => match plane.walk() {
            Ok(cells) => Told::Whole(*edits, cells.len()),
            Err(_) => Told::Fault(SeatFault::Memory),
        },
        Err(fault) => Told::Fault(*fault),
    }
}

pub fn tell_edits(edits: &[Edit]) -> Told {
    let first = match edits.first() {
        Some(edit) => edit.stamp().counter(),
        None => 0,
    };
    let mut next = first;
    for edit in edits {
        if edit.stamp().counter() != next {
            return Told::Mixed;
        }
        next = next.wrapping_add(1);
    }
    Told::Edits(first, edits.len())
}

/// The stamp and the state of a write.
pub type View = Result<(u64, u8), SeatFault>;

pub fn viewed(write: Result<Write, SeatFault>) -> View {
    let write = write?;
    Ok((write.stamp, write.state))
}

/// How many cells a plane has, and the write at the origin.
pub fn planed(plane: &Result<Plane, SeatFault>) -> Result<(usize, u64, u8), SeatFault> {
    match plane {
        Ok(plane) => match plane.walk() {
            Ok(cells) => {
                let write = plane.get(0, 0);
                Ok((cells.len(), write.stamp, write.state))
            }
            Err(_) => Err(SeatFault::Memory),
        },
        Err(fault) => Err(*fault),
    }
}
