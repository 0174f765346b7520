//! The text of a plane of many squares.

use crate::messages::deltas::brians_brain;
use crate::messages::random::Chance;
use crate::messages::states::{is_retold, plane_of};
use delta_exchange::write_state;
use edit_stamps::Cell;
use std::alloc::{AllocError, Global};
use std::test::Fail;

/// A board of 512 by 512 cells, each in a state by chance.
fn board(alloc: Global) -> Result<Vec<Cell>, AllocError> {
    let mut chance = Chance { state: 41 };
    let mut cells = Vec::new(alloc);
    for y in 0..512_i32 {
        for x in 0..512_i32 {
            cells.push(Cell {
                x,
                y,
                state: (chance.next() % 3) as u8,
            })?;
        }
    }
    Ok(cells)
}

#[test]
fn a_plane_of_many_squares_is_told_again(rt: HostRuntime) -> Result<(), Fail> {
    let rule = brians_brain()?;
    let plane = plane_of(rt.alloc(), &rule, &board(rt.alloc())?)?;
    assert!(rt; plane.copy()?.nodes() > 5000);
    let text = write_state(rt.alloc(), &rule, &plane)?;
    assert!(rt; text.len() > 1_000_000);
    assert!(rt; is_retold(rt.alloc(), &rule, &text)?);
    Ok(())
}
