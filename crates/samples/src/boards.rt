//! Boards of cells, and the rule applied to each of them.

use generations_rule::Rule;
use std::alloc::{AllocError, Global};

/// Cells in rows. A neighbour is looked up by its place, so the cells at the edge are to be dead.
#[derive(Drop)]
pub struct Board {
    /// How many columns and rows there are.
    pub side: usize,
    /// The states, row by row.
    pub states: Vec<u8>,
}

impl Board {
    /// A board of dead cells.
    pub fn dead(alloc: Global, side: usize) -> Result<Board, AllocError> {
        let states = vec![in alloc; 0u8; side.saturating_mul(side)]?;
        Ok(Board { side, states })
    }

    /// Gives a cell a state; beyond the last row nothing is done.
    pub fn put(&mut self, column: usize, row: usize, state: u8) {
        let place = row.wrapping_mul(self.side).wrapping_add(column);
        if let Some(cell) = self.states.get_mut(place) {
            *cell = state;
        }
    }

    /// The board one generation later.
    pub fn stepped(&self, alloc: Global, rule: &Rule) -> Result<Board, AllocError> {
        let later = stepped_states(alloc, rule, self.side, self.states.as_slice())?;
        Ok(Board {
            side: self.side,
            states: later,
        })
    }

    /// The same cells, with so many more columns and rows beyond each edge.
    pub fn widened(&self, alloc: Global, margin: usize) -> Result<Board, AllocError> {
        let mut wide = Board::dead(alloc, self.side.saturating_add(margin.saturating_mul(2)))?;
        for (place, state) in self.states.iter().enumerate() {
            if *state != 0 && self.side != 0 {
                let column = (place % self.side).saturating_add(margin);
                let row = (place / self.side).saturating_add(margin);
                wide.put(column, row, *state);
            }
        }
        Ok(wide)
    }

    /// How many cells are not dead.
    pub fn population(&self) -> u128 {
        let mut count = 0u128;
        for state in self.states.iter() {
            if *state != 0 {
                count = count.saturating_add(1);
            }
        }
        count
    }
}

fn stepped_states(
    alloc: Global,
    rule: &Rule,
    side: usize,
    states: &[u8],
) -> Result<Vec<u8>, AllocError> {
    let neighbours = neighbours(side);
    let mut later = Vec::with_capacity(alloc, states.len())?;
    for place in 0..states.len() {
        let live = live_around(states, &neighbours, place);
        later.push(later_state(rule, states[place], live))?;
    }
    Ok(later)
}

/// From a cell to its neighbours, in places of a board.
fn neighbours(side: usize) -> [usize; 8] {
    let above = 0usize.wrapping_sub(side);
    [
        above.wrapping_sub(1),
        above,
        above.wrapping_add(1),
        0usize.wrapping_sub(1),
        1,
        side.wrapping_sub(1),
        side,
        side.wrapping_add(1),
    ]
}

fn live_around(states: &[u8], neighbours: &[usize; 8], place: usize) -> u8 {
    let mut live = 0u8;
    for offset in *neighbours {
        if states.get(place.wrapping_add(offset)) == Some(&1) {
            live = live.saturating_add(1);
        }
    }
    live
}

fn later_state(rule: &Rule, state: u8, live: u8) -> u8 {
    if u16::from(state) < rule.states() && live <= 8 {
        rule.next(state, live)
    } else {
        0
    }
}
