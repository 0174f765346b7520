//! What a client told of a board by cells that look different, put together again.

use edit_stamps::Cell;
use std::alloc::{AllocError, Global};
use std::collections::BTreeMap;
use std::test::Fail;

/// The state of each cell that was told, by row and column; and what else was.
#[derive(Drop)]
pub struct Told {
    alloc: Global,
    states: BTreeMap<(i32, i32), u8>,
    /// How many planes came, and how many drawings were told behind the first.
    pub planes: u32,
    pub drawn_behind: u32,
}

impl Told {
    pub fn new(alloc: Global) -> Told {
        Told {
            alloc,
            states: BTreeMap::new(alloc),
            planes: 0,
            drawn_behind: 0,
        }
    }

    /// Hears what was printed.
    pub fn hear(&mut self, printed: &str) -> Result<(), Fail> {
        for line in printed.split('\n') {
            if line == "whole" {
                self.planes = self.planes.saturating_add(1);
            } else if line.starts_with("drawn ") && self.planes > 0 {
                self.drawn_behind = self.drawn_behind.saturating_add(1);
            } else if let Some(cells) = line.strip_prefix("now ") {
                self.hear_cells(cells)?;
            }
        }
        Ok(())
    }

    /// Hears `x y s ..`.
    fn hear_cells(&mut self, cells: &str) -> Result<(), Fail> {
        let mut words = cells.split(' ');
        for _word in 0..cells.len() {
            let Some(x) = words.next() else {
                return Ok(());
            };
            let y = words.next().ok_or("y")?;
            let state = words.next().ok_or("state")?;
            self.states
                .insert((y.parse()?, x.parse()?), state.parse()?)?;
        }
        Ok(())
    }

    /// The cells that are not dead, by rows.
    pub fn cells(&self) -> Result<Vec<Cell>, AllocError> {
        let mut cells = Vec::new(self.alloc);
        for (place, state) in self.states.iter() {
            let (y, x) = *place;
            if *state != 0 {
                cells.push(Cell {
                    x,
                    y,
                    state: *state,
                })?;
            }
        }
        Ok(cells)
    }
}
