//! A board, and a replica on which the same is drawn.

use super::table::Table;
use crate::bench::{Bench, Machine};
use crate::drawing::{Chance, Field, square};
use anyhow::{Context, Result, bail, ensure};
use edit_stamps::{Cell, Corner, Edit, EditList};
use lists::ListOf;
use relay_board::{Naming, News};
use replica_core::{EditSpec, Replica};
use std::alloc::{AllocError, Global};
use std::sync::Wait;

/// What is measured of a board and of a replica.
#[derive(Clone, Copy)]
pub enum Call {
    /// Edits are published by one seat.
    OneSeat,
    /// The same while other seats poll.
    BesidePolls,
    /// Edits are published by four seats in threads.
    FourSeats,
    /// The replica draws edits.
    Draws,
    /// A seat views cells.
    Views,
    /// The replica's plane is read at cells.
    Gets,
    /// A seat polls that has not yet polled so.
    Poll,
    /// Edits are copied.
    Copies,
}

/// A board, and a replica on which the same is drawn.
#[derive(Drop)]
pub struct Race<J: Naming, R: Wait + Copy + Drop> {
    pub bench: Bench<R>,
    pub table: Table<J, R>,
    pub replica: Replica,
    pub chance: Chance,
    /// Where edits are drawn.
    pub field: Field,
    /// How many edits a call publishes or draws.
    pub count: u32,
    /// Which cells are viewed, and read.
    pub cells: Vec<Cell>,
    /// Which edits are copied.
    pub edits: EditList,
    /// How many seats have polled.
    pub polls: usize,
}

impl<J: Naming + Send, R: Machine> Race<J, R> {
    pub fn make(&mut self, call: Call) -> Result<()> {
        let rt = self.bench.rt;
        match call {
            Call::OneSeat => self.table.publish_many(&rt, self.count, false),
            Call::BesidePolls => self.table.publish_many(&rt, self.count, true),
            Call::FourSeats => self.table.work_all(&rt, self.count / 4),
            Call::Draws => self.draw(),
            Call::Views => self.view_all(),
            Call::Gets => self.get_all(),
            Call::Poll => self.polled().map(drop),
            Call::Copies => Ok(copies(self.bench.alloc, self.edits.as_slice()).map(drop)?),
        }
    }

    /// Publishes a square of cells, which are those that are viewed then, and lets each reader poll it.
    pub fn begin(&mut self, side: u32) -> Result<()> {
        self.cells = square(self.bench.alloc, Corner { x: 0, y: 0 }, side)?;
        self.table.publish(&self.bench.rt, &self.cells)?;
        for reader in self.table.readers.iter_mut() {
            let _news = reader.poll()?;
        }
        Ok(())
    }

    fn draw(&mut self) -> Result<()> {
        for _ in 0..self.count {
            let cell = self.chance.cell(self.field);
            let cells = vec![in self.bench.alloc; cell; 1]?;
            let _edit = self.replica.draw(EditSpec::Cells(ListOf::of_vec(cells)))?;
        }
        Ok(())
    }

    fn view_all(&mut self) -> Result<()> {
        let reader = self.table.readers.first_mut().context("a reader")?;
        for cell in &self.cells {
            ensure!(reader.view(cell.x, cell.y)?.stamp != 0, "a cell is blank");
        }
        Ok(())
    }

    fn get_all(&self) -> Result<()> {
        for cell in &self.cells {
            ensure!(
                self.replica.get(cell.x, cell.y).stamp != 0,
                "a cell is blank"
            );
        }
        Ok(())
    }

    /// At how many cells a seat views the write that the replica has.
    pub fn count_alike(&mut self) -> Result<u32> {
        let reader = self.table.readers.first_mut().context("a reader")?;
        let mut alike = 0_u32;
        for cell in &self.cells {
            if reader.view(cell.x, cell.y)? == self.replica.get(cell.x, cell.y) {
                alike = alike.wrapping_add(1);
            }
        }
        Ok(alike)
    }

    /// What the next seat is handed, where it is edits.
    pub fn polled(&mut self) -> Result<EditList> {
        let reader = self.table.readers.get_mut(self.polls).context("a reader")?;
        self.polls = self.polls.saturating_add(1);
        match reader.poll()? {
            News::Edits(edits) => Ok(edits),
            News::Whole(..) => bail!("a poll gave no edits"),
        }
    }
}

fn copies(alloc: Global, edits: &[Edit]) -> Result<Vec<Edit>, AllocError> {
    let mut copies = Vec::new(alloc);
    for edit in edits {
        copies.push(edit.copy()?)?;
    }
    Ok(copies)
}
