//! Texts that are opened.

use edit_stamps::{Cell, Edit, Stamp};
use generations_rule::Rule;
use multistate_rle::parse;
use pattern_cells::Pattern;
use replica_core::Replica;
use std::alloc::{AllocError, Global};
use std::slice;
use std::test::Fail;

/// A text that is opened.
pub enum Text {
    Bytes(&'static [u8]),
    /// A state of version 1.
    First,
    /// The state of the cell of a column and a row that was drawn by a counter.
    Cell(u64, i32, i32),
    /// The state of so many rows, and of a cell below them that was drawn by a counter.
    Rows(i32, u64),
}

impl Text {
    pub fn made(&self, alloc: Global) -> Result<Vec<u8>, Fail> {
        match self {
            Text::Bytes(bytes) => Ok(Vec::from_slice(alloc, bytes)?),
            Text::First => Ok(first_state(alloc)?),
            Text::Cell(counter, x, y) => state_by(alloc, *counter, *x, *y),
            Text::Rows(rows, counter) => rows_and_a_cell(alloc, *rows, *counter),
        }
    }
}

/// The head of a state of version 1 under `/2/3`.
const FIRST_HEAD: &[u8] = b"GLWS\x01\x04/2/3";

/// The state of version 1 of the map whose origin has state 1 by the first stamp, as docs/FORMATS.md says:
/// the squares of levels 31 to 4 about the origin, a leaf, and the blanks of those squares.
fn first_state(alloc: Global) -> Result<Vec<u8>, AllocError> {
    let mut text = Vec::from_slice(alloc, FIRST_HEAD)?;
    text.push(2)?;
    text.extend_from_slice(&[0; 27])?;
    text.extend_from_slice(&[2; 27])?;
    text.extend_from_slice(&[1, 0, 0, 0, 0, 0, 1, 0, 1, 1])?;
    text.extend_from_slice(&[0; 1296])?;
    Ok(text)
}

/// A replica of another board that holds nothing.
pub fn replica(alloc: Global, rule: &[u8]) -> Result<Replica, Fail> {
    Ok(Replica::new(alloc, Rule::parse(rule)?, 9)?)
}

/// Has a replica hold a cell that was drawn by a counter.
pub fn write_cell(
    alloc: Global,
    replica: &mut Replica,
    counter: u64,
    cell: Cell,
) -> Result<(), Fail> {
    let stamp = Stamp::new(counter, 9).ok_or("stamp")?;
    let edit = Edit::cells(alloc, &replica.rule(), stamp, &[cell])?;
    replica.take_edits(slice::from_ref(&edit))?;
    Ok(())
}

/// The state of one cell that was drawn by a counter.
pub fn state_by(alloc: Global, counter: u64, x: i32, y: i32) -> Result<Vec<u8>, Fail> {
    let mut replica = replica(alloc, b"/2/3")?;
    write_cell(alloc, &mut replica, counter, Cell { x, y, state: 1 })?;
    Ok(replica.state()?)
}

/// A row of 2^20 cells of state 1 from a column on.
const ROW: &[u8] = b"x = 1048576, y = 1\n1048576A!";

/// The state of so many rows of 2^20 cells, one below the other, and one cell below them that was drawn by a
/// counter.
fn rows_and_a_cell(alloc: Global, rows: i32, counter: u64) -> Result<Vec<u8>, Fail> {
    let mut replica = replica(alloc, b"/2/3")?;
    let row = pattern(alloc, ROW)?;
    for y in 0..rows {
        write_pattern(alloc, &mut replica, &row, y)?;
    }
    let cell = Cell {
        x: 0,
        y: rows,
        state: 2,
    };
    write_cell(alloc, &mut replica, counter, cell)?;
    Ok(replica.state()?)
}

/// The pattern of a text. On its own, so that no proof reads so long a row.
fn pattern(alloc: Global, text: &[u8]) -> Result<Pattern, Fail> {
    Ok(parse(alloc, text)?)
}

/// Has a replica hold a pattern from column 0 of a row on, drawn by the first counter.
fn write_pattern(
    alloc: Global,
    replica: &mut Replica,
    pattern: &Pattern,
    y: i32,
) -> Result<(), Fail> {
    let stamp = Stamp::new(1, 9).ok_or("stamp")?;
    let edit = Edit::paste_or(alloc, &replica.rule(), stamp, pattern, 0, y)?;
    replica.take_edits(slice::from_ref(&edit))?;
    Ok(())
}
