//! Live cells under Brian's Brain: each place of a square, or by chance in a field; and replicas that drew them.

use anyhow::{Context, Result};
use edit_stamps::{Cell, Corner, Edit, Stamp};
use generations_rule::{Rule, RuleFault};
use lists::ListOf;
use rand_core::utils::NextWord;
use rand_pcg::Pcg32;
use replica_core::{EditSpec, Replica};
use stamped_tree::Plane;
use std::alloc::{AllocError, Global};

/// The rule, of three states.
pub fn brain() -> Result<Rule, RuleFault> {
    Rule::parse(b"/2/3")
}

/// Where cells fall by chance: a square of 2^bits columns and rows, 1 to 31 bits, from its corner on.
#[derive(Clone, Copy)]
pub struct Field {
    corner: i32,
    bits: u32,
}

impl Field {
    /// The whole plane.
    pub const PLANE: Field = Field {
        corner: -0x4000_0000,
        bits: 31,
    };

    /// A square at the origin.
    pub fn at_origin(bits: u32) -> Field {
        Field { corner: 0, bits }
    }

    /// A coordinate by chance.
    fn coordinate(self, word: u32) -> i32 {
        let offset = word.wrapping_shr(32_u32.wrapping_sub(self.bits));
        self.corner.wrapping_add_unsigned(offset)
    }
}

/// Numbers and cells by chance: each stream has its own, from its start the same.
#[derive(Drop)]
pub struct Chance {
    random: Pcg32,
}

impl Chance {
    pub fn new(stream: u64) -> Chance {
        Chance {
            random: Pcg32::new(2026, stream),
        }
    }

    pub fn word(&mut self) -> u32 {
        self.random.next_word()
    }

    /// State 1 or 2.
    fn live(&mut self) -> u8 {
        1 + (self.word() % 2) as u8
    }

    /// A live cell of a field.
    pub fn cell(&mut self, field: Field) -> Cell {
        Cell {
            x: field.coordinate(self.word()),
            y: field.coordinate(self.word()),
            state: self.live(),
        }
    }
}

/// So many cells of a field.
pub fn scattered(alloc: Global, field: Field, count: u32) -> Result<Vec<Cell>, AllocError> {
    let mut chance = Chance::new(13);
    let mut cells = Vec::new(alloc);
    for _ in 0..count {
        cells.push(chance.cell(field))?;
    }
    Ok(cells)
}

/// A cell at each place of a square, from its corner on: at each corner the same states.
pub fn square(alloc: Global, corner: Corner, side: u32) -> Result<Vec<Cell>, AllocError> {
    let mut chance = Chance::new(11);
    let mut cells = Vec::new(alloc);
    for row in 0..side {
        for column in 0..side {
            cells.push(Cell {
                x: corner.x.wrapping_add_unsigned(column),
                y: corner.y.wrapping_add_unsigned(row),
                state: chance.live(),
            })?;
        }
    }
    Ok(cells)
}

/// The edit of some cells, with a stamp.
pub fn edit(alloc: Global, counter: u64, replica: u16, cells: &[Cell]) -> Result<Edit> {
    let stamp = Stamp::new(counter, replica).context("a stamp in range")?;
    Ok(Edit::cells(alloc, &brain()?, stamp, cells)?)
}

/// A replica that drew some cells by one edit.
pub fn replica_of(alloc: Global, cells: Vec<Cell>) -> Result<Replica> {
    let mut replica = Replica::new(alloc, brain()?, 1)?;
    let _edit = replica.draw(EditSpec::Cells(ListOf::of_vec(cells)))?;
    Ok(replica)
}

/// A replica that drew a square at the origin.
pub fn replica_of_square(alloc: Global, side: u32) -> Result<Replica> {
    replica_of(alloc, square(alloc, Corner { x: 0, y: 0 }, side)?)
}

/// Draws an edit on a plane.
pub fn draw(plane: &mut Plane, edit: &Edit) -> Result<()> {
    let root = plane.root().part();
    let part = plane.add_overwritten(root, edit)?;
    plane.set_root(part);
    Ok(())
}
