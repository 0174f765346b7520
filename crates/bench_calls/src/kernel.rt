//! Blocks advanced on bit planes, beside the rule applied cell by cell: how fast, and whether both come to the
//! same cells. A megabyte of blocks where it is timed.

mod cells;

use crate::bench::{Bench, Row};
use crate::drawing::Chance;
use anyhow::Result;
use bitplane_kernel::Block;
use cells::Cells;
use generations_rule::Rule;
use std::alloc::{AllocError, Global};
use std::rt::Clock;

/// Star Wars' counts, with two states up to the most.
static RULES: [&[u8]; 5] = [
    b"345/2/2",
    b"345/2/3",
    b"345/2/4",
    b"345/2/25",
    b"345/2/256",
];

/// A megabyte of blocks of 256 cells.
const MEGABYTE: u32 = 4096;

/// The cells of a block that are not on its edge.
const INNER: u32 = 196;

/// How a block is advanced.
#[derive(Clone, Copy)]
enum Way {
    CellByCell,
    OnPlanes,
}

static WAYS: [Row<Way>; 2] = [
    Row(Way::CellByCell, "a cell by the rule"),
    Row(Way::OnPlanes, "a cell on planes"),
];

pub fn run<R: Clock + Print>(bench: &Bench<R>) -> Result<()> {
    let count = bench.much(MEGABYTE, 8);
    for text in RULES {
        let rule = Rule::parse(text)?;
        let pairs = scattered(bench.alloc, &rule, count)?;
        run_race(bench, &mut Race { rule, pairs }, count)?;
    }
    Ok(())
}

fn run_race<R: Clock + Print>(bench: &Bench<R>, race: &mut Race, count: u32) -> Result<()> {
    race.advance(Way::CellByCell);
    race.advance(Way::OnPlanes);
    let cells = count.saturating_mul(INNER);
    println!(&bench.rt;
        "{} states: {} of {cells} cells are the same",
        race.rule.states(),
        race.same()
    )?;
    bench.measure(32, cells, &WAYS, |way| {
        race.advance(way);
        Ok(())
    })
}

/// The same cells on bit planes and one by one.
#[derive(Drop)]
struct Pair {
    block: Block,
    cells: Cells,
}

/// Pairs that are advanced under a rule.
#[derive(Drop)]
struct Race {
    rule: Rule,
    pairs: Vec<Pair>,
}

fn scattered(alloc: Global, rule: &Rule, count: u32) -> Result<Vec<Pair>, AllocError> {
    let mut chance = Chance::new(11);
    let mut pairs = Vec::new(alloc);
    for _ in 0..count {
        let cells = Cells::scattered(rule, &mut chance);
        let block = cells.block();
        pairs.push(Pair { block, cells })?;
    }
    Ok(pairs)
}

impl Race {
    /// One generation of each pair, of its block or of its cells.
    fn advance(&mut self, way: Way) {
        for pair in self.pairs.iter_mut() {
            match way {
                Way::CellByCell => pair.cells.step(&self.rule),
                Way::OnPlanes => pair.block.advance(&self.rule, 1),
            }
        }
    }

    /// How many cells are the same in both.
    fn same(&self) -> u64 {
        let mut same = 0_u64;
        for pair in &self.pairs {
            same = same.wrapping_add(pair.cells.same(&pair.block));
        }
        same
    }
}
