//! A soup exported at sixteen generations by one worker and by four: at generations that fall, so that each
//! begins anew, and at generations that rise, so that a worker goes on from the one before.

use crate::bench::{Bench, Row};
use crate::drawing::{Field, replica_of, scattered};
use anyhow::Result;
use export_workers::{ExportList, Free, export_many};
use replica_core::Replica;
use std::alloc::AllocError;
use std::rt::Clock;
use std::thread::Threads;

/// By how many workers.
static WORKERS: [Row<u16>; 2] = [Row(1, "an export by one worker"), Row(4, "by four")];

pub fn run<R: Threads + Clock + Print + Sync>(bench: &Bench<R>) -> Result<()> {
    let field = Field::at_origin(bench.much(9, 5));
    let cells = scattered(bench.alloc, field, bench.much(0x2_0000, 512))?;
    let mut soup = Soup {
        replica: replica_of(bench.alloc, cells)?,
        generations: falling(bench.much(256, 16)),
    };
    run_order(bench, &soup, "falling")?;
    soup.generations.reverse();
    run_order(bench, &soup, "rising")
}

/// The last generation and those before it.
fn falling(last: u32) -> [u32; 16] {
    let mut generations = [0; 16];
    for (generation, before) in generations.iter_mut().zip(0_u32..) {
        *generation = last.saturating_sub(before);
    }
    generations
}

fn run_order<R: Threads + Clock + Print + Sync>(
    bench: &Bench<R>,
    soup: &Soup,
    order: &str,
) -> Result<()> {
    let alike = alike(&soup.exported(bench, 1)?, &soup.exported(bench, 4)?);
    println!(&bench.rt; "sixteen exports, {order}: {alike} alike by one worker and by four")?;
    bench.measure(2, 16, &WORKERS, |workers| {
        let _exports = soup.exported(bench, workers)?;
        Ok(())
    })
}

/// A soup, and the generations at which it is exported.
#[derive(Drop)]
struct Soup {
    replica: Replica,
    generations: [u32; 16],
}

impl Soup {
    fn exported<R: Threads + Sync>(
        &self,
        bench: &Bench<R>,
        workers: u16,
    ) -> Result<ExportList, AllocError> {
        export_many(
            &bench.rt,
            bench.alloc,
            &self.replica.rule(),
            self.replica.plane(),
            &self.generations,
            workers,
            &Free,
        )
    }
}

/// How many exports are the same text.
fn alike(one: &ExportList, four: &ExportList) -> u32 {
    let mut alike = 0_u32;
    for pair in one.as_slice().iter().zip(four.as_slice()) {
        if let (Ok(text), Ok(other)) = pair
            && text.as_slice() == other.as_slice()
        {
            alike = alike.saturating_add(1);
        }
    }
    alike
}
