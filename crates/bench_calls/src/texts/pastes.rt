//! Pastes of one square of cells side by side, 1,000 of them where it is timed, all of one stamp and each of its
//! own: how long the text of the state is, beside version 1, which spells each leaf wherever it stands.

use crate::bench::Bench;
use crate::drawing::{brain, draw, edit, square};
use anyhow::Result;
use delta_exchange::write_state;
use edit_stamps::Corner;
use stamped_tree::Plane;
use std::alloc::Global;
use std::rt::Clock;

/// How many columns and rows a paste has.
const SIDE: u32 = 64;

/// How many bytes the leaves of a paste have in version 1.
const FIRST_BYTES: u32 = 64 * 577;

pub fn run<R: Clock + Print>(bench: &Bench<R>) -> Result<()> {
    run_pastes(bench, 0, "of one stamp")?;
    run_pastes(bench, 1, "of stamps of their own")
}

/// Pastes, each with a counter that is by so much above the one before.
fn run_pastes<R: Clock + Print>(bench: &Bench<R>, step: u32, what: &str) -> Result<()> {
    let pastes = bench.much(1000, 16);
    let plane = pasted(bench.alloc, pastes, step)?;
    let bytes = write_state(bench.alloc, &brain()?, &plane)?.len();
    println!(&bench.rt;
        "state of {pastes} pastes {what}: {bytes} bytes; their leaves have {} in version 1",
        pastes.saturating_mul(FIRST_BYTES)
    )?;
    Ok(())
}

/// The plane of so many pastes, in rows of 32.
fn pasted(alloc: Global, pastes: u32, step: u32) -> Result<Plane> {
    let mut plane = Plane::new(alloc)?;
    for number in 0..pastes {
        let corner = Corner {
            x: 0_i32.wrapping_add_unsigned(number % 32 * SIDE),
            y: 0_i32.wrapping_add_unsigned(number / 32 % 32 * SIDE),
        };
        let counter = u64::from(number.saturating_mul(step)) + 1;
        let cells = square(alloc, corner, SIDE)?;
        draw(&mut plane, &edit(alloc, counter, 1, &cells)?)?;
    }
    Ok(plane)
}
