//! Planes of no cells, of cells close together, apart and anywhere: how long a copy takes, which adds each square
//! of theirs to a store, and a clear of the plane but for its edge, at odd coordinates, which adds squares to them.

use crate::bench::{Bench, Row};
use crate::drawing::{Field, brain, replica_of, replica_of_square, scattered};
use anyhow::{Context, Result};
use edit_stamps::{Edit, Rect, Stamp};
use replica_core::Replica;
use stamped_tree::Plane;
use std::alloc::Global;
use std::rt::Clock;

/// What is cleared.
const INNER: Rect = Rect {
    x: -0x3fff_ffff,
    y: -0x3fff_ffff,
    width: 0x7fff_fffe,
    height: 0x7fff_fffe,
};

/// Where the cells of a plane lie.
#[derive(Clone, Copy)]
enum Drawn {
    Nowhere,
    Close,
    Apart,
    Anywhere,
}

static DRAWN: [(Drawn, &str); 4] = [
    (Drawn::Nowhere, "nothing"),
    (Drawn::Close, "cells close together"),
    (Drawn::Apart, "cells apart"),
    (Drawn::Anywhere, "cells anywhere"),
];

#[derive(Clone, Copy)]
enum Call {
    Copy,
    Clear,
}

static COPIES: [Row<Call>; 1] = [Row(Call::Copy, "a square copied")];

static CLEARS: [Row<Call>; 1] = [Row(Call::Clear, "a clear")];

pub fn run<R: Clock + Print>(bench: &Bench<R>) -> Result<()> {
    for (drawn, what) in DRAWN {
        let mut field = Cleared {
            alloc: bench.alloc,
            plane: drawing(bench, drawn)?.plane().copy()?,
            counter: 1,
        };
        run_plane(bench, &mut field, what)?;
    }
    Ok(())
}

/// A replica with 2^20 of these cells, but 2^17 anywhere, where it is timed.
fn drawing<R: Clock + Print>(bench: &Bench<R>, drawn: Drawn) -> Result<Replica> {
    let side = bench.much(1024, 64);
    let (field, count) = match drawn {
        Drawn::Nowhere => return Ok(Replica::new(bench.alloc, brain()?, 1)?),
        Drawn::Close => return replica_of_square(bench.alloc, side),
        Drawn::Apart => (Field::at_origin(12), side.saturating_mul(side)),
        Drawn::Anywhere => (Field::PLANE, bench.much(1 << 17, 1 << 9)),
    };
    replica_of(bench.alloc, scattered(bench.alloc, field, count)?)
}

fn run_plane<R: Clock + Print>(bench: &Bench<R>, field: &mut Cleared, over: &str) -> Result<()> {
    let squares = field.plane.nodes();
    println!(&bench.rt; "a plane of {over}: {squares} squares")?;
    bench.measure(4, squares, &COPIES, |call| field.make(call))?;
    field.make(Call::Clear)?;
    let added = field.plane.nodes().saturating_sub(squares);
    println!(&bench.rt; "a clear of it but for its edge: {added} squares more")?;
    bench.measure(4, 1, &CLEARS, |call| field.make(call))
}

/// A plane, and the counter of the stamp of its last clear.
#[derive(Drop)]
struct Cleared {
    alloc: Global,
    plane: Plane,
    counter: u64,
}

impl Cleared {
    fn make(&mut self, call: Call) -> Result<()> {
        match call {
            Call::Copy => drop(self.plane.copy()?),
            Call::Clear => self.clear()?,
        }
        Ok(())
    }

    /// Adds the square that the plane's root becomes, and leaves the plane's map.
    fn clear(&mut self) -> Result<()> {
        self.counter = self.counter.saturating_add(1);
        let stamp = Stamp::new(self.counter, 1).context("a stamp in range")?;
        let edit = Edit::clear(self.alloc, stamp, INNER)?;
        let root = self.plane.root().part();
        let _part = self.plane.add_overwritten(root, &edit)?;
        Ok(())
    }
}
