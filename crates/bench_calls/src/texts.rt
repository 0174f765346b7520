//! Texts of a state and of a delta: how fast they are written and read, beside a copy of their bytes; how long
//! those of many pastes are; and how fast one is read that was made to be slow.

mod crowd;
mod pastes;

use crate::bench::{Bench, Row};
use crate::drawing::{brain, replica_of_square};
use anyhow::Result;
use delta_exchange::read;
use replica_core::Replica;
use std::alloc::Global;
use std::rt::Clock;

/// What is sent of a replica.
#[derive(Clone, Copy)]
enum Kind {
    State,
    Delta,
}

#[derive(Clone, Copy)]
enum Call {
    Copy,
    Write,
    Read,
}

static CALLS: [Row<Call>; 3] = [
    Row(Call::Copy, "a copy"),
    Row(Call::Write, "written"),
    Row(Call::Read, "read"),
];

pub fn run<R: Clock + Print>(bench: &Bench<R>) -> Result<()> {
    let mut sent = Sent {
        alloc: bench.alloc,
        replica: replica_of_square(bench.alloc, bench.much(1024, 64))?,
        kind: Kind::State,
        text: Vec::new(bench.alloc),
    };
    run_kind(bench, &mut sent, "state of cells close together")?;
    sent.kind = Kind::Delta;
    run_kind(bench, &mut sent, "delta of the same cells")?;
    pastes::run(bench)?;
    crowd::run(bench)
}

fn run_kind<R: Clock + Print>(bench: &Bench<R>, sent: &mut Sent, what: &str) -> Result<()> {
    sent.text = written(&sent.replica, sent.kind)?;
    println!(&bench.rt;
        "{what}: {} bytes, written again the same: {}",
        sent.text.len(),
        sent.is_written_again()?
    )?;
    bench.measure(16, 1, &CALLS, |call| sent.make(call))
}

/// A replica, and the text that is sent of it.
#[derive(Drop)]
struct Sent {
    alloc: Global,
    replica: Replica,
    kind: Kind,
    text: Vec<u8>,
}

impl Sent {
    /// Whether a replica that takes the text has this very text.
    fn is_written_again(&self) -> Result<bool> {
        let mut replica = Replica::new(self.alloc, brain()?, 2)?;
        replica.take_bytes(&self.text)?;
        Ok(written(&replica, self.kind)?.as_slice() == self.text.as_slice())
    }

    fn make(&mut self, call: Call) -> Result<()> {
        match call {
            Call::Copy => drop(Vec::from_slice(self.alloc, &self.text)?),
            Call::Write => drop(written(&self.replica, self.kind)?),
            Call::Read => drop(read(self.alloc, &brain()?, &self.text)?),
        }
        Ok(())
    }
}

/// The state, or the delta of the first edit.
fn written(replica: &Replica, kind: Kind) -> Result<Vec<u8>> {
    match kind {
        Kind::State => Ok(replica.state()?),
        Kind::Delta => Ok(replica.delta(0, 1)?),
    }
}
