//! Streams of frames, large and small, in pieces of 4,096 bytes: how fast their bodies are taken; and of pushes,
//! how fast they are served over a hub in memory, beside their frames alone.

use crate::bench::{Bench, Row};
use crate::drawing::brain;
use anyhow::{Result, ensure};
use devices::{ReadSource, WriteSink};
use edit_stamps::Cell;
use memory_hub::MemoryHub;
use message_frames::{FrameFault, Frames, frame};
use replica_sessions::Session;
use samples::plane_of;
use session_service::{Unheard, serve};
use std::alloc::{AllocError, Global};
use std::rt::Clock;
use std::thread::Threads;

/// How many bytes a piece has.
const PIECE: usize = 4096;

/// A push of an edit of one cell by seat 1, in its frame.
const PUSH: &[u8] =
    b"\0\0\0\x25\x02GLWD\x01\x04/2/3\0\0\0\x01\0\0\0\0\0\x01\0\x01\0\0\0\0\x01\x40\0\0\0\x40\0\0\0\x01";

/// What the hub's plane has.
const CELL: Cell = Cell {
    x: 0,
    y: 0,
    state: 1,
};

#[derive(Clone, Copy)]
enum Call {
    Take,
    Serve,
}

static FRAME: [Row<Call>; 1] = [Row(Call::Take, "a frame")];

static PUSHES: [Row<Call>; 2] = [
    Row(Call::Take, "a frame"),
    Row(Call::Serve, "a push served"),
];

/// Frames of 4,096 and of 36 bytes.
pub fn run<R: Threads + Clock + Print + Copy + Drop + Sync>(bench: &Bench<R>) -> Result<()> {
    let many = bench.much(4096, 16);
    run_bodies(bench, many, &[7; 4096])?;
    run_bodies(bench, many.saturating_mul(50), &[7; 36])
}

fn run_bodies<R: Threads + Clock + Print + Copy + Drop + Sync>(
    bench: &Bench<R>,
    count: u32,
    body: &[u8],
) -> Result<()> {
    let stream = Stream::of(bench, count, &frame(bench.alloc, body)?)?;
    let (bodies, bytes) = stream.taken()?;
    println!(&bench.rt;
        "frames of {} bytes: {bodies} bodies, {bytes} bytes",
        body.len()
    )?;
    bench.measure(16, count, &FRAME, |call| stream.make(call))
}

/// Pushes.
pub fn run_sessions<R: Threads + Clock + Print + Copy + Drop + Sync>(
    bench: &Bench<R>,
) -> Result<()> {
    let count = bench.much(0x2_0000, 1024);
    let stream = Stream::of(bench, count, PUSH)?;
    let (requests, edits) = stream.served()?;
    println!(&bench.rt; "{count} pushes: {requests} requests, {edits} edits pushed")?;
    bench.measure(8, count, &PUSHES, |call| stream.make(call))
}

/// A frame, so many times one after another.
#[derive(Drop)]
struct Stream<R> {
    rt: R,
    alloc: Global,
    count: u32,
    bytes: Vec<u8>,
}

impl<R: Threads + Copy + Drop + Sync> Stream<R> {
    fn of(bench: &Bench<R>, count: u32, frame: &[u8]) -> Result<Stream<R>, AllocError> {
        let mut bytes = Vec::new(bench.alloc);
        for _ in 0..count {
            bytes.extend_from_slice(frame)?;
        }
        Ok(Stream {
            rt: bench.rt,
            alloc: bench.alloc,
            count,
            bytes,
        })
    }

    /// How many bodies it has where it is fed in pieces, and how many bytes they have.
    fn taken(&self) -> Result<(u64, u64), FrameFault> {
        let mut frames = Frames::new(self.alloc);
        let mut bodies = (0, 0);
        for piece in self.bytes.chunks(PIECE) {
            frames.feed(piece)?;
            take_next(&mut frames, &mut bodies)?;
        }
        Ok(bodies)
    }

    /// Serves all of it: how many requests there were, and how many edits were pushed.
    fn served(&self) -> Result<(u64, usize)> {
        let mut session = self.session()?;
        let mut replies = Vec::new(self.alloc);
        let mut sink = WriteSink::new(&mut replies);
        let mut source = ReadSource::new(self.bytes.as_slice());
        let end = serve(&mut source, &mut sink, &mut session, &mut Unheard)?;
        Ok((end.requests, session.into_hub().fresh()))
    }

    fn session(&self) -> Result<Session<MemoryHub, R>> {
        let rule = brain()?;
        let plane = plane_of(self.alloc, &rule, &[CELL])?;
        let hub = MemoryHub::new(self.alloc, rule, 1, plane, 0);
        Ok(Session::new(self.rt, self.alloc, hub))
    }

    /// Takes or serves all of it.
    fn make(&self, call: Call) -> Result<()> {
        let done = match call {
            Call::Take => self.taken()?.0,
            Call::Serve => self.served()?.1 as u64,
        };
        ensure!(done == u64::from(self.count), "a frame was lost");
        Ok(())
    }
}

/// Counts those that stand next.
fn take_next(frames: &mut Frames, bodies: &mut (u64, u64)) -> Result<(), FrameFault> {
    for _ in 0..=PIECE {
        let Some(body) = frames.next()? else {
            break;
        };
        bodies.0 = bodies.0.wrapping_add(1);
        bodies.1 = bodies.1.wrapping_add(body.len() as u64);
    }
    Ok(())
}
