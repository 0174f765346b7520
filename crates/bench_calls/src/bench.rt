//! What the parts are run on, and how their calls are timed.

use anyhow::Result;
use std::alloc::Global;
use std::io;
use std::net::{Net, TcpListener, TcpStream};
use std::rt::Clock;
use std::sync::Wait;
use std::thread::Threads;
use std::time::{Duration, Instant};

/// What a part asks of the runtime that has threads.
pub trait Machine: Threads + Wait + Clock + Print + Copy + Drop + Send + Sync {}

impl<R: Threads + Wait + Clock + Print + Copy + Drop + Send + Sync> Machine for R {}

/// What a part asks of it that has connections too.
pub trait Networked: Machine + Net<Listener = TcpListener, Stream = TcpStream> + 'static {}

impl<R: Machine + Net<Listener = TcpListener, Stream = TcpStream> + 'static> Networked for R {}

/// What a part is run on, and whether it is timed.
#[derive(Clone, Copy)]
pub struct Bench<R> {
    pub rt: R,
    pub alloc: Global,
    pub is_timed: bool,
}

/// A call of a table, and what one of the things that it does is called.
pub struct Row<'a, C>(pub C, pub &'a str);

impl<R: Clock + Print> Bench<R> {
    /// So much where it is timed, else a little.
    pub fn much(&self, timed: u32, little: u32) -> u32 {
        if self.is_timed { timed } else { little }
    }

    /// Makes the calls of a table in turn, so many rounds, and tells of each the least time of one of the `count`
    /// things that it does. Where it is not timed nothing is made.
    pub fn measure<C: Copy, F: FnMut(C) -> Result<()>>(
        &self,
        rounds: u32,
        count: u32,
        rows: &[Row<C>],
        mut call: F,
    ) -> Result<()>
        requires { F.IsAlwaysCallable call }
    {
        if !self.is_timed {
            return Ok(());
        }
        let mut best = vec![in self.alloc; Duration::MAX; rows.len()]?;
        for _ in 0..rounds {
            for (row, least) in rows.iter().zip(best.iter_mut()) {
                let start = Instant::now(&self.rt)?;
                call(row.0)?;
                *least = (*least).min(start.elapsed(&self.rt)?);
            }
        }
        Ok(tell(&self.rt, rows, &best, count)?)
    }
}

/// Tells the times of a table, each beside the first.
fn tell<C>(rt: &impl Print, rows: &[Row<C>], times: &[Duration], count: u32) -> io::Result<()> {
    let first = times.first().map_or(0.0, Duration::as_secs_f64);
    for (row, time) in rows.iter().zip(times) {
        let seconds = time.as_secs_f64();
        tell_row(rt, row.1, seconds / f64::from(count), seconds / first)?;
    }
    Ok(())
}

/// Tells the seconds of one thing, and how many times the first's that is.
fn tell_row(rt: &impl Print, what: &str, seconds: f64, ratio: f64) -> io::Result<()> {
    println!(rt;
        "  {what}: {:.1} ns, {:.0} a second; {ratio:.2} times the first's time, {:.2} times its rate",
        seconds * 1e9,
        1.0 / seconds,
        1.0 / ratio
    )
}
