//! The server over the loopback of this machine: how long a push takes to its reply, and 64 clients that push and
//! poll, beside a relay of bytes that has no board.

ghost use Rattle.std.specs.Prelude.{◌≤◌};

mod client;
mod plain;

use crate::bench::{Bench, Networked};
use crate::drawing::brain;
use anyhow::{Context, Result};
use client::Client;
use devices::WriteSink;
use genedit_serve::{Address, ServedBoard, listen, serve_on};
use generations_rule::Rule;
use keyed_hash::HashKey;
use std::alloc::Global;
use std::net::TcpListener;
use std::thread;
use std::thread::JoinHandle;
use std::time::{Duration, Instant};

/// How many clients there are at once where it is timed.
const CLIENTS: u16 = 64;

/// How many there are else.
const FEW: u16 = 8;

/// After how many pushes a client polls.
const POLL_EACH: u32 = 16;

pub fn run<R: Networked>(bench: &Bench<R>) -> Result<()> {
    run_turns(bench)?;
    run_plain(bench)?;
    run_crowd(bench)
}

/// A server that runs in a thread of its own, until all its sessions have ended.
#[derive(Drop)]
struct Server {
    port: u16,
    thread: JoinHandle<Vec<u8>>,
}

impl Server {
    /// A server of so many seats, 1 to 64, under Brian's Brain.
    fn start<R: Networked>(bench: &Bench<R>, sessions: u16) -> Result<Server> {
        let (rt, alloc, rule) = (bench.rt, bench.alloc, brain()?);
        let listener = listen(&rt, 0).ok().context("a port")?;
        let port = listener.local_addr()?.port();
        let sessions = sessions.clamp(1, 64);
        let thread = thread::spawn(
            &rt,
            move || -> Vec<u8>
                requires { (1 ≤ sessions) × (sessions ≤ 64) }
            { printed(rt, alloc, listener, rule, sessions) },
        )?;
        Ok(Server { port, thread })
    }

    /// Tells the last line that it printed, once all sessions have ended.
    fn tell_end<R: Networked>(self, bench: &Bench<R>, what: &str) -> Result<()> {
        let printed = self.thread.join(&bench.rt);
        let all = String::from_utf8_lossy(bench.alloc, &printed)?;
        println!(&bench.rt; "{what}: {}", all.lines().last().unwrap_or("nothing"))?;
        Ok(())
    }
}

/// What a server prints that serves so many sessions; nothing where it did not end well.
fn printed<R: Networked>(
    rt: R,
    alloc: Global,
    listener: TcpListener,
    rule: Rule,
    sessions: u16,
) -> Vec<u8>
    requires { (1 ≤ sessions) × (sessions ≤ 64) }
{
    let mut text = Vec::new(alloc);
    let mut sink = WriteSink::new(&mut text);
    let board = ServedBoard {
        rule,
        sessions,
        first: 1,
        key: HashKey::fixed(),
    };
    let address = Address {
        listener: Some(listener),
        web: None,
        closing: None,
        until_idle: None,
    };
    match serve_on(rt, alloc, address, board, &mut sink) {
        Ok(()) => text,
        Err(_) => Vec::new(alloc),
    }
}

/// One client pushes edits in turn.
fn run_turns<R: Networked>(bench: &Bench<R>) -> Result<()> {
    let server = Server::start(bench, 1)?;
    let mut client = Client::connected(&bench.rt, bench.alloc, server.port, 1)?;
    let mut times = times_of_pushes(bench, &mut client)?;
    client.leave()?;
    server.tell_end(bench, "pushes in turn")?;
    times.sort()?;
    if bench.is_timed && times.len() == 200 {
        let (median, late) = (times[100], times[197]);
        println!(&bench.rt; "  median {median} us, 99th of a hundred {late} us")?;
    }
    Ok(())
}

/// The microseconds of each push, with a pause before it where it is timed.
fn times_of_pushes<R: Networked>(bench: &Bench<R>, client: &mut Client) -> Result<Vec<u128>> {
    let pause = Duration::from_millis(u64::from(bench.much(5, 0)));
    let mut times = Vec::new(bench.alloc);
    for _ in 0..bench.much(200, 50) {
        thread::sleep(&bench.rt, pause);
        let start = Instant::now(&bench.rt)?;
        client.push()?;
        times.push(start.elapsed(&bench.rt)?.as_micros())?;
    }
    Ok(times)
}

/// Clients push at the plain relay.
fn run_plain<R: Networked>(bench: &Bench<R>) -> Result<()> {
    let (rt, alloc) = (bench.rt, bench.alloc);
    let listener = listen(&rt, 0).ok().context("a port")?;
    let port = listener.local_addr()?.port();
    let clients = usize::from(client_count(bench));
    let relaying = thread::spawn(
        &rt,
        move || plain::relay(&rt, alloc, &listener, clients).unwrap_or(0),
    )?;
    let time = work_all(bench, port, false)?;
    let relayed = relaying.join(&rt);
    println!(&rt; "{clients} clients at a plain relay: {relayed} relayed")?;
    tell_rate(bench, time)
}

/// Clients push and poll at the server.
fn run_crowd<R: Networked>(bench: &Bench<R>) -> Result<()> {
    let server = Server::start(bench, client_count(bench))?;
    let time = work_all(bench, server.port, true)?;
    server.tell_end(bench, "as many that push and poll at the server")?;
    tell_rate(bench, time)
}

/// Clients of the seats from 1 on.
fn crowd<R: Networked>(bench: &Bench<R>, port: u16) -> Result<Vec<Client>> {
    let mut clients = Vec::new(bench.alloc);
    for place in 0..client_count(bench) {
        clients.push(Client::connected(&bench.rt, bench.alloc, port, place.saturating_add(1))?)?;
    }
    Ok(clients)
}

fn client_count<R: Networked>(bench: &Bench<R>) -> u16 {
    if bench.is_timed { CLIENTS } else { FEW }
}

/// How many edits each client pushes.
fn pushes<R: Networked>(bench: &Bench<R>) -> u32 {
    bench.much(1600, 16)
}

/// Lets each client work in a thread of its own; the time until all have done.
fn work_all<R: Networked>(bench: &Bench<R>, port: u16, is_polling: bool) -> Result<Duration> {
    let mut clients = crowd(bench, port)?;
    let pushes = pushes(bench);
    let work = |_: usize, client: &mut Client| {
        let _ = work(client, pushes, is_polling);
    };
    let start = Instant::now(&bench.rt)?;
    thread::for_each_mut(&bench.rt, &mut clients, usize::from(CLIENTS), &work);
    Ok(start.elapsed(&bench.rt)?)
}

/// Pushes so many edits; one that polls says goodbye too.
fn work(client: &mut Client, pushes: u32, is_polling: bool) -> Result<()> {
    for push in 1..=pushes {
        client.push()?;
        if is_polling && push % POLL_EACH == 0 {
            client.poll()?;
        }
    }
    if is_polling { client.leave() } else { Ok(()) }
}

fn tell_rate<R: Networked>(bench: &Bench<R>, time: Duration) -> Result<()> {
    if bench.is_timed {
        let pushed = f64::from(u32::from(client_count(bench)).saturating_mul(pushes(bench)));
        println!(&bench.rt; "  {:.0} pushes a second", pushed / time.as_secs_f64())?;
    }
    Ok(())
}
