//! Boards that are served.

ghost use Rattle.std.specs.Prelude.{◌≤◌};
ghost use Rattle.genedit_words.specs.Given.{IsServable};

use crate::closing::closing_call;
use crate::document_reading::Left;
use crate::opening::{tell_refused, tell_unheard};
use crate::web::{named_url, web_address};
use board_links::BoardUrl;
use devices::WriteSink;
use genedit_io::RunFault;
use genedit_serve::{
    Address, ClosingCall, KeptBoard, ServedBoard, listen, open_kept, serve_kept_on, serve_on,
};
use genedit_words::ServeTask;
use generations_rule::Rule;
use keyed_hash::{HashKey, RandomBytes};
use std::alloc::Global;
use std::fs::File;
use std::io;
use std::io::StdinLock;
use std::net::{Net, TcpListener, TcpStream};
use std::random::RandomSource;
use std::rt::Files;
use std::sync::{Arc, Wait};
use std::thread::Threads;
use std::time::{Clock, Duration};

/// All is well.
const WELL: u8 = 0;

/// How many seconds a minute has.
const MINUTE: u64 = 60;

/// Serves a board, whose hashes have a key that is drawn from the system; one that is kept in a file where the
/// words name one.
pub fn serve<
    R: Files<File = File>
        + Input<Reader = StdinLock<'static>>
        + Print
        + Eprint
        + RandomSource
        + Net<Listener = TcpListener, Stream = TcpStream>
        + Clock
        + Threads
        + Wait
        + Copy
        + Drop
        + Send
        + Sync
        + 'static,
>(rt: &R, alloc: Global, server: &ServeTask<'_>) -> Result<u8, RunFault>
    requires { IsServable server.now }
{
    let url = match named_url(rt, alloc, server) {
        Ok(url) => url,
        Err(left) => return left.end(),
    };
    let Ok(key) = HashKey::drawn(&mut RandomBytes::of(rt)) else {
        return Err(RunFault::Read);
    };
    let drawn = Drawn { url, key };
    match server.keep {
        Some(path) => serve_file(rt, alloc, server, path, drawn),
        None => match server.rule {
            Some(rule) => serve_board(rt, alloc, server, rule, drawn),
            None => unreachable!(),
        },
    }
}

/// What a server has beside its words.
#[derive(Drop)]
struct Drawn {
    /// How links begin, where the words say so.
    url: Option<BoardUrl>,
    /// By its hashes the planes find their squares.
    key: HashKey,
}

/// Serves a board that is kept nowhere.
fn serve_board<
    R: Files<File = File>
        + Input<Reader = StdinLock<'static>>
        + Print
        + Eprint
        + RandomSource
        + Net<Listener = TcpListener, Stream = TcpStream>
        + Clock
        + Threads
        + Wait
        + Copy
        + Drop
        + Send
        + Sync
        + 'static,
>(rt: &R, alloc: Global, server: &ServeTask<'_>, rule: Rule, drawn: Drawn) -> Result<u8, RunFault>
    requires sessions { (1 ≤ server.now.sessions) × (server.now.sessions ≤ 64) }
    requires first { (1 ≤ server.now.first) × (server.now.first ≤ 65472) }
{
    let Drawn { url, key } = drawn;
    let address = match address_of(rt, alloc, server, url) {
        Ok(address) => address,
        Err(left) => return left.end(),
    };
    let mut sink = WriteSink::new(io::writer(rt));
    let board = ServedBoard {
        rule,
        sessions: server.sessions,
        first: server.first,
        key,
    };
    serve_on(*rt, alloc, address, board, &mut sink)?;
    Ok(WELL)
}

/// Where a server listens, and how it ends. Where one of its ports cannot be had, or its link cannot be made, it is said why.
fn address_of<
    R: Files<File = File>
        + Input<Reader = StdinLock<'static>>
        + Eprint
        + RandomSource
        + Net<Listener = TcpListener, Stream = TcpStream>
        + Clock
        + Threads
        + Wait
        + Copy
        + Drop
        + Send
        + Sync
        + 'static,
>(rt: &R, alloc: Global, server: &ServeTask<'_>, url: Option<BoardUrl>) -> Result<Address, Left> {
    let listener = match server.port {
        None => None,
        Some(port) => match listen(rt, port) {
            Ok(listener) => Some(listener),
            Err(cause) => return Err(Left::by(tell_unheard(rt, alloc, port, cause))),
        },
    };
    let web = web_address(rt, alloc, server, url)?;
    let closing = closing_of(rt, alloc, server)?;
    Ok(Address {
        listener,
        web,
        closing,
        until_idle: server.until_idle.map(minutes),
    })
}

/// So many minutes.
fn minutes(count: u16) -> Duration {
    Duration::from_secs(u64::from(count) * MINUTE)
}

/// By what a server is asked to end, where a line is to do so.
fn closing_of<
    R: Input<Reader = StdinLock<'static>>
        + Clock
        + Threads
        + Wait
        + Copy
        + Drop
        + Send
        + Sync
        + 'static,
>(
    rt: &R,
    alloc: Global,
    server: &ServeTask<'_>,
) -> Result<Option<Arc<ClosingCall, Global>>, RunFault> {
    if server.until_close {
        let closing = closing_call(*rt, alloc)?;
        Ok(Some(closing))
    } else {
        Ok(None)
    }
}

/// Serves the board of a file.
fn serve_file<
    R: Files<File = File>
        + Input<Reader = StdinLock<'static>>
        + Print
        + Eprint
        + RandomSource
        + Net<Listener = TcpListener, Stream = TcpStream>
        + Clock
        + Threads
        + Wait
        + Copy
        + Drop
        + Send
        + Sync
        + 'static,
>(rt: &R, alloc: Global, server: &ServeTask<'_>, path: &str, drawn: Drawn) -> Result<u8, RunFault>
    requires sessions { (1 ≤ server.now.sessions) × (server.now.sessions ≤ 64) }
    requires first { (1 ≤ server.now.first) × (server.now.first ≤ 65472) }
{
    let file = match open_kept(rt, alloc, path, server.rule) {
        Ok(file) => file,
        Err(refusal) => return tell_refused(rt, alloc, path, refusal),
    };
    let Drawn { url, key } = drawn;
    let address = match address_of(rt, alloc, server, url) {
        Ok(address) => address,
        Err(left) => return left.end(),
    };
    let mut sink = WriteSink::new(io::writer(rt));
    let board = KeptBoard {
        sessions: server.sessions,
        first: server.first,
        key,
        file,
    };
    match serve_kept_on(rt, alloc, address, board, &mut sink) {
        Ok(()) => Ok(WELL),
        Err(refusal) => tell_refused(rt, alloc, path, refusal),
    }
}
