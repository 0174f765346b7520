//! Clients of boards that are served.

use client_session::Telling;
use devices::{ReadSource, WriteSink};
use genedit_io::RunFault;
use genedit_join::{JoinOptions, Terminal};
use genedit_words::JoinTask;
use keyed_hash::{HashKey, RandomBytes};
use std::alloc::Global;
use std::io;
use std::io::{IsTerminal, StdinLock};
use std::net::{Net, TcpListener, TcpStream};
use std::random::RandomSource;
use std::rt::Files;
use std::sync::Wait;
use std::thread::Threads;
use std::time::Clock;

/// Joins a board, with hashes whose key is drawn from the system, and carries out the commands on standard
/// input; the status of the process. It says on standard error how far a film is, where that is asked for.
pub fn join<
    R: Files
        + Input<Reader = StdinLock<'static>>
        + Print
        + Eprint
        + RandomSource
        + Net<Listener = TcpListener, Stream = TcpStream>
        + Threads
        + Wait
        + Clock
        + Copy
        + Drop
        + Send
        + Sync
        + 'static,
>(rt: &R, alloc: Global, client: JoinTask, tells_progress: bool) -> Result<u8, RunFault> {
    let Ok(key) = HashKey::drawn(&mut RandomBytes::of(rt)) else {
        return Err(RunFault::Read);
    };
    let reader = rt.reader();
    let options = options_of(client, key, reader.is_terminal(), tells_progress);
    let terminal = Terminal {
        source: ReadSource::new(reader),
        sink: WriteSink::new(io::writer(rt)),
    };
    Ok(genedit_join::join(rt, alloc, options, terminal))
}

fn options_of(
    client: JoinTask,
    key: HashKey,
    is_terminal: bool,
    tells_progress: bool,
) -> JoinOptions {
    JoinOptions {
        port: client.port,
        interval: client.interval,
        is_following: client.is_following,
        telling: telling_of(client),
        is_terminal,
        tells_progress,
        rescues: !client.leaves_no_file,
        key,
    }
}

/// What is told of drawings: nothing goes before cells that look different.
fn telling_of(client: JoinTask) -> Telling {
    if client.is_quiet {
        Telling::Nothing
    } else if client.tells_changes {
        Telling::Changes
    } else {
        Telling::Edits
    }
}
