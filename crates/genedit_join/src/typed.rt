//! Lines that come while the client does something else.

ghost use denote.Param.Send.{IsSend, IsSync};

use crate::ears::Bell;
use crossbeam_channel::{Receiver, Sender, bounded};
use devices::Source;
use genedit_io::RunFault;
use std::alloc::Global;
use std::sync::{Arc, Wait};
use std::thread::Threads;
use std::{mem, thread};

/// How many lines may wait for the client.
const WAITING: usize = 64;

/// How many bytes are read at once, at most.
const PIECE: usize = 8192;

/// What comes from the source of lines.
#[derive(Debug, Drop)]
pub(crate) enum Typed {
    /// A line, without its LF.
    Line(Vec<u8>),
    /// Nothing more can be read.
    Failed(RunFault),
}

/// Why nothing more is sent.
#[derive(Debug, Drop)]
enum Stop {
    /// Nobody receives any more.
    Unheard,
    Memory,
}

/// Where lines are sent, and what is called for each, if anything is.
#[derive(Drop)]
struct Sent {
    sender: Sender<Typed, Global>,
    bell: Option<Arc<Bell>>,
}

impl Sent {
    /// Sends what came, and calls. `Stop::Unheard` where nobody receives any more.
    fn send<R: Wait>(&self, rt: &R, typed: Typed) -> Result<(), Stop> {
        let sent = self.sender.send(rt, typed);
        ring(rt, &self.bell);
        match sent {
            Ok(()) => Ok(()),
            Err(_) => Err(Stop::Unheard),
        }
    }

    /// Sends no more, and calls, so that this is seen.
    fn end<R: Wait>(self, rt: &R) {
        let Sent { sender, bell } = self;
        drop(sender);
        ring(rt, &bell);
    }
}

fn ring<R: Wait>(rt: &R, bell: &Option<Arc<Bell>>) {
    if let Some(bell) = bell {
        bell.ring(rt);
    }
}

/// The lines of a source, which a thread of its own sends, calling for each; behind the last, and behind a
/// failure, there comes no more. Nobody waits for the thread.
pub(crate) fn typed_lines<
    R: Threads + Wait + Copy + Drop + Send + Sync + 'static,
    S: Source + Send + Drop + 'static,
>(
    rt: R,
    alloc: Global,
    source: S,
    bell: Option<Arc<Bell>>,
) -> Result<Receiver<Typed, Global>, RunFault> {
    let (sender, receiver) = bounded(alloc, WAITING)?;
    let sent = Sent { sender, bell };
    let begun = thread::spawn(
        &rt,
        move ||
            requires { IsSend R.row × IsSync R.row × IsSend S.row }
        { send_all(rt, alloc, source, sent) },
    );
    match begun {
        Ok(_thread) => Ok(receiver),
        Err(_) => Err(RunFault::Read),
    }
}

/// Sends each line of a source, and why it was left before its end.
fn send_all<R: Wait + Drop, S: Source + Drop>(rt: R, alloc: Global, mut source: S, sent: Sent) {
    if let Some(fault) = sent_lines(&rt, alloc, &mut source, &sent) {
        let _ = sent.send(&rt, Typed::Failed(fault));
    }
    sent.end(&rt);
}

/// Sends each line of a source; why it was left before its end, where somebody still receives.
fn sent_lines<R: Wait, S: Source>(
    rt: &R,
    alloc: Global,
    source: &mut S,
    sent: &Sent,
) -> Option<RunFault> {
    let mut line = Vec::new(alloc);
    let mut piece = [0; PIECE];
    for _ in rt.forever() {
        let Ok(count) = source.pull(&mut piece) else {
            return Some(RunFault::Read);
        };
        if count == 0 {
            return last_sent(rt, sent, line);
        }
        match send_piece(rt, alloc, sent, &mut line, &piece[..count]) {
            Ok(()) => {}
            Err(Stop::Unheard) => return None,
            Err(Stop::Memory) => return Some(RunFault::Memory),
        }
    }
    unreachable!()
}

/// Sends what stands behind the last LF, if anything does.
fn last_sent<R: Wait>(rt: &R, sent: &Sent, line: Vec<u8>) -> Option<RunFault> {
    if !line.is_empty() {
        let _ = sent.send(rt, Typed::Line(line));
    }
    None
}

/// Sends each line that ends in a piece, and keeps what is behind them.
fn send_piece<R: Wait>(
    rt: &R,
    alloc: Global,
    sent: &Sent,
    line: &mut Vec<u8>,
    piece: &[u8],
) -> Result<(), Stop> {
    for byte in piece {
        if *byte == b'\n' {
            let whole = mem::replace(line, Vec::new(alloc));
            sent.send(rt, Typed::Line(whole))?;
        } else if line.push(*byte).is_err() {
            return Err(Stop::Memory);
        }
    }
    Ok(())
}
