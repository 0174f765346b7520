//! What ends a server: a line on standard input.

ghost use denote.Param.Send.{IsSend, IsSync};

use genedit_io::RunFault;
use genedit_serve::ClosingCall;
use std::alloc::Global;
use std::io::{Read, StdinLock};
use std::sync::{Arc, Wait};
use std::thread;
use std::thread::Threads;
use std::time::Clock;

/// What a line says that ends a server.
const CLOSE: &[u8] = b"close";

/// What a line ends with.
const LINE_END: u8 = b'\n';

/// What a line `close` on standard input asks a server to end by, from now on. Nobody waits for the thread that reads
/// the lines: behind the last one, nothing ends the server but its clients.
pub fn closing_call<
    R: Input<Reader = StdinLock<'static>>
        + Clock
        + Threads
        + Wait
        + Copy
        + Drop
        + Send
        + Sync
        + 'static,
>(rt: R, alloc: Global) -> Result<Arc<ClosingCall, Global>, RunFault> {
    let Ok(closing) = Arc::new(alloc, ClosingCall::new()) else {
        return Err(RunFault::Memory);
    };
    let theirs = Arc::try_clone(&closing)?;
    let begun = thread::spawn(
        &rt,
        move ||
            requires { IsSend R.row × IsSync R.row }
        { ask_at_close(rt, &theirs) },
    );
    match begun {
        Ok(_thread) => Ok(closing),
        Err(_) => Err(RunFault::Read),
    }
}

/// Reads lines until one says `close`, and asks the server to end. It takes no memory: a server that has none left can
/// still be ended so.
fn ask_at_close<R: Input<Reader = StdinLock<'static>> + Clock + Wait + Drop>(
    rt: R,
    closing: &ClosingCall,
) {
    let mut heard = Heard::Blank;
    for byte in rt.reader().bytes() {
        heard = match byte {
            Ok(LINE_END) if heard == Heard::Close => return closing.ask(&rt),
            Ok(LINE_END) => Heard::Blank,
            Ok(byte) => heard.and(byte),
            Err(_) => return,
        };
    }
    if heard == Heard::Close {
        closing.ask(&rt);
    }
}

/// What a line has said so far.
#[derive(Clone, Copy, PartialEq, Eq)]
enum Heard {
    /// White space alone.
    Blank,
    /// White space, and so many bytes of `close`.
    Part(usize),
    /// `close`, with white space around it or none.
    Close,
    /// Something else.
    Other,
}

impl Heard {
    /// What it has said with one byte more.
    fn and(self, byte: u8) -> Heard {
        let said = match self {
            Heard::Blank if byte.is_ascii_whitespace() => return Heard::Blank,
            Heard::Close if byte.is_ascii_whitespace() => return Heard::Close,
            Heard::Blank => 0,
            Heard::Part(said) => said,
            Heard::Close | Heard::Other => return Heard::Other,
        };
        if CLOSE.get(said) != Some(&byte) {
            Heard::Other
        } else if said + 1 == CLOSE.len() {
            Heard::Close
        } else {
            Heard::Part(said + 1)
        }
    }
}
