//! Servers on threads of their own.

ghost use Rattle.std.specs.Prelude.{◌≤◌};

use devices::WriteSink;
use genedit_io::RunFault;
use genedit_serve::{Address, ClosingCall, ServedBoard, WebAddress, listen, listen_web, serve_on};
use generations_rule::Rule;
use keyed_hash::HashKey;
use std::alloc::Global;
use std::net::{Net, TcpListener, TcpStream};
use std::sync::{Arc, Wait};
use std::test::Fail;
use std::thread;
use std::thread::{JoinHandle, Threads};
use std::time::Clock;
use web_doors::Front;
use web_requests::{House, Token};

/// What the links of the tests carry.
pub const TOKEN: &Token = b"00112233445566778899aabbccddeeff";

/// How a server ended, and what it printed.
#[derive(Drop)]
pub struct Outcome {
    pub end: Result<(), RunFault>,
    pub printed: Vec<u8>,
}

/// A server that runs.
#[derive(Drop)]
pub struct Served {
    /// Where connections of frames come; 0 where none do.
    pub port: u16,
    /// Where browsers come; 0 where none do.
    pub web: u16,
    thread: JoinHandle<Outcome>,
}

/// Where a server listens that has one port, or both.
pub fn address_of(listener: Option<TcpListener>, web: Option<WebAddress>) -> Address {
    Address {
        listener,
        web,
        closing: None,
        until_idle: None,
    }
}

/// A web port of this machine's loopback that is free, with a page.
pub fn web_address<R: Net<Listener = TcpListener, Stream = TcpStream>>(
    rt: &R,
    alloc: Global,
) -> Result<WebAddress, Fail> {
    let listener = listen_web(rt, "127.0.0.1", 0)?;
    let port = listener.local_addr()?.port();
    let host = format!(in alloc; "127.0.0.1:{port}")?;
    let url = format!(in alloc; "http://127.0.0.1:{port}")?;
    let house = House {
        host: Vec::from_slice(alloc, host.as_bytes())?,
        origin: Vec::from_slice(alloc, url.as_bytes())?,
        token: *TOKEN,
    };
    Ok(WebAddress {
        listener,
        front: Front {
            house,
            page: "<p>the page</p>",
            policy: "default-src 'none'",
        },
    })
}

/// The port of a listener, if there is one.
fn port_of(listener: Option<&TcpListener>) -> Result<u16, Fail> {
    match listener {
        None => Ok(0),
        Some(listener) => Ok(listener.local_addr()?.port()),
    }
}

impl Served {
    /// A server of so many seats under `/2/3`, one at least, at any port that is free.
    pub fn start<
        R: Net<Listener = TcpListener, Stream = TcpStream>
            + Clock
            + Threads
            + Wait
            + Copy
            + Drop
            + Send
            + Sync
            + 'static,
    >(rt: R, alloc: Global, sessions: u16) -> Result<Served, Fail> {
        let listener = listen(&rt, 0)?;
        Served::start_at(rt, alloc, sessions, address_of(Some(listener), None))
    }

    /// The same at an address.
    pub fn start_at<
        R: Net<Listener = TcpListener, Stream = TcpStream>
            + Clock
            + Threads
            + Wait
            + Copy
            + Drop
            + Send
            + Sync
            + 'static,
    >(rt: R, alloc: Global, sessions: u16, address: Address) -> Result<Served, Fail> {
        let rule = Rule::parse(b"/2/3")?;
        let port = port_of(address.listener.as_ref())?;
        let web = port_of(address.web.as_ref().map(|web| &web.listener))?;
        let sessions = sessions.clamp(1, 64);
        let thread = thread::spawn(
            &rt,
            move || -> Outcome
                requires { (1 ≤ sessions) × (sessions ≤ 64) }
            { run(rt, alloc, address, rule, sessions) },
        )?;
        Ok(Served { port, web, thread })
    }

    /// What it printed behind the lines that tell its ports, once it has ended well.
    pub fn told<R: Threads>(self, rt: &R, alloc: Global) -> Result<String, Fail> {
        let first = self.lines(alloc)?;
        let outcome = self.thread.join(rt);
        outcome.end?;
        let all = String::from_utf8_lossy(alloc, &outcome.printed)?;
        match all.strip_prefix(first.as_str()) {
            Some(rest) => Ok(String::from_str(alloc, rest)?),
            None => Ok(format!(in alloc; "other first lines: {all}")?),
        }
    }

    /// The lines that tell its ports.
    fn lines(&self, alloc: Global) -> Result<String, Fail> {
        let mut lines = String::new(alloc);
        if self.web > 0 {
            let link = format!(in alloc;
                "open http://127.0.0.1:{}/#00112233445566778899aabbccddeeff\n",
                self.web
            )?;
            lines.push_str(link.as_str())?;
        }
        if self.port > 0 {
            let listening = format!(in alloc; "listening {}\n", self.port)?;
            lines.push_str(listening.as_str())?;
        }
        Ok(lines)
    }
}

/// A server with both ports, or that of browsers alone, and what ends it.
#[derive(Drop)]
pub struct Opened {
    pub served: Served,
    closing: Arc<ClosingCall, Global>,
}

impl Opened {
    pub fn start<
        R: Net<Listener = TcpListener, Stream = TcpStream>
            + Clock
            + Threads
            + Wait
            + Copy
            + Drop
            + Send
            + Sync
            + 'static,
    >(rt: R, alloc: Global, sessions: u16, has_port: bool) -> Result<Opened, Fail> {
        let listener = if has_port {
            Some(listen(&rt, 0)?)
        } else {
            None
        };
        let closing = Arc::new(alloc, ClosingCall::new())?;
        let address = Address {
            closing: Some(Arc::try_clone(&closing)?),
            ..address_of(listener, Some(web_address(&rt, alloc)?))
        };
        let served = Served::start_at(rt, alloc, sessions, address)?;
        Ok(Opened { served, closing })
    }

    /// Ends it; what it printed behind the lines that tell its ports.
    pub fn told<R: Threads + Wait + Clock>(self, rt: &R, alloc: Global) -> Result<String, Fail> {
        self.closing.ask(rt);
        self.served.told(rt, alloc)
    }
}

fn run<
    R: Net<Listener = TcpListener, Stream = TcpStream>
        + Clock
        + Threads
        + Wait
        + Copy
        + Drop
        + Send
        + Sync
        + 'static,
>(rt: R, alloc: Global, address: Address, rule: Rule, sessions: u16) -> Outcome
    requires { (1 ≤ sessions) × (sessions ≤ 64) }
{
    let board = ServedBoard {
        rule,
        sessions,
        first: 1,
        key: HashKey::fixed(),
    };
    let mut printed = Vec::new(alloc);
    let end = serve_on(rt, alloc, address, board, &mut WriteSink::new(&mut printed));
    Outcome { end, printed }
}
