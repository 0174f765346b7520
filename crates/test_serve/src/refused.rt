//! What is refused before anybody is served.

use crate::served::address_of;
use devices::{Failed, Sink};
use genedit_io::{Cause, RunFault};
use genedit_serve::{ServedBoard, listen, serve_on};
use generations_rule::Rule;
use keyed_hash::HashKey;
use std::net::TcpStream;
use std::test::Fail;

/// Takes nothing.
#[derive(Drop)]
struct Full {
    pushes: u64,
    failures: u64,
}

impl Sink for Full {
    ghost use Rattle.std.specs.Prelude.{None};

    ghost known = { λ s. record { pushes = s.pushes; failures = s.failures; held = None } };

    fn push_all(&mut self, _bytes: &[u8]) -> Result<(), Failed> {
        self.pushes = self.pushes.saturating_add(1);
        self.failures = self.failures.saturating_add(1);
        Err(Failed)
    }
}

#[test]
fn a_port_that_is_taken(rt: HostRuntime) -> Result<(), Fail> {
    let first = listen(&rt, 0)?;
    let port = first.local_addr()?.port();
    assert_eq!(&rt; listen(&rt, port).err(), Some(Cause::Taken));
    drop(first);
    assert!(&rt;
        listen(&rt, port).is_ok(),
        "once it is free it may be had again"
    );
    Ok(())
}

#[test]
fn another_address_of_this_machine(rt: HostRuntime) -> Result<(), Fail> {
    let listener = listen(&rt, 0)?;
    let port = listener.local_addr()?.port();
    assert!(&rt; TcpStream::connect(&rt, ("127.0.0.1", port)).is_ok());
    assert!(&rt; TcpStream::connect(&rt, ("127.0.0.2", port)).is_err());
    drop(listener);
    Ok(())
}

#[test]
fn an_output_that_takes_nothing(rt: HostRuntime) -> Result<(), Fail> {
    let rule = Rule::parse(b"/2/3")?;
    let mut full = Full {
        pushes: 0,
        failures: 0,
    };
    let address = address_of(Some(listen(&rt, 0)?), None);
    let board = ServedBoard {
        rule,
        sessions: 1,
        first: 1,
        key: HashKey::fixed(),
    };
    assert_eq!(&rt;
        serve_on(rt, rt.alloc(), address, board, &mut full),
        Err(RunFault::Write)
    );
    assert_eq!(&rt; full.pushes, 1);
    Ok(())
}

#[test]
fn nowhere_to_come_in(rt: HostRuntime) -> Result<(), Fail> {
    let board = ServedBoard {
        rule: Rule::parse(b"/2/3")?,
        sessions: 1,
        first: 1,
        key: HashKey::fixed(),
    };
    let mut full = Full {
        pushes: 0,
        failures: 0,
    };
    assert_eq!(&rt;
        serve_on(rt, rt.alloc(), address_of(None, None), board, &mut full),
        Err(RunFault::Read)
    );
    assert_eq!(&rt; full.pushes, 0);
    Ok(())
}
