//! Connections that are lost.

use crate::clients::{BYE, PUSH, connected, gets, greeted, send};
use crate::served::Served;
use std::io;
use std::net::{Net, TcpStream};
use std::test::Fail;

/// Sends bytes over a connection of its own, and drops it.
fn leave<R: Net<Stream = TcpStream>>(rt: &R, port: u16, bytes: &[u8]) -> io::Result<()> {
    let stream = connected(rt, port)?;
    send(&stream, bytes)
}

#[test]
fn lost_between_two_frames_amid_one_and_at_a_length(rt: HostRuntime) -> Result<(), Fail> {
    let alloc = rt.alloc();
    let server = Served::start(rt, alloc, 5)?;
    let lost: [(u8, &[u8]); 4] = [
        (1, b""),
        (2, &PUSH[..20]),
        (3, b"\x00\x00"),
        (4, b"\x01\x00\x00\x01"),
    ];
    for (number, bytes) in lost {
        send(&greeted(&rt, alloc, server.port, number)?, bytes)?;
    }
    // the others hold nobody up
    let last = greeted(&rt, alloc, server.port, 5)?;
    send(&last, BYE)?;
    let told = server.told(&rt, alloc)?;
    assert_eq!(&rt;
        told.as_str(),
        "session 1 edits 0\nsession 2 edits 0 fault 34\nsession 3 edits 0 fault 34\nsession 4 edits 0 fault 21\nsession 5 edits 0\nclosed 0\n"
    );
    Ok(())
}

/// A board's whole plane is asked for so often that the replies fill all that the system keeps of them.
const WHOLE: &[u8] = b"\x00\x00\x00\x01\x04";

/// Whether the line of the first session tells that a read or a write failed.
fn fails_at_last(told: &str) -> bool {
    told.starts_with("session 1 edits 1 fault 36\n")
        || told.starts_with("session 1 edits 1 fault 37\n")
}

#[test]
fn lost_amid_a_reply(rt: HostRuntime) -> Result<(), Fail> {
    let alloc = rt.alloc();
    let server = Served::start(rt, alloc, 2)?;
    let lost = connected(&rt, server.port)?;
    send(&lost, PUSH)?;
    assert!(&rt; gets(alloc, &lost, b"\x00\x00\x00\x01\x00")?);
    for _ in 0..20_000 {
        if send(&lost, WHOLE).is_err() {
            break;
        }
    }
    drop(lost);
    leave(&rt, server.port, BYE)?;
    let told = server.told(&rt, alloc)?;
    assert!(&rt; fails_at_last(&told), "{told}");
    assert!(&rt; told.ends_with("session 2 edits 0\nclosed 1\n"), "{told}");
    Ok(())
}
