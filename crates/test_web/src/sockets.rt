//! Sockets over connections in memory: what a session pulls and pushes.

use crate::heads::ACCEPT;
use crate::memory::{Arrival, BINARY, CLOSE, CONTINUE, Memory, PING, TEXT, put};
use std::alloc::{AllocError, Global};
use std::io;
use std::io::{ErrorKind, Read, Write};
use std::test::Fail;
use web_requests::SeatRequest;
use web_streams::{Came, SocketReader, SocketWriter, open_socket};

/// The most bytes of a message.
const MOST: usize = 16_777_216;

pub(crate) fn opened(
    alloc: Global,
    arrivals: Vec<Arrival>,
) -> io::Result<(SocketReader<Memory>, SocketWriter<Memory>)> {
    let request = SeatRequest {
        key: *b"0123456789abcdef0123456789abcdef",
        accept: *ACCEPT,
        head_len: 0,
    };
    open_socket(
        alloc,
        Memory::new(alloc, arrivals),
        &request,
        Vec::new(alloc),
    )
}

/// A socket over which these bytes come.
fn with_bytes(
    alloc: Global,
    bytes: Vec<u8>,
) -> Result<(SocketReader<Memory>, SocketWriter<Memory>), Fail> {
    let mut arrivals = Vec::new(alloc);
    arrivals.push(Arrival::Bytes(bytes))?;
    Ok(opened(alloc, arrivals)?)
}

/// All that a reader gives, so many bytes at a time.
pub(crate) fn pulled(
    alloc: Global,
    reader: &mut SocketReader<Memory>,
    room: usize,
) -> Result<Vec<u8>, Fail> {
    let mut all = Vec::new(alloc);
    let mut piece = vec![in alloc; 0u8; room]?;
    for _read in 0..u64::MAX {
        let count = reader.read(&mut piece)?;
        if count == 0 {
            return Ok(all);
        }
        all.extend_from_slice(piece.get(..count).ok_or("more than there is room for")?)?;
    }
    Ok(all)
}

/// What a connection was told behind the handshake's answer.
fn told(memory: &Memory) -> &[u8] {
    memory.told.get(129..).unwrap_or(&[])
}

#[test]
fn bodies_stand_behind_their_lengths(rt: HostRuntime) -> Result<(), Fail> {
    let alloc = rt.alloc();
    for room in [1, 3, 4, 5, 4096] {
        let mut bytes = Vec::new(alloc);
        put(&mut bytes, BINARY, true, b"abc")?;
        put(&mut bytes, TEXT, true, b"passed over")?;
        put(&mut bytes, BINARY, true, b"")?;
        put(&mut bytes, PING, true, b"ping")?;
        put(&mut bytes, BINARY, true, b"d")?;
        put(&mut bytes, CLOSE, true, b"")?;
        put(&mut bytes, BINARY, true, b"behind a close")?;
        let (mut reader, _writer) = with_bytes(alloc, bytes)?;
        let all = pulled(alloc, &mut reader, room)?;
        assert_eq!(&rt;
            all.as_slice(),
            b"\x00\x00\x00\x03abc\x00\x00\x00\x00\x00\x00\x00\x01d".as_slice(),
            "by {room}"
        );
        assert_eq!(&rt;
            told(reader.connection()),
            b"\x8a\x04ping\x88\x00".as_slice()
        );
    }
    Ok(())
}

/// A message in three fragments, between which a ping stands and a text would be refused.
#[test]
fn fragments_are_one_body(rt: HostRuntime) -> Result<(), Fail> {
    let alloc = rt.alloc();
    let mut bytes = Vec::new(alloc);
    put(&mut bytes, BINARY, false, b"one ")?;
    put(&mut bytes, PING, true, b"1")?;
    put(&mut bytes, CONTINUE, false, b"")?;
    put(&mut bytes, PING, true, b"2")?;
    put(&mut bytes, CONTINUE, true, b"body")?;
    put(&mut bytes, TEXT, false, b"a te")?;
    put(&mut bytes, CONTINUE, true, b"xt")?;
    put(&mut bytes, BINARY, true, b"!")?;
    let (mut reader, _writer) = with_bytes(alloc, bytes)?;
    let all = pulled(alloc, &mut reader, 4096)?;
    assert_eq!(&rt;
        all.as_slice(),
        b"\x00\x00\x00\x08one body\x00\x00\x00\x01!".as_slice()
    );
    assert_eq!(&rt; told(reader.connection()), b"\x8a\x011\x8a\x012".as_slice());
    Ok(())
}

/// However a socket ends, what was pulled ends behind a whole body.
#[test]
fn ends_stand_between_bodies(rt: HostRuntime) -> Result<(), Fail> {
    let alloc = rt.alloc();
    let mut bytes = Vec::new(alloc);
    put(&mut bytes, BINARY, true, b"whole")?;
    let whole = bytes.len();
    put(&mut bytes, BINARY, false, b"a part")?;
    put(&mut bytes, CONTINUE, true, b", and the rest")?;
    for cut in whole..bytes.len() {
        for fault in [false, true] {
            let mut arrivals = Vec::new(alloc);
            arrivals.push(Arrival::Interrupt)?;
            arrivals.push(Arrival::Bytes(Vec::from_slice(alloc, bytes.get(..cut).ok_or("cut")?)?))?;
            if fault {
                arrivals.push(Arrival::Fault)?;
            }
            let (mut reader, _writer) = opened(alloc, arrivals)?;
            let all = pulled(alloc, &mut reader, 7)?;
            assert_eq!(&rt;
                all.as_slice(),
                b"\x00\x00\x00\x05whole".as_slice(),
                "at {cut}"
            );
            assert_eq!(&rt; reader.has_come(), Came::End, "at {cut}");
        }
    }
    Ok(())
}

/// Frames that no browser sends end a socket, behind the bodies before them.
#[test]
fn hostile_frames_end_a_socket(rt: HostRuntime) -> Result<(), Fail> {
    let alloc = rt.alloc();
    let hostile: [&[u8]; 8] = [
        b"\x82\x01a",
        b"\xc2\x81\x00\x00\x00\x00a",
        b"\x83\x81\x00\x00\x00\x00a",
        b"\x80\x81\x00\x00\x00\x00a",
        b"\x09\x80\x00\x00\x00\x00",
        b"\x89\xfe\x00\x7e\x00\x00\x00\x00",
        b"\x82\xff\x00\x00\x00\x00\x01\x00\x00\x01",
        b"\x81\x81\x00\x00\x00\x00\xff",
    ];
    for frame in hostile {
        let mut bytes = Vec::new(alloc);
        put(&mut bytes, BINARY, true, b"before")?;
        bytes.extend_from_slice(frame)?;
        put(&mut bytes, BINARY, true, b"behind")?;
        let (mut reader, _writer) = with_bytes(alloc, bytes)?;
        let all = pulled(alloc, &mut reader, 4096)?;
        assert_eq!(&rt;
            all.as_slice(),
            b"\x00\x00\x00\x06before".as_slice(),
            "at {frame:?}"
        );
    }
    Ok(())
}

fn of_bytes(alloc: Global, count: usize, parts: usize) -> Result<Vec<u8>, AllocError> {
    let mut bytes = Vec::new(alloc);
    let body = vec![in alloc; 9u8; count]?;
    let (first, rest) = body.split_at(count / parts.max(1));
    put(&mut bytes, BINARY, rest.is_empty(), first)?;
    if !rest.is_empty() {
        put(&mut bytes, CONTINUE, true, rest)?;
    }
    Ok(bytes)
}

#[test]
fn the_longest_message(rt: HostRuntime) -> Result<(), Fail> {
    let alloc = rt.alloc();
    for parts in [1, 2] {
        let (mut reader, _writer) = with_bytes(alloc, of_bytes(alloc, MOST, parts)?)?;
        assert_eq!(&rt;
            pulled(alloc, &mut reader, 65_536)?.len(),
            MOST + 4,
            "in {parts}"
        );
        let (mut reader, _writer) = with_bytes(alloc, of_bytes(alloc, MOST + 1, parts)?)?;
        assert_eq!(&rt; pulled(alloc, &mut reader, 65_536)?.len(), 0, "in {parts}");
    }
    Ok(())
}

/// What has come is told without a wait: a whole message, in whichever pieces, and nothing else.
#[test]
fn what_has_come(rt: HostRuntime) -> Result<(), Fail> {
    let alloc = rt.alloc();
    let mut first = Vec::new(alloc);
    put(&mut first, PING, true, b"?")?;
    put(&mut first, TEXT, true, b"text")?;
    put(&mut first, BINARY, false, b"a")?;
    let mut last = Vec::new(alloc);
    put(&mut last, CONTINUE, true, b"b")?;
    put(&mut last, BINARY, true, b"c")?;
    let late = last.pop().ok_or("a byte")?;
    let mut arrivals = Vec::new(alloc);
    arrivals.push(Arrival::Pause)?;
    arrivals.push(Arrival::Bytes(first))?;
    arrivals.push(Arrival::Pause)?;
    arrivals.push(Arrival::Bytes(last))?;
    arrivals.push(Arrival::Pause)?;
    arrivals.push(Arrival::Bytes(vec![in alloc; late]?))?;
    let (mut reader, _writer) = opened(alloc, arrivals)?;
    assert_eq!(&rt; reader.has_come(), Came::Nothing);
    assert_eq!(&rt; reader.has_come(), Came::Nothing);
    assert_eq!(&rt; told(reader.connection()), b"\x8a\x01?".as_slice());
    for _again in 0..2 {
        assert_eq!(&rt; reader.has_come(), Came::Message);
    }
    let mut piece = [0; 5];
    assert_eq!(&rt; reader.read(&mut piece)?, 4);
    assert_eq!(&rt; reader.has_come(), Came::Message);
    assert_eq!(&rt; reader.read(&mut piece)?, 2);
    assert_eq!(&rt; piece, *b"ab\x00\x02\x00");
    assert_eq!(&rt; reader.has_come(), Came::Nothing);
    assert_eq!(&rt; reader.has_come(), Came::Message);
    assert_eq!(&rt;
        pulled(alloc, &mut reader, 9)?.as_slice(),
        b"\x00\x00\x00\x01c".as_slice()
    );
    assert_eq!(&rt; reader.has_come(), Came::End);
    Ok(())
}

/// Each frame goes out as a message of its body, and nothing but a frame goes out.
#[test]
fn what_is_pushed(rt: HostRuntime) -> Result<(), Fail> {
    let alloc = rt.alloc();
    let (_reader, mut writer) = opened(alloc, Vec::new(alloc))?;
    writer.write_all(b"\x00\x00\x00\x02hi")?;
    writer.write_all(b"\x00\x00\x00\x00")?;
    writer.flush()?;
    for bytes in [
        b"\x00\x00\x00".as_slice(),
        b"\x00\x00\x00\x01",
        b"\x00\x00\x00\x01ab",
        b"\x00\x00\x00\x00\x00\x00\x00\x00",
    ] {
        let refused = writer.write(bytes).err().map(|error| error.kind());
        assert_eq!(&rt; refused, Some(ErrorKind::InvalidInput), "at {bytes:?}");
    }
    assert_eq!(&rt;
        writer.connection().told.as_slice(),
        b"\x82\x02hi\x82\x00".as_slice()
    );
    let mut long = Vec::from_slice(alloc, &70_000u32.to_be_bytes())?;
    long.resize(70_004, 5)?;
    writer.write_all(&long)?;
    let head = writer.connection().told.get(6..16).ok_or("a head")?;
    assert_eq!(&rt;
        head,
        b"\x82\x7f\x00\x00\x00\x00\x00\x01\x11\x70".as_slice()
    );
    assert_eq!(&rt; writer.connection().told.len(), 70_016);
    Ok(())
}

/// Where a message went out in part, no other follows it.
#[test]
fn a_push_that_was_cut(rt: HostRuntime) -> Result<(), Fail> {
    let alloc = rt.alloc();
    let request = SeatRequest {
        key: *b"0123456789abcdef0123456789abcdef",
        accept: *ACCEPT,
        head_len: 0,
    };
    let mut memory = Memory::new(alloc, Vec::new(alloc));
    memory.takes = 131;
    let (_reader, mut writer) = open_socket(alloc, memory, &request, Vec::new(alloc))?;
    for time in 0..60 {
        writer
            .write_all(b"\x00\x00\x00\x01a")
            .or_else(|error| if time > 0 { Ok(()) } else { Err(error) })?;
    }
    assert_eq!(&rt; writer.connection().told.len(), 131);
    let refused = writer
        .write(b"\x00\x00\x00\x00")
        .err()
        .map(|error| error.kind());
    assert_eq!(&rt; refused, Some(ErrorKind::BrokenPipe));
    Ok(())
}

#[test]
fn what_was_read_before_comes_first(rt: HostRuntime) -> Result<(), Fail> {
    let alloc = rt.alloc();
    let request = SeatRequest {
        key: *b"0123456789abcdef0123456789abcdef",
        accept: *ACCEPT,
        head_len: 0,
    };
    let mut bytes = Vec::new(alloc);
    put(&mut bytes, BINARY, true, b"first")?;
    let last = bytes.pop().ok_or("a byte")?;
    let mut arrivals = Vec::new(alloc);
    arrivals.push(Arrival::Bytes(vec![in alloc; last]?))?;
    let memory = Memory::new(alloc, arrivals);
    let (mut reader, _writer) = open_socket(alloc, memory, &request, bytes)?;
    assert!(&rt; reader.connection().told.starts_with(b"HTTP/1.1 101 "));
    assert_eq!(&rt;
        pulled(alloc, &mut reader, 99)?.as_slice(),
        b"\x00\x00\x00\x05first".as_slice()
    );
    Ok(())
}
