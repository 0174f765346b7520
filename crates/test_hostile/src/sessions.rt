//! Sessions that are sent a hundred thousand faulty requests, and go on.

use crate::spelling::bytes_of;
use crate::telling::{replied, session_of};
use devices::{ReadSource, WriteSink};
use frame_service::{Reply, ServeFault, Served};
use memory_hub::MemoryHub;
use replica_sessions::Session;
use session_service::{Unheard, serve};
use std::alloc::{AllocError, Global};
use std::test::Fail;
use std::thread::Threads;

/// How many faulty requests there are.
const REQUESTS: usize = 100_000;

/// Faulty requests, each of which is answered by one byte.
static FAULTY: [(&str, u8); 16] = [
    ("", 33),
    ("00", 33),
    ("08", 33),
    ("ff ffffffffffffffffffffffffffff", 33),
    ("01 00", 33),
    ("03 00000000", 33),
    ("05 000000", 33),
    ("05 20000001", 22),
    ("05 ffffffff", 22),
    ("07 ffff 00000000", 33),
    ("02", 17),
    ("02 474c5744 01 04 2f322f33 ffffffff", 17),
    ("02 474c5744 01 04 2f322f33 00000001 0000000000000001", 18),
    (
        "02 474c5744 01 04 2f322f33 00000001 0000000000010002 00 00000001 40000000 40000000 01",
        28,
    ),
    ("02 474c5753 02 04 2f322f33 00000001 1f 01 00000000", 19),
    ("02 474c5753 02 04 2f322f33 00000000 0000000000010001", 33),
];

/// A faulty request as bytes, and the number by which it is answered.
#[derive(Drop)]
struct Asked {
    request: Vec<u8>,
    number: u8,
}

fn faulty(alloc: Global) -> Result<Vec<Asked>, AllocError> {
    let mut all = Vec::new(alloc);
    for (request, number) in FAULTY {
        let request = bytes_of(alloc, request)?;
        all.push(Asked { request, number })?;
    }
    Ok(all)
}

/// How many faulty requests, each in its turn, are answered by their numbers.
fn refused<R: Threads + Sync + Drop>(
    session: &mut Session<MemoryHub, R>,
    all: &[Asked],
    requests: usize,
) -> Result<usize, AllocError> {
    let mut refused = 0_usize;
    for turn in 0..requests {
        if let Some(asked) = all.get(turn % all.len().max(1)) {
            if replied(session, &asked.request)? == Some(asked.number) {
                refused = refused.saturating_add(1);
            }
        }
    }
    Ok(refused)
}

/// A greeting, the push of an edit, and a poll that hands it out.
static GOOD: [(&str, &str); 4] = [
    ("01", "00 0001 04 2f322f33"),
    (
        "02 474c5744 01 04 2f322f33 00000001 0000000000010001 00 00000001 40000000 40000000 01",
        "00",
    ),
    (
        "03",
        "00 00000001 474c5744 01 04 2f322f33 00000001 0000000000010001 00 00000001 40000000 40000000 01",
    ),
    ("03", "00 00000000"),
];

/// The bodies of a reply, one behind another.
fn bodies(alloc: Global, reply: &Reply) -> Result<Vec<u8>, AllocError> {
    let mut bodies = Vec::new(alloc);
    for frame in reply.frames.as_slice() {
        bodies.extend_from_slice(frame.as_body())?;
    }
    Ok(bodies)
}

/// How many of the good requests are answered as they are meant to be.
fn answered<R: Threads + Sync + Drop>(
    alloc: Global,
    session: &mut Session<MemoryHub, R>,
) -> Result<usize, AllocError> {
    let mut answered = 0_usize;
    for (request, meant) in GOOD {
        let reply = session.answer(&bytes_of(alloc, request)?)?;
        if bodies(alloc, &reply)? == bytes_of(alloc, meant)? {
            answered = answered.saturating_add(1);
        }
    }
    Ok(answered)
}

#[test]
fn a_session_goes_on_behind_faulty_requests(rt: HostRuntime) -> Result<(), Fail> {
    let alloc = rt.alloc();
    let mut session = session_of(rt, alloc)?;
    let all = faulty(alloc)?;
    assert_eq!(rt; refused(&mut session, &all, REQUESTS)?, REQUESTS);
    assert_eq!(rt; answered(alloc, &mut session)?, 4);
    Ok(())
}

/// Puts a body in its frame behind others; it has fewer than 256 bytes.
fn push_frame(stream: &mut Vec<u8>, body: &[u8]) -> Result<(), AllocError> {
    let length = u8::try_from(body.len()).unwrap_or(0);
    stream.extend_from_slice(&[0, 0, 0, length])?;
    stream.extend_from_slice(body)
}

/// The frames of so many faulty requests, each in its turn, and of the replies to them.
fn faulty_streams(
    alloc: Global,
    all: &[Asked],
    requests: usize,
) -> Result<(Vec<u8>, Vec<u8>), AllocError> {
    let (mut stream, mut replies) = (Vec::new(alloc), Vec::new(alloc));
    for turn in 0..requests {
        if let Some(asked) = all.get(turn % all.len().max(1)) {
            push_frame(&mut stream, &asked.request)?;
            push_frame(&mut replies, &[asked.number])?;
        }
    }
    Ok((stream, replies))
}

/// How a service ends that is fed a stream, and what it pushes.
fn served<R: Threads + Sync + Drop>(
    rt: R,
    alloc: Global,
    stream: &[u8],
) -> Result<(Result<Served, ServeFault>, Vec<u8>), Fail> {
    let mut session = session_of(rt, alloc)?;
    let mut out = Vec::new(alloc);
    let end = serve(
        &mut ReadSource::new(stream),
        &mut WriteSink::new(&mut out),
        &mut session,
        &mut Unheard,
    );
    Ok((end, out))
}

/// Behind the faulty ones a greeting and a farewell are answered.
#[test]
fn a_service_goes_on_behind_faulty_frames(rt: HostRuntime) -> Result<(), Fail> {
    let alloc = rt.alloc();
    let (mut stream, mut replies) = faulty_streams(alloc, &faulty(alloc)?, REQUESTS)?;
    push_frame(&mut stream, &[1])?;
    push_frame(&mut stream, &[6])?;
    push_frame(&mut replies, b"\0\0\x01\x04/2/3")?;
    push_frame(&mut replies, &[0])?;
    let (end, out) = served(rt, alloc, &stream)?;
    let meant = Ok(Served {
        requests: 100_002,
        bye: true,
    });
    assert_eq!(rt; end, meant);
    assert!(rt; out == replies);
    Ok(())
}
