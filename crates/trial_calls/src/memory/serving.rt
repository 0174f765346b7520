//! Services over a hub in memory.

use crate::memory::rows::{BYE, Body, FAULTY, HELLO, POLL_NONE, POLL_ONE, PUSH_ONE, Row};
use crate::memory::scripts::sink;
use crate::memory::sessions::session;
use crate::memory::{Verdict, behind};
use devices::{ReadSource, WriteSink};
use frame_service::{ServeFault, Served};
use session_service::{Unheard, serve};
use std::alloc::Global;
use std::thread::Threads;

/// The requests of a service in their frames, and their rows. Where the second request found no memory, the
/// third is answered by another row.
pub struct Service {
    requests: &'static [u8],
    rows: &'static [Row],
    third: Row,
}

/// A greeting, a push, a poll and a farewell: a push that found no memory was not accepted.
pub static PUSH: Service = Service {
    requests: b"\0\0\0\x01\x01\
        \0\0\0\x25\x02GLWD\x01\x04/2/3\0\0\0\x01\0\0\0\0\0\x01\0\x01\0\0\0\0\x01\x40\0\0\0\x40\0\0\0\x01\
        \0\0\0\x01\x03\0\0\0\x01\x06",
    rows: &[HELLO, PUSH_ONE, POLL_ONE, BYE],
    third: POLL_NONE,
};

/// A greeting, a poll, what is no request and a farewell.
pub static ASK: Service = Service {
    requests: b"\0\0\0\x01\x01\0\0\0\x01\x03\0\0\0\x01\x09\0\0\0\x01\x06",
    rows: &[HELLO, POLL_NONE, FAULTY, BYE],
    third: FAULTY,
};

/// The frame of a reply that found no memory.
const WANT: &[u8] = b"\0\0\0\x01\xff";

/// What went out behind the frames of a row.
fn behind_row<'a>(out: &'a [u8], row: &Row) -> Option<&'a [u8]> {
    let mut rest = out;
    for body in row.bodies {
        let Body::Bytes(bytes) = body else {
            return None;
        };
        let length = u32::try_from(bytes.len()).ok()?;
        rest = behind(behind(rest, &length.to_be_bytes())?, bytes)?;
    }
    Some(rest)
}

/// How many requests a service answered, each by its row, and which of them found no memory: one at most.
fn answered(out: &[u8], service: &Service) -> Option<(usize, Option<usize>)> {
    let mut rest = out;
    let mut wanted = None;
    for (place, row) in service.rows.iter().enumerate() {
        if rest.is_empty() {
            return Some((place, wanted));
        }
        let row = if place == 2 && wanted == Some(1) {
            &service.third
        } else {
            row
        };
        match behind(rest, WANT) {
            Some(further) if wanted.is_none() => {
                wanted = Some(place);
                rest = further;
            }
            _ => rest = behind_row(rest, row)?,
        }
    }
    if rest.is_empty() {
        Some((4, wanted))
    } else {
        None
    }
}

/// How a service met its rows. A farewell that found no memory does not end it: the input does. Where there
/// is no memory for what is pulled, it ends behind whole replies.
fn met(end: Result<Served, ServeFault>, out: &[u8], service: &Service) -> Verdict {
    let Some((requests, wanted)) = answered(out, service) else {
        return Verdict::Neither;
    };
    match end {
        Err(ServeFault::Memory) if requests < 4 && wanted.is_none() => Verdict::Want,
        Ok(served) if requests == 4 && served.requests == 4 && served.bye == (wanted != Some(3)) =>
            {
                if wanted.is_none() {
                    Verdict::Meant
                } else {
                    Verdict::Want
                }
            }
        _ => Verdict::Neither,
    }
}

/// How a service over a new hub meets its rows, where what goes out has room.
fn served<R: Threads + Sync + Drop>(rt: R, alloc: Global, service: &Service) -> Verdict {
    let Some(mut session) = session(rt, alloc, 0) else {
        return Verdict::Neither;
    };
    let Some(mut out) = sink(alloc) else {
        return Verdict::Neither;
    };
    let mut source = ReadSource::new(service.requests);
    let end = serve(
        &mut source,
        &mut WriteSink::new(&mut out),
        &mut session,
        &mut Unheard,
    );
    met(end, &out, service)
}

/// Whether a service ends as it is meant to, with a new hub where there was no memory.
pub fn serves<R: Threads + Sync + Drop + Copy>(rt: R, alloc: Global, service: &Service) -> bool {
    match served(rt, alloc, service) {
        Verdict::Want => served(rt, alloc, service) == Verdict::Meant,
        verdict => verdict == Verdict::Meant,
    }
}
