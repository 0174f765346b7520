//! `Session::answer` beside the protocol as it is written down.

use crate::chance::Chance;
use crate::draw::messages::LIFE;
use crate::draw::requests::request;
use crate::mutation::{EDGES, Stock, mutated};
use crate::slow::session::SlowSession;
use crate::verdict::{Tally, Verdict};
use edit_stamps::{Cell, EditFault};
use frame_service::Reply;
use generations_rule::Rule;
use memory_hub::MemoryHub;
use message_frames::Framed;
use replica_sessions::Session;
use samples::plane_of;
use std::alloc::{AllocError, Global};
use std::thread::Threads;

/// A block, of counter 1 and replica 1.
static BLOCK: [Cell; 4] = cells![(0, 0, 1), (1, 0, 1), (0, 1, 1), (1, 1, 1)];

/// A session of seat 1 over a hub whose plane is the block.
fn session_of<R: Threads + Sync + Drop>(
    rt: R,
    alloc: Global,
) -> Result<Option<Session<MemoryHub, R>>, AllocError> {
    let Ok(rule) = Rule::parse(LIFE.text) else {
        return Ok(None);
    };
    match plane_of(alloc, &rule, &BLOCK) {
        Ok(plane) => Ok(Some(Session::new(rt, alloc, MemoryHub::new(alloc, rule, 1, plane, 0)))),
        Err(EditFault::Memory) => Err(AllocError),
        Err(_) => Ok(None),
    }
}

/// Counts the verdicts on up to six requests by chance; the requests in their frames.
pub fn judged<R: Threads + Sync + Drop>(
    rt: R,
    alloc: Global,
    chance: &mut Chance,
    tally: &mut Tally,
) -> Result<Vec<u8>, AllocError> {
    let mut requests = Vec::new(alloc);
    let Some(mut session) = session_of(rt, alloc)? else {
        tally.count(Verdict::Differs);
        return Ok(requests);
    };
    let mut slow = SlowSession::new(alloc);
    for _ in 0..chance.below(6).saturating_add(1) {
        let request = changed_request(alloc, chance)?;
        tally.count(answered(&mut session, &mut slow, &request)?);
        requests.extend_from_slice(&length_of(&request).to_be_bytes())?;
        requests.extend_from_slice(&request)?;
    }
    Ok(requests)
}

/// A request, in some cases with changes.
fn changed_request(alloc: Global, chance: &mut Chance) -> Result<Vec<u8>, AllocError> {
    let good = request(alloc, chance)?;
    if chance.is_one_in(2) {
        return Ok(good);
    }
    let other = request(alloc, chance)?;
    let stock = Stock {
        edges: &EDGES,
        other: &other,
    };
    mutated(alloc, chance, &good, stock)
}

/// The verdict on one request.
fn answered<R: Threads + Sync + Drop>(
    session: &mut Session<MemoryHub, R>,
    slow: &mut SlowSession,
    request: &[u8],
) -> Result<Verdict, AllocError> {
    let bodies = slow.reply(request)?;
    let reply = session.answer(request)?;
    let is_same = is_reply(&reply, &bodies) && reply.last == is_bye(request);
    let is_accepted = bodies.first().is_some_and(|body| body.first() == Some(&0));
    Ok(if is_accepted {
        Verdict::accepted_if(is_same)
    } else {
        Verdict::refused_if(is_same)
    })
}

/// Whether a reply is these bodies, each behind its length.
fn is_reply(reply: &Reply, bodies: &[Vec<u8>]) -> bool {
    let frames = reply.frames.as_slice();
    frames.len() == bodies.len()
        && frames
            .iter()
            .zip(bodies)
            .all(|(frame, body)| is_frame(frame, body))
}

fn is_frame(frame: &Framed, body: &[u8]) -> bool {
    match frame.as_frame().split_at_checked(4) {
        Some((length, rest)) => {
            rest == body && length == length_of(body).to_be_bytes().as_slice()
        }
        None => false,
    }
}

/// How many bytes a body has, as its frame says it.
fn length_of(body: &[u8]) -> u32 {
    u32::try_from(body.len()).unwrap_or(u32::MAX)
}

/// Whether nothing is answered behind a request.
fn is_bye(request: &[u8]) -> bool {
    matches!(request, [6])
}
