//! What is told of a text: by those who read it, by a replica that takes it, and by a session it is pushed to.

ghost use Rattle.std.specs.Prelude.{◌≤◌, IfOk};
ghost use Rattle.edit_stamps.specs.PlaneMap.{HasStatesBelow};
ghost use Rattle.stamped_tree.specs.Plane.{map_of};

use delta_exchange::{Message, ReadFault, read, write_delta, write_state};
use generations_rule::Rule;
use memory_hub::MemoryHub;
use replica_core::Replica;
use replica_sessions::Session;
use stamped_tree::Plane;
use std::alloc::{AllocError, Global};
use std::test::Fail;
use std::thread::Threads;

pub fn brians_brain() -> Result<Rule, Fail> {
    Ok(Rule::parse(b"/2/3")?)
}

/// The first fault of a text, if it has one.
pub fn fault_of(alloc: Global, text: &[u8]) -> Result<Option<ReadFault>, Fail> {
    let rule = brians_brain()?;
    match read(alloc, &rule, text) {
        Ok(_message) => Ok(None),
        Err(fault) => Ok(Some(fault)),
    }
}

/// What is written of a message.
fn written(alloc: Global, rule: &Rule, message: &Message) -> Result<Vec<u8>, AllocError> {
    match (message.edits(), message.plane()) {
        (_, Some(plane)) => write_state(alloc, rule, plane),
        (Some(edits), None) if edits.len() < 1000 => write_delta(alloc, rule, edits),
        _ => Ok(Vec::new(alloc)),
    }
}

/// What is written of what is read of a text; nothing where it is refused.
pub fn rewritten(alloc: Global, rule: &Rule, text: &[u8]) -> Result<Option<Vec<u8>>, AllocError> {
    match read(alloc, rule, text) {
        Ok(message) => Ok(Some(written(alloc, rule, &message)?)),
        Err(ReadFault::Memory) => Err(AllocError),
        Err(_) => Ok(None),
    }
}

/// Whether what is read of a text is written again as it was.
pub fn is_told_again(alloc: Global, text: &[u8]) -> Result<bool, Fail> {
    let rule = brians_brain()?;
    Ok(is_written_again(alloc, &rule, text)?)
}

/// The same under a rule that is at hand.
pub fn is_written_again(alloc: Global, rule: &Rule, text: &[u8]) -> Result<bool, AllocError> {
    match rewritten(alloc, rule, text)? {
        Some(again) => Ok(again.as_slice() == text),
        None => Ok(false),
    }
}

/// The number with which a replica of number 2 that holds nothing refuses a text, or 0, and its state then.
pub fn taken(alloc: Global, text: &[u8]) -> Result<(u8, Vec<u8>), Fail> {
    let mut replica = Replica::new(alloc, brians_brain()?, 2)?;
    let number = match replica.take_bytes(text) {
        Ok(()) => 0,
        Err(fault) => fault.number(),
    };
    Ok((number, replica.state()?))
}

/// The plane where nothing was written.
pub fn blank(alloc: Global, rule: &Rule) -> Result<Plane, AllocError>
    ensures { IfOk result (λ plane. HasStatesBelow rule.now.states (map_of plane)) }
{
    // For the proof alone: the call tells that what is held is a rule.
    let _states = rule.states();
    let plane = Plane::new(alloc)?;
    Ok(plane)
}

/// A session of seat 1 under Brian's Brain, over a hub that has nothing.
pub fn session_of<R: Threads + Sync + Drop>(
    rt: R,
    alloc: Global,
) -> Result<Session<MemoryHub, R>, Fail> {
    let rule = brians_brain()?;
    let plane = blank(alloc, &rule)?;
    Ok(Session::new(rt, alloc, MemoryHub::new(alloc, rule, 1, plane, 0)))
}

/// The one byte of a reply of one frame of one byte, which is a refusal's number, or 0.
pub fn replied<R: Threads + Sync + Drop>(
    session: &mut Session<MemoryHub, R>,
    request: &[u8],
) -> Result<Option<u8>, AllocError> {
    let reply = session.answer(request)?;
    match reply.frames.as_slice() {
        [frame] => match frame.as_body() {
            [number] => Ok(Some(*number)),
            _ => Ok(None),
        },
        _ => Ok(None),
    }
}

/// The number with which a session refuses a push of a text, or 0.
pub fn pushed<R: Threads + Sync + Drop>(
    rt: R,
    alloc: Global,
    text: &[u8],
) -> Result<Option<u8>, Fail> {
    let mut session = session_of(rt, alloc)?;
    let mut request = Vec::from_slice(alloc, &[2])?;
    request.extend_from_slice(text)?;
    Ok(replied(&mut session, &request)?)
}
