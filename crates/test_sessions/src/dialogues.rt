//! What sessions answer, as texts.

use crate::texts::{bytes_of, told};
use replica_sessions::Session;
use session_hub::Hub;
use std::alloc::{AllocError, Global};
use std::thread::Threads;

/// The reply to a request that is spelt in hexadecimal digits.
pub fn answered<H: Hub, R: Threads + Sync + Drop>(
    alloc: Global,
    session: &mut Session<H, R>,
    request: &str,
) -> Result<String, AllocError> {
    let request = bytes_of(alloc, request)?;
    let reply = session.answer(&request)?;
    told(alloc, &reply)
}

/// Each line's request, the part before ` -> `, and behind that the session's own reply.
pub fn dialogue<H: Hub, R: Threads + Sync + Drop>(
    alloc: Global,
    session: &mut Session<H, R>,
    text: &str,
) -> Result<String, AllocError> {
    let mut all = String::new(alloc);
    for line in text.lines() {
        let request = line.split(" -> ").next().unwrap_or(line);
        let reply = answered(alloc, session, request)?;
        all = format!(in alloc; "{all}{request} -> {reply}\n")?;
    }
    Ok(all)
}
