//! Waiting for news.

use crate::listen::{Came, Listen};
use message_frames::Frames;
use replica_sessions::{Kind, Session, kind_of};
use session_hub::Hub;
use std::thread::Threads;
use std::time::Duration;

/// How often one wait looks for news at most: others' announcements may come to nothing for this session.
const LOOKS: u64 = 0x1_0000_0000;

/// Waits before a request that awaits news is answered, for as long as it says at most, unless a further
/// byte stands behind it already.
pub fn wait_before<E: Listen, H: Hub, R: Threads + Sync + Drop>(
    ears: &mut E,
    session: &Session<H, R>,
    behind: &Frames,
    request: &[u8],
) {
    if !behind.is_empty() {
        return;
    }
    match kind_of(request) {
        (Kind::Await(milliseconds), _) => {
            // First this, so that nothing that is announced from here on is missed.
            ears.begin(Duration::from_millis(u64::from(milliseconds)));
            wait_for_news(ears, session);
            ears.end();
        }
        (_, _) => {}
    }
}

/// Waits until there are news, the time is over, or something is to be pulled. It has neither the source
/// nor the sink, and only reads the session: so it can neither pull nor answer.
fn wait_for_news<E: Listen, H: Hub, R: Threads + Sync + Drop>(
    ears: &mut E,
    session: &Session<H, R>,
) {
    for _look in 0..LOOKS {
        if session.has_news() {
            return;
        }
        match ears.wait() {
            Came::News => {}
            Came::Byte | Came::Nothing => return,
        }
    }
}
