//! A plain relay of bytes: each frame of 41 bytes takes its turn under one lock, and is replied to with five bytes.
//! It has no board, no plane and no protocol.

use std::alloc::{AllocError, Global};
use std::io::{Read, Write};
use std::net::TcpListener;
use std::sync::{Mutex, Wait};
use std::thread;
use std::thread::Threads;

/// Relays the frames of so many connections, each in a thread of its own, and counts them.
pub fn relay<R: Threads + Wait + Sync>(
    rt: &R,
    alloc: Global,
    listener: &TcpListener,
    connections: usize,
) -> Result<u64, AllocError> {
    let count = Mutex::new(0_u64);
    let reply = |_: usize| reply_all(rt, listener, &count);
    let _ends = thread::map_indices(rt, alloc, connections, &reply)?;
    let count = *count.lock(rt);
    Ok(count)
}

/// Takes a connection, and replies to its frames until it ends.
fn reply_all(rt: &impl Wait, listener: &TcpListener, count: &Mutex<u64>) {
    let Ok((stream, _)) = listener.accept() else {
        return;
    };
    let (mut from, mut to) = (&stream, &stream);
    let mut frame = [0; 41];
    for _ in rt.forever() {
        if from.read_exact(&mut frame).is_err() {
            break;
        }
        let mut count = count.lock(rt);
        *count = count.saturating_add(1);
        if to.write_all(&[0, 0, 0, 1, 0]).is_err() {
            break;
        }
    }
}
