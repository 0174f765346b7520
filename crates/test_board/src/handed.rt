//! What polls hand out, of lists of up to 1,025 edits.

use crate::press::{Press, publish_all};
use crate::told::{Told, tell};
use std::alloc::Global;
use std::sync::Wait;
use std::test::Fail;

/// The polls of a reader that polled after the first edit, and of one that never did.
fn polls_of_1025<R: Wait + Drop>(rt: R, alloc: Global) -> Result<[Told; 5], &'static str> {
    let mut press = Press::new(rt, alloc, 2)?;
    let mut one = press.reader()?;
    let mut other = press.reader()?;
    let press = publish_all(press, 1, 2)?;
    let first = tell(&one.poll());
    let _press = publish_all(press, 2, 1026)?;
    Ok([
        first,
        tell(&one.poll()),
        tell(&other.poll()),
        tell(&one.poll()),
        tell(&other.poll()),
    ])
}

#[test]
fn of_1025_edits_all_or_a_plane(rt: HostRuntime) -> Result<(), Fail> {
    let polls = polls_of_1025(rt, rt.alloc())?;
    assert_eq!(rt;
        polls,
        [
            Told::Edits(1, 1),
            Told::Edits(2, 1024),
            Told::Whole(1025, 1025),
            Told::Edits(0, 0),
            Told::Edits(0, 0),
        ]
    );
    Ok(())
}

/// What a reader that never polled has seen and is handed once it learnt of 1,024 edits.
fn polls_of_1024<R: Wait + Drop>(rt: R, alloc: Global) -> Result<(u64, Told, Told), &'static str> {
    let mut press = Press::new(rt, alloc, 1)?;
    let mut reader = press.reader()?;
    let press = publish_all(press, 1, 1025)?;
    reader.learn(&press.front());
    Ok((
        reader.window.front.len(),
        tell(&reader.poll()),
        tell(&reader.poll()),
    ))
}

#[test]
fn of_1024_edits_all(rt: HostRuntime) -> Result<(), Fail> {
    let polls = polls_of_1024(rt, rt.alloc())?;
    assert_eq!(rt; polls, (1024, Told::Edits(1, 1024), Told::Edits(0, 0)));
    Ok(())
}
